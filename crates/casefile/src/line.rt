// The lines of a file, read one after the other: each is expected to have its key.
ghost use Rattle.std.specs.Prelude.{◌≡◌, ◌+◌, ◌<◌, ◌≤◌, length};

use crate::fault::FileFault;
use text::cursor::Cursor;
use text::line::NEWLINE;

// The value of a line: the piece of the file behind the key, and the number of the line.
#[derive(Clone, Copy)]
pub(crate) struct Value<'a> {
    pub piece: Cursor<'a>,
    pub line: usize,
}

impl<'a> Value<'a> {
    ghost use Rattle.std.specs.Prelude.{drop};

    // The bytes of the value.
    pub(crate) fn text(&self) -> &'a [u8]
        ensures { result.now ≡ drop self.now.piece.at self.now.piece.bytes.now }
    {
        self.piece.rest()
    }

    // The refusal of a value that has not the form of its key.
    pub(crate) fn refusal(&self) -> FileFault
        ensures { result ≡ FileFault.Form self.now.line }
    {
        FileFault::Form { line: self.line }
    }
}

// The lines that are left of a file: where the next begins, and its number.
#[derive(Clone, Copy)]
pub(crate) struct Lines<'a> {
    pub rest: Cursor<'a>,
    pub line: usize,
    ghost counted: { line ≤ rest.at + 1 },
}

impl<'a> Lines<'a> {
    ghost use Rattle.std.specs.Prelude.{take, drop, MatchOption, MatchResult, IfSome, IfOk};
    ghost use Rattle.casefile.specs.Lines.{Keyed, Unkeyed};

    // All lines of a file.
    pub(crate) fn new(bytes: &'a [u8]) -> Lines<'a>
        ensures { (result.rest.bytes.now ≡ bytes.now) × (result.rest.at ≡ 0) × (result.line ≡ 1) }
    {
        Lines {
            rest: Cursor { bytes, at: 0 },
            line: 1,
        }
    }

    // The value of the next line, where the line has the key and is ended.
    fn keyed(&self, key: &[u8]) -> Option<Value<'a>>
        ensures found { MatchOption result (Unkeyed self.now.rest.bytes.now self.now.rest.at key.now)
            (λ v. Keyed self.now.rest.bytes.now self.now.rest.at key.now v.piece.at (length v.piece.bytes.now)) }
        ensures value { IfSome result (λ v. (v.line ≡ self.now.line)
            × (v.piece.bytes.now ≡ take (length v.piece.bytes.now) self.now.rest.bytes.now)) }
    {
        let Cursor { bytes, at } = self.rest;
        let end = self.rest.find(NEWLINE)?;
        if !bytes[at..end].starts_with(key) {
            return None;
        }
        let piece = Cursor {
            bytes: &bytes[..end],
            at: at + key.len(),
        };
        let line = self.line;
        Some(Value { piece, line })
    }

    // The value of the next line, which is gone past: declined exactly where the line is missing, not ended or without
    // the key.
    pub(crate) fn expect(&mut self, key: &[u8]) -> Result<Value<'a>, FileFault>
        ensures found { MatchResult result
            (λ v. Keyed self.old.rest.bytes.now self.old.rest.at key.now v.piece.at (length v.piece.bytes.now))
            (λ e. (e ≡ FileFault.Key self.old.line) × Unkeyed self.old.rest.bytes.now self.old.rest.at key.now) }
        ensures value { IfOk result (λ v. (v.line ≡ self.old.line)
            × (v.piece.bytes.now ≡ take (length v.piece.bytes.now) self.old.rest.bytes.now)) }
        ensures next { IfOk result (λ v. (self.new.line ≡ self.old.line + 1)
            × (self.new.rest.at ≡ length v.piece.bytes.now + 1)) }
        ensures same { self.new.rest.bytes.now ≡ self.old.rest.bytes.now }
    {
        // A let-else, by a rule of form: what a line must have is taken, or the line is refused.
        let Some(value) = self.keyed(key) else {
            return Err(FileFault::Key { line: self.line });
        };
        self.rest.at = value.piece.bytes.len() + 1;
        self.line += 1;
        Ok(value)
    }

    // Declined where a line is left over.
    pub(crate) fn end(&self) -> Result<(), FileFault>
        ensures { MatchResult result (λ _. self.now.rest.at ≡ length self.now.rest.bytes.now)
            (λ e. (e ≡ FileFault.Key self.now.line) × (self.now.rest.at < length self.now.rest.bytes.now)) }
    {
        if self.rest.at < self.rest.bytes.len() {
            return Err(FileFault::Key { line: self.line });
        }
        Ok(())
    }
}
