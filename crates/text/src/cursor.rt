// A place in a text, and what is read from there on.
ghost use Rattle.std.specs.Prelude.{◌≡◌, ◌≤◌, ◌==◌, length, position};
ghost use Rattle.text.specs.Runs.{Passed};

// The bytes of a text, and the place that a reader has come to.
#[derive(Clone, Copy)]
pub struct Cursor<'a> {
    pub bytes: &'a [u8],
    pub at: usize,
    ghost inside: { at ≤ length bytes.now },
}

impl<'a> Cursor<'a> {
    ghost use Rattle.std.specs.Prelude.{◌≡◌, ◌+◌, ◌<◌, ◌≤◌, ◌==◌, ◌↔◌, length, drop, slice_get, Some, IsTrue, MatchBool, MatchOption, position};
    ghost use Rattle.text.specs.Lines.{NoneOf, FirstOf};
    ghost use Rattle.text.specs.Runs.{Passed};

    // The place `at`, where the text goes that far.
    pub fn new(bytes: &'a [u8], at: usize) -> Option<Cursor<'a>>
        ensures { MatchOption result (length bytes.now < at) (λ c. (c.bytes ≡ bytes.entry) × (c.at ≡ at)) }
    {
        if at <= bytes.len() {
            Some(Cursor { bytes, at })
        } else {
            None
        }
    }

    // The bytes from here on.
    pub fn rest(&self) -> &'a [u8]
        ensures { result.now ≡ drop self.now.at self.now.bytes.now }
    {
        &self.bytes[self.at..]
    }

    // The byte here.
    pub fn peek(&self) -> Option<u8>
        ensures { result ≡ slice_get self.now.bytes.now self.now.at }
    {
        self.bytes.get(self.at).copied()
    }

    // The byte here, and past it.
    pub fn bump(&mut self) -> Option<u8>
        ensures text { self.new.bytes ≡ self.old.bytes }
        ensures byte { result ≡ slice_get self.old.bytes.now self.old.at }
        ensures at { MatchOption result (self.new.at ≡ self.old.at) (λ _. self.new.at ≡ self.old.at + 1) }
    {
        let byte = self.peek()?;
        self.at += 1;
        Some(byte)
    }

    // Whether the byte here is `byte`; if so, past it.
    pub fn eat(&mut self, byte: u8) -> bool
        ensures text { self.new.bytes ≡ self.old.bytes }
        ensures eaten { IsTrue result ↔ (slice_get self.old.bytes.now self.old.at ≡ Some byte) }
        ensures at { MatchBool result (self.new.at ≡ self.old.at + 1) (self.new.at ≡ self.old.at) }
    {
        let eaten = self.peek() == Some(byte);
        self.at += usize::from(eaten);
        eaten
    }

    // Past the longest run of bytes that pass the test.
    pub fn skip_while<F: Fn(u8) -> bool>(&mut self, test: F)
        requires { F.IsAlwaysCallable test }
        ensures text { self.new.bytes ≡ self.old.bytes }
        ensures run { Passed (F.post test) self.old.bytes.now self.old.at self.new.at }
    {
        self.at += run_length(self.rest(), test);
    }

    // The place of the first `byte` from here on.
    pub fn find(&self, byte: u8) -> Option<usize>
        ensures { MatchOption result (NoneOf byte self.now.bytes.now self.now.at)
            (λ at. FirstOf byte self.now.bytes.now self.now.at at) }
    {
        let behind = first_byte(self.rest(), byte)?;
        Some(self.at + behind)
    }
}

// How many bytes at the front pass the test.
fn run_length<F: Fn(u8) -> bool>(bytes: &[u8], test: F) -> usize
    requires { F.IsAlwaysCallable test }
    ensures { Passed (F.post test) bytes.now 0 result }
{
    bytes.iter().position(|b| !test(*b)).unwrap_or(bytes.len())
}

// The place of the first `byte` of all.
fn first_byte(bytes: &[u8], byte: u8) -> Option<usize>
    ensures { result ≡ position (λ b. b == byte) bytes.now }
{
    bytes.iter().position(|b| *b == byte)
}
