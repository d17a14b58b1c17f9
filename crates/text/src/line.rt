// Lines: each ends at a byte 10.
ghost use Rattle.std.specs.Prelude.{◌≡◌, ℕ, ◌<◌, ◌≤◌, length, MatchOption};
ghost use Rattle.text.specs.Lines.{NoneOf, FirstOf, NoneFrom, FirstFrom};

use crate::cursor::Cursor;

// The byte that ends a line.
pub const NEWLINE: u8 = b'\n';

// The place of the first `byte` at `from` or after it.
pub fn find_byte(bytes: &[u8], from: usize, byte: u8) -> Option<usize>
    ensures { MatchOption result (NoneOf byte bytes.now from) (λ at. FirstOf byte bytes.now from at) }
{
    Cursor::new(bytes, from)?.find(byte)
}

// The place of the first byte 10 at `from` or after it.
pub fn line_end(bytes: &[u8], from: usize) -> Option<usize>
    ensures { MatchOption result (NoneFrom bytes.now from) (λ at. FirstFrom bytes.now from at) }
{
    find_byte(bytes, from, NEWLINE)
}
