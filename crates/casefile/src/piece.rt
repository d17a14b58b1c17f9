// Pieces of a file. A piece is the file up to the end of the piece, read from its start on, so that places are places of
// the file.
ghost use Rattle.std.specs.Prelude.{◌≡◌, ◌+◌, ◌==◌, length, take, MatchOption, IfSome};
ghost use Rattle.text.specs.Lines.{NoneOf, FirstOf};

use sentence::terms::Span;
use text::cursor::Cursor;

// The byte between fields.
const COMMA: u8 = b',';

pub(crate) fn is_comma(b: &u8) -> bool
    ensures { result ≡ (b.now == 44) }
{
    *b == COMMA
}

// The pieces before and behind the first comma.
pub(crate) fn cut<'a>(piece: Cursor<'a>) -> Option<(Cursor<'a>, Cursor<'a>)>
    ensures comma { MatchOption result (NoneOf 44 piece.entry.bytes.now piece.entry.at)
        (λ p. FirstOf 44 piece.entry.bytes.now piece.entry.at (length p.0.bytes.now)) }
    ensures before { IfSome result (λ p. (p.0.at ≡ piece.entry.at)
        × (p.0.bytes.now ≡ take (length p.0.bytes.now) piece.entry.bytes.now)) }
    ensures behind { IfSome result (λ p. (p.1.at ≡ length p.0.bytes.now + 1)
        × (p.1.bytes.now ≡ piece.entry.bytes.now)) }
{
    let comma = piece.find(COMMA)?;
    let before = Cursor {
        bytes: &piece.bytes[..comma],
        at: piece.at,
    };
    let behind = Cursor {
        bytes: piece.bytes,
        at: comma + 1,
    };
    Some((before, behind))
}

// Where a piece stands.
pub(crate) fn place(piece: Cursor) -> Span
    ensures { (result.start ≡ piece.entry.at) × (result.start + result.length ≡ length piece.entry.bytes.now) }
{
    Span {
        start: piece.at,
        length: piece.bytes.len() - piece.at,
    }
}
