// Tokens of a property: names, numbers and operators, each a stretch of the file with its place.
ghost use Rattle.std.specs.Prelude.{◌≡◌, ◌<◌, ◌≤◌, ◌==◌, length, IfSome, MatchOption};
ghost use Rattle.text.specs.Runs.{Passed};
ghost use Rattle.sentence.specs.Tokens.{Stretch, letter_of, sign_of, Reads};

use crate::terms::Span;
use text::cursor::Cursor;
use text::name::{is_digit, is_name, is_name_byte};

// The operators, brackets and comparisons.
#[derive(Clone, Copy, PartialEq, Eq)]
pub enum Operator {
    Open,
    Close,
    Not,
    And,
    Or,
    Implies,
    Equal,
    Less,
    Greater,
    Next,
    Finally,
    Globally,
    Until,
}

// The bytes of a token, and the place of the first.
#[derive(Clone, Copy)]
pub struct Word<'a> {
    pub text: &'a [u8],
    pub at: usize,
}

// A token, with its word.
#[derive(Clone, Copy)]
pub enum Token<'a> {
    Name(Word<'a>),
    Number(Word<'a>),
    Operator(Operator, Word<'a>),
}

// The operator that a letter is where it stands alone. It is a function beside `sign` and no `TryFrom`, which could not tell
// where the byte stands.
fn letter(b: u8) -> Option<Operator>
    ensures { result ≡ letter_of b }
{
    match char::from(b) {
        'X' => Some(Operator::Next),
        'F' => Some(Operator::Finally),
        'G' => Some(Operator::Globally),
        'U' => Some(Operator::Until),
        _ => None,
    }
}

// The operator that one byte spells, other than a letter.
fn sign(b: u8) -> Option<Operator>
    ensures { result ≡ sign_of b }
{
    match char::from(b) {
        '(' => Some(Operator::Open),
        ')' => Some(Operator::Close),
        '!' => Some(Operator::Not),
        '&' => Some(Operator::And),
        '|' => Some(Operator::Or),
        '=' => Some(Operator::Equal),
        '<' => Some(Operator::Less),
        '>' => Some(Operator::Greater),
        _ => None,
    }
}

// Past any spaces.
pub(crate) fn skip_spaces(cursor: &mut Cursor)
    ensures text { cursor.new.bytes ≡ cursor.old.bytes }
    ensures blank { Passed (λ b v. v ≡ (b == 32)) cursor.old.bytes.now cursor.old.at cursor.new.at }
{
    cursor.skip_while(|b| b == b' ');
}

impl<'a> Word<'a> {
    // The bytes from one place up to another.
    fn between(start: Cursor<'a>, end: Cursor<'a>) -> Word<'a>
        requires text { start.bytes ≡ end.bytes }
        requires order { start.at ≤ end.at }
        ensures { Stretch start.entry.bytes.now start.entry.at end.entry.at result }
    {
        let text = &start.bytes[start.at..end.at];
        Word { text, at: start.at }
    }

    // The stretch of the file.
    pub(crate) fn span(&self) -> Span
        ensures { (result.start ≡ self.now.at) × (result.length ≡ length self.now.text.now) }
    {
        Span {
            start: self.at,
            length: self.text.len(),
        }
    }

    // What a run of name bytes is: an operator where it is one letter, a number where it begins with a digit, and else a
    // name.
    fn token(self) -> Option<Token<'a>>
        ensures { IfSome result (λ t. Reads self.entry t) }
    {
        match self.text {
            [first, ..] if is_digit(*first) => Some(Token::Number(self)),
            [only] => Some(Token::Operator(letter(*only)?, self)),
            text if is_name(text) => Some(Token::Name(self)),
            _ => None,
        }
    }
}

impl<'a> Token<'a> {
    // The token after any spaces; none at the end, or where no token begins.
    pub(crate) fn next(cursor: &mut Cursor<'a>) -> Option<Token<'a>>
        ensures text { cursor.new.bytes ≡ cursor.old.bytes }
        ensures on { MatchOption result (cursor.old.at ≤ cursor.new.at) (λ _. cursor.old.at < cursor.new.at) }
    {
        skip_spaces(cursor);
        let start = *cursor;
        let first = cursor.bump()?;
        if let Some(operator) = sign(first) {
            return Some(Token::Operator(operator, Word::between(start, *cursor)));
        }
        if first == b'-' && cursor.eat(b'>') {
            return Some(Token::Operator(Operator::Implies, Word::between(start, *cursor)));
        }
        cursor.skip_while(is_name_byte);
        let word = Word::between(start, *cursor);
        if first == b'-' {
            Some(Token::Number(word))
        } else {
            word.token()
        }
    }
}
