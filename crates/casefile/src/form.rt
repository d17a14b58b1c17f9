// The forms of values: numbers, signals and rows.
ghost use Rattle.std.specs.Prelude.{◌≤◌, IfSome};

use crate::piece::{cut, is_comma, place};
use blocks::types::ValueType;
use sentence::terms::Span;
use text::cursor::Cursor;
use text::name::{is_kind, is_name};
use text::number::{read_magnitude, read_number};

// The number that the text writes, where it is from 1 to `high`.
pub(crate) fn read_count(text: &[u8], high: usize) -> Option<usize>
    ensures { IfSome result (λ n. (1 ≤ n) × (n ≤ high)) }
{
    read_magnitude(text)
        .map(usize::from)
        .filter(|n| (1..=high).contains(n))
}

// What makes a signal, where names and kinds are still stretches of the file.
#[derive(Clone, Copy)]
pub(crate) enum Make {
    Source(ValueType),
    Constant(ValueType, i16),
    Delay { default: Span, input: Span },
    Block { kind: Span, pins: Span },
}

// A signal as its line says it.
#[derive(Clone, Copy)]
pub(crate) struct Draft {
    pub name: Span,
    pub make: Make,
}

impl Default for Draft {
    // A bool source with no name; a derive takes only a variant without fields.
    fn default() -> Draft {
        Draft {
            name: Span::default(),
            make: Make::Source(ValueType::Truth),
        }
    }
}

// A pin as it is written: a name, perhaps behind a `!`.
#[derive(Clone, Copy)]
pub(crate) struct WrittenPin<'a> {
    pub name: &'a [u8],
    pub inverted: bool,
}

impl<'a> From<&'a [u8]> for WrittenPin<'a> {
    ghost use Rattle.casefile.specs.Pins.{Writes};

    ghost from_gives = { λ field pin. Writes field.now pin.inverted pin.name.now };

    fn from(field: &'a [u8]) -> WrittenPin<'a> {
        let bare = field.strip_prefix(b"!".as_slice());
        WrittenPin {
            name: bare.unwrap_or(field),
            inverted: bare.is_some(),
        }
    }
}

fn is_pin(field: &[u8]) -> bool {
    is_name(WrittenPin::from(field).name)
}

// A source has `-` for its pins.
fn source(pins: Cursor, of: ValueType) -> Option<Make> {
    (pins.rest() == b"-".as_slice()).then_some(Make::Source(of))
}

// A constant has its number.
fn constant(pins: Cursor, of: ValueType) -> Option<Make> {
    read_number(pins.rest()).map(|v| Make::Constant(of, v))
}

// A delay has two names.
fn delay(pins: Cursor) -> Option<Make> {
    let (default, input) = cut(pins)?;
    (is_name(default.rest()) && is_name(input.rest())).then_some(Make::Delay {
        default: place(default),
        input: place(input),
    })
}

// A block has a kind and its pins.
fn block(kind: Cursor, pins: Cursor) -> Option<Make> {
    (is_kind(kind.rest()) && pins.rest().split(is_comma).all(is_pin)).then_some(Make::Block {
        kind: place(kind),
        pins: place(pins),
    })
}

// What makes a signal, by the word and the pins of its line.
fn read_make(word: Cursor, pins: Cursor) -> Option<Make> {
    match word.rest() {
        b"bool" => source(pins, ValueType::Truth),
        b"num" => source(pins, ValueType::Num),
        b"cbool" => constant(pins, ValueType::Truth),
        b"cnum" => constant(pins, ValueType::Num),
        b"delay" => delay(pins),
        _ => block(word, pins),
    }
}

// The signal that a value describes, where it has the form of one: name, make and pins.
pub(crate) fn read_signal(value: Cursor) -> Option<Draft> {
    let (name, rest) = cut(value)?;
    let (word, pins) = cut(rest)?;
    let make = read_make(word, pins)?;
    is_name(name.rest()).then_some(Draft {
        name: place(name),
        make,
    })
}

// Reads a row, where the text has the form of one: a number for each entry. None where it has not, as of every form: the
// refusal tells the line, which the caller knows.
pub(crate) fn read_row(text: &[u8], row: &mut [i16]) -> Option<()> {
    let mut fields = text.split(is_comma);
    for entry in row.iter_mut() {
        *entry = read_number(fields.next()?)?;
    }
    fields.next().is_none().then_some(())
}
