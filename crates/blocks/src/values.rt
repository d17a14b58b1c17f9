// Values of a type, lawful rows, and sets of pins.
ghost use Rattle.std.specs.Prelude.{◌≡◌, ℕ, ◌<◌, ◌≤◌, cond, length, take, pos, Decides, MatchOption, nat_lt, slice_index_or};
ghost use Rattle.blocks.specs.Blocks.{InType, Lawful, Has, in_set, Asked, of_bool, places};
ghost use Rattle.blocks.specs.Filled.{shown_at, filled, FirstFree};
ghost use Rattle.blocks.specs.Uniform.{uniform_shape};

use crate::types::{NUM_HIGH, NUM_LOW, PINS, Shape, ValueType};
use std::array;

// A pin count is a plain number in the questions to a library. So each function below says what it needs of it: a type of
// its own would have to be made at each question.

// Whether `v` is a value of the type.
pub fn in_type(t: ValueType, v: i16) -> bool
    ensures { Decides result (InType t v) }
{
    match t {
        ValueType::Truth => v == 0 || v == 1,
        ValueType::Num => (NUM_LOW..=NUM_HIGH).contains(&v),
    }
}

// Whether each value is one of its pin's type.
fn all_typed(pins: &[ValueType], values: &[i16]) -> bool
    requires { length pins.now ≡ length values.now }
    ensures { Decides result ((k : ℕ) → k < length pins.now → InType (slice_index_or pins.now k ValueType.Truth) (slice_index_or values.now k (pos 0))) }
{
    pins.iter().zip(values).all(|(pin, v)| in_type(*pin, *v))
}

// Whether each value is 0.
fn all_zero(values: &[i16]) -> bool
    ensures { Decides result ((k : ℕ) → k < length values.now → slice_index_or values.now k (pos 0) ≡ pos 0) }
{
    values.iter().all(|v| *v == 0)
}

// Whether the row has a value of its type at each pin of the shape, and 0 beyond.
pub fn is_lawful(shape: Shape, row: [i16; PINS]) -> bool
    ensures { Decides result (Lawful (take shape.count shape.pins) row) }
{
    let count = usize::from(shape.count).min(PINS);
    let (values, padding) = row.split_at(count);
    all_typed(&shape.pins[..count], values) && all_zero(padding)
}

// The shape with `count` pins of one type.
pub fn uniform(pin: ValueType, count: u8, output: ValueType) -> Shape
    requires { count ≤ 8 }
    ensures { result ≡ uniform_shape pin count output }
{
    let mut pins = [ValueType::Truth; PINS];
    pins[..usize::from(count)].fill(pin);
    Shape {
        pins,
        count,
        output,
    }
}

// A truth as a value.
pub fn truth(b: bool) -> i16
    ensures { result ≡ of_bool b }
{
    i16::from(b)
}

// The values at the first `count` places of a row.
pub fn pins_of(row: &[i16; PINS], count: u8) -> &[i16]
    requires { count ≤ 8 }
    ensures { result.now ≡ places count row.now }
{
    &row[..usize::from(count)]
}

// Whether a question about forcing is lawful: the row is, and no pin of the set is beyond the count.
pub fn is_asked(shape: Shape, row: [i16; PINS], pins: u8) -> bool
    requires { shape.count ≤ 8 }
    ensures { Decides result (Asked (take shape.count shape.pins) row pins) }
{
    u16::from(pins) < 1u16 << shape.count && is_lawful(shape, row)
}

// Whether the pin at place `k` is in the set.
pub fn has(pins: u8, k: usize) -> bool
    requires { k < 8 }
    ensures { result ≡ in_set pins k }
{
    (pins >> k) % 2 == 1
}

// The first pin below the count that is not in the set.
pub fn free_pin(count: u8, pins: u8) -> Option<u8>
    requires { count ≤ 8 }
    ensures { MatchOption result ((k : ℕ) → k < count → Has pins k) (λ j. FirstFree count pins j) }
{
    (0..count).find(|k| !has(pins, usize::from(*k)))
}

// What the place `k` of a filled row shows: its own value, or its end at a pin below the count that is not in the set.
fn shown(count: u8, pins: u8, k: usize, own: i16, end: i16) -> i16
    requires { k < 8 }
    ensures { result ≡ cond (nat_lt k count) (shown_at pins k own end) own }
{
    if k < usize::from(count) && !has(pins, k) {
        end
    } else {
        own
    }
}

// The row with each pin below the count that is not in the set at its value in `ends`.
pub fn fill(count: u8, row: [i16; PINS], pins: u8, ends: [i16; PINS]) -> [i16; PINS]
    requires { count ≤ 8 }
    ensures { result ≡ filled count pins row ends }
{
    array::from_fn(|k| shown(count, pins, k, row[k], ends[k]))
}
