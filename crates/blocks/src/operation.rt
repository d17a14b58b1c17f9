// Operations on pins of one type, and what a library answers of them.
ghost use Rattle.std.specs.Prelude.{◌≡◌, ℕ, ◌<◌, ◌≤◌, Bool, true, List, replicate, ℤ, pos, Decides, MatchBool, Option, slice_index_or};
ghost use Rattle.blocks.specs.declared.types.ValueType.{ValueType};
ghost use Rattle.blocks.specs.Blocks.{InType, Lawful, Has, Forces, ShapeAnswer, ValueAnswer, ForcesAnswer};
ghost use Rattle.std.proofs.Props.{props};
ghost use Rattle.blocks.specs.Facts.{InType-prop};
ghost use Rattle.blocks.specs.Filled.{filled, FirstFree};
ghost use Rattle.blocks.specs.Uniform.{operation_at, shape_at, function_at};

use crate::types::{LibraryFault, PINS, Shape, ValueType};
use crate::values::{fill, free_pin, is_asked, is_lawful, uniform};

// An operation at a row: it takes that many pins, and the row has a value of their type at each, and 0 beyond.
#[derive(Drop)]
pub struct Block<O: Operation> {
    pub operation: O,
    pub count: u8,
    pub row: [i16; PINS],
    ghost taken: { O.takes operation count ≡ true },
    ghost lawful: { Lawful (replicate count O.PIN) row } by { Prim.hlevel (props, InType-prop) },
}

// Operations whose pins are all of one type.
pub trait Operation: Copy {
    // The pin counts of an operation.
    ghost takes: { Self → ℕ → Bool };

    // The type of every pin.
    ghost PIN: { ValueType };

    const PIN: ValueType;

    // The type of its output.
    ghost output: { Self → ValueType };

    // What it makes of a row.
    ghost function: { Self → ℕ → List ℤ → ℤ };

    // Whether it takes this many pins.
    fn takes_count(self, count: u8) -> bool
        ensures { result ≡ takes self count };

    // The type of its output.
    fn output_type(self) -> ValueType
        ensures { result ≡ output self };

    // Its output.
    fn value(block: &Block<Self>) -> i16
        ensures { result ≡ function block.now.operation block.now.count block.now.row };

    // It takes at most eight pins.
    ghost few: { (o : Self) (c : ℕ) → takes o c ≡ true → c ≤ 8 };

    // The output of a lawful row is lawful.
    ghost lawful: { (o : Self) (c : ℕ) (row : List ℤ) → takes o c ≡ true → Lawful (replicate c PIN) row → InType (output o) (function o c row) };
}

// Operations of which it is told which sets of pins force their output. It is a trait above `Operation`, since the
// impl of a method may call none that is bounded by the method's own trait.
pub trait Forcing: Operation {
    // Whether a set of pins forces its output.
    fn forced(block: &Block<Self>, pins: u8) -> bool
        ensures { Decides result (Forces (replicate block.now.count Self.PIN) (Self.function block.now.operation block.now.count) block.now.row pins) };
}

impl<O: Operation> Block<O> {
    // Whether every pin is in the set.
    pub fn has_all(&self, pins: u8) -> bool
        ensures { MatchBool result ((k : ℕ) → k < self.now.count → Has pins k) ((j : ℕ) × FirstFree self.now.count pins j) }
    {
        free_pin(self.count, pins).is_none()
    }

    // The output with each pin outside the set at its value in `ends`.
    fn value_at(&self, pins: u8, ends: [i16; PINS]) -> i16
        requires { (k : ℕ) → k < self.now.count → InType O.PIN (slice_index_or ends k (pos 0)) }
        ensures { result ≡ O.function self.now.operation self.now.count (filled self.now.count pins self.now.row ends) }
    {
        O::value(&Block {
            operation: self.operation,
            count: self.count,
            row: fill(self.count, self.row, pins, ends),
        })
    }

    // Whether the output is the same with the pins outside the set at these ends and at those.
    pub fn same_at(&self, pins: u8, low: [i16; PINS], high: [i16; PINS]) -> bool
        requires low { (k : ℕ) → k < self.now.count → InType O.PIN (slice_index_or low k (pos 0)) }
        requires high { (k : ℕ) → k < self.now.count → InType O.PIN (slice_index_or high k (pos 0)) }
        ensures { Decides result (O.function self.now.operation self.now.count (filled self.now.count pins self.now.row low) ≡ O.function self.now.operation self.now.count (filled self.now.count pins self.now.row high)) }
    {
        self.value_at(pins, low) == self.value_at(pins, high)
    }
}

// The operation that was found, if it takes the count, or why there is none.
fn taking<O: Operation>(operation: Option<O>, count: u8) -> Result<O, LibraryFault>
    ensures { result ≡ operation_at O.takes operation count }
{
    let operation = operation.ok_or(LibraryFault::UnknownKind)?;
    if operation.takes_count(count) {
        Ok(operation)
    } else {
        Err(LibraryFault::NoSuchCount)
    }
}

// The shape of the block of an operation that was found.
pub fn shape_of<O: Operation>(operation: Option<O>, count: u8) -> Result<Shape, LibraryFault>
    ensures { ShapeAnswer (shape_at O.takes O.PIN O.output operation count) result }
{
    let operation = taking(operation, count)?;
    Ok(uniform(O::PIN, count, operation.output_type()))
}

// Its value of a row.
pub fn value<O: Operation>(
    operation: Option<O>,
    count: u8,
    row: [i16; PINS],
) -> Result<i16, LibraryFault>
    ensures { ValueAnswer (shape_at O.takes O.PIN O.output operation count) (function_at O.function operation count) row result }
{
    let operation = taking(operation, count)?;
    if !is_lawful(uniform(O::PIN, count, operation.output_type()), row) {
        return Err(LibraryFault::Unlawful);
    }
    Ok(O::value(&Block {
        operation,
        count,
        row,
    }))
}

// Whether a set of pins forces its output.
pub fn forces<O: Forcing>(
    operation: Option<O>,
    count: u8,
    row: [i16; PINS],
    pins: u8,
) -> Result<bool, LibraryFault>
    ensures { ForcesAnswer (shape_at O.takes O.PIN O.output operation count) (function_at O.function operation count) row pins result }
{
    let operation = taking(operation, count)?;
    if !is_asked(uniform(O::PIN, count, operation.output_type()), row, pins) {
        return Err(LibraryFault::Unlawful);
    }
    let block = Block {
        operation,
        count,
        row,
    };
    Ok(O::forced(&block, pins))
}
