// A library of logic gates.
ghost use Rattle.std.specs.Prelude.{◌≡◌, ◌%◌, ◌==◌, count_by, length};
ghost use Rattle.std.specs.List.{list_all, list_any};
ghost use Rattle.blocks.specs.Gates.{gates, gate_named, gate_of, is_one, takes, gate_result, gate_shape, gate_function};
ghost use Rattle.blocks.specs.declared.types.ValueType.TheVariants.{Truth};
ghost use Rattle.blocks.specs.Uniformly.{sized_by, counted_by};
ghost use Rattle.blocks.specs.Gated.{takes_few};
ghost use Rattle.std.proofs.Common.{rules};

use crate::library::BlockLibrary;
use crate::named::{NamedLibrary, kind_named};
use crate::operation::{self, Block, Forcing, Operation};
use crate::types::{LibraryFault, PINS, Shape, ValueType};
use crate::values::{pins_of, truth};

// The gates, in the order of their kind numbers.
#[derive(Clone, Copy, Debug, PartialEq, Eq)]
pub enum Gate {
    And,
    Or,
    Xor,
    Not,
    Pass,
}

const GATES: [Gate; 5] = [Gate::And, Gate::Or, Gate::Xor, Gate::Not, Gate::Pass];

// Their names, in the same order; apart from the gates, since a name is sought in a list of names.
const NAMES: [&[u8]; 5] = [b"and", b"or", b"xor", b"not", b"pass"];

// The gate of a kind: one call of the library, as in crate `numbers`.
fn gate_of(kind: u16) -> Option<Gate>
    ensures { result ≡ gate_of kind }
{
    GATES.get(usize::from(kind)).copied()
}

// Whether all pins are one.
fn all_one(pins: &[i16]) -> bool
    ensures { result ≡ list_all is_one pins.now }
{
    pins.iter().all(|v| *v == 1)
}

// Whether some pin is one.
fn any_one(pins: &[i16]) -> bool
    ensures { result ≡ list_any is_one pins.now }
{
    pins.iter().any(|v| *v == 1)
}

// Whether an odd number of pins is one.
fn odd_ones(pins: &[i16]) -> bool
    ensures { result ≡ count_by is_one pins.now % 2 == 1 }
{
    pins.iter().filter(|v| **v == 1).count() % 2 == 1
}

impl Operation for Gate {
    ghost takes = { takes };

    ghost PIN = { Truth };

    const PIN: ValueType = ValueType::Truth;

    ghost output = { λ _. Truth };

    ghost function = { gate_result };

    ghost few = { takes_few };

    ghost lawful = { Prim.search rules };

    fn takes_count(self, count: u8) -> bool {
        match self {
            Gate::And | Gate::Or | Gate::Xor => 2 <= count && count <= 8,
            Gate::Not | Gate::Pass => count == 1,
        }
    }

    fn output_type(self) -> ValueType {
        ValueType::Truth
    }

    fn value(block: &Block<Gate>) -> i16 {
        let pins = pins_of(&block.row, block.count);
        truth(match block.operation {
            Gate::And => all_one(pins),
            Gate::Or => any_one(pins),
            Gate::Xor => odd_ones(pins),
            Gate::Not => block.row[0] != 1,
            Gate::Pass => block.row[0] == 1,
        })
    }
}

impl Forcing for Gate {
    // `xor` needs all its pins; another gate's output is the same with the pins outside the set all at zero
    // and all at one.
    fn forced(block: &Block<Gate>, pins: u8) -> bool {
        match block.operation {
            Gate::Xor => block.has_all(pins),
            Gate::And | Gate::Or | Gate::Not | Gate::Pass => block.same_at(
                pins, [0; PINS], [1; PINS],
            ),
        }
    }
}

// Logic gates: `and`, `or`, `xor`, `not`, `pass`.
#[derive(Clone, Copy)]
pub struct Gates;

impl BlockLibrary for Gates {
    ghost size = { λ _. 5 };

    ghost shape = { λ _ k c. gate_shape k c };

    ghost function = { λ _ k c row. gate_function k c row };

    ghost sized = { λ _. sized_by takes Truth (λ _. Truth) gate_result gates (Prim.search rules) };

    ghost counted = { λ s k c pins out e. counted_by takes Truth (λ _. Truth) gate_result takes_few (gate_of k) c pins out e };

    ghost lawful = { Prim.search rules };

    fn kinds(&self) -> u32 {
        // A cast: `try_from` would need a branch for what cannot be.
        GATES.len() as u32
    }

    fn shape_of(&self, kind: u16, count: u8) -> Result<Shape, LibraryFault> {
        operation::shape_of(gate_of(kind), count)
    }

    fn value(&self, kind: u16, count: u8, row: [i16; PINS]) -> Result<i16, LibraryFault> {
        operation::value(gate_of(kind), count, row)
    }

    fn forces(
        &self,
        kind: u16,
        count: u8,
        row: [i16; PINS],
        pins: u8,
    ) -> Result<bool, LibraryFault> {
        operation::forces(gate_of(kind), count, row, pins)
    }
}

impl NamedLibrary for Gates {
    ghost named = { λ _ name. gate_named name };

    ghost known = { Prim.search rules };

    fn find(&self, name: &[u8]) -> Option<u16> {
        kind_named(&NAMES, name)
    }
}
