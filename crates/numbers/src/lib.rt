// A library of blocks on numbers: `sum`, `max`, `min`, `mean`, `ge`, `eq`.
#![tactic(auto)]

ghost use Rattle.std.specs.Prelude.{◌≡◌};
ghost use Rattle.numbers.specs.Numbers.{operations, operation_of, number_named, takes, output_type, number_result, number_shape, number_function};
ghost use Rattle.blocks.specs.declared.types.ValueType.TheVariants.{Num};
ghost use Rattle.blocks.specs.Uniformly.{sized_by, counted_by, lawful_by};
ghost use Rattle.numbers.specs.Outputs.{takes_few, output_lawful};
ghost use Rattle.std.proofs.Common.{rules};

pub mod laws;
pub mod operation;
mod sums;

pub use crate::operation::Operation;
use crate::operation::{NAMES, OPERATIONS};
use blocks::library::BlockLibrary;
use blocks::named::{NamedLibrary, kind_named};
use blocks::operation::{forces, shape_of, value};
use blocks::types::{LibraryFault, PINS, Shape};

// The operation of a kind.
fn operation_of(kind: u16) -> Option<Operation>
    ensures { result ≡ operation_of kind }
{
    OPERATIONS.get(usize::from(kind)).copied()
}

// Blocks on numbers: `sum`, `max`, `min`, `mean`, `ge`, `eq`.
#[derive(Clone, Copy)]
pub struct Numbers;

impl BlockLibrary for Numbers {
    ghost size = { λ _. 6 };

    ghost shape = { λ _ k c. number_shape k c };

    ghost function = { λ _ k c row. number_function k c row };

    ghost sized = { λ _. sized_by takes Num output_type number_result operations (Prim.search rules) };

    ghost counted = { λ s k c pins out e. counted_by takes Num output_type number_result takes_few (operation_of k) c pins out e };

    ghost lawful = { λ s k c pins out row e good. lawful_by takes Num output_type number_result output_lawful (operation_of k) c pins out row e good };

    fn kinds(&self) -> u32 {
        // A cast: `try_from` would need a branch for what cannot be.
        OPERATIONS.len() as u32
    }

    fn shape_of(&self, kind: u16, count: u8) -> Result<Shape, LibraryFault> {
        shape_of(operation_of(kind), count)
    }

    fn value(&self, kind: u16, count: u8, row: [i16; PINS]) -> Result<i16, LibraryFault> {
        value(operation_of(kind), count, row)
    }

    fn forces(
        &self,
        kind: u16,
        count: u8,
        row: [i16; PINS],
        pins: u8,
    ) -> Result<bool, LibraryFault> {
        forces(operation_of(kind), count, row, pins)
    }
}

impl NamedLibrary for Numbers {
    ghost named = { λ _ name. number_named name };

    ghost known = { Prim.search rules };

    fn find(&self, name: &[u8]) -> Option<u16> {
        kind_named(&NAMES, name)
    }
}
