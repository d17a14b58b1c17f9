// What a table makes of a row, and which sets of pins force that.
ghost use Rattle.std.specs.Prelude.{◌≡◌, ◌^◌, ◌<◌, ◌≤◌, false, Decides, slice_index_or};
ghost use Rattle.blocks.specs.declared.types.ValueType.TheVariants.{Truth};
ghost use Rattle.tables.specs.Rules.{Pinned};
ghost use Rattle.tables.specs.Tables.{takes, number_of_row, table_result, Alike};
ghost use Rattle.tables.specs.FewPins.{pinned_few};
ghost use Rattle.std.proofs.Common.{rules};

use crate::table::{Table, rows};
use blocks::operation::{Block, Forcing, Operation};
use blocks::types::{PINS, ValueType};
use blocks::values::truth;

// The number of a row: the pin sum of its ones.
fn row_number(count: u8, row: &[i16; PINS]) -> usize
    requires { count ≤ 8 }
    ensures { (result ≡ number_of_row count row.now) × (result < 2 ^ count) }
{
    let mut number = 0;
    for (k, v) in row[..usize::from(count)].iter().enumerate() {
        if *v == 1 {
            number += 1 << k;
        }
    }
    number
}

// The functions below take plain numbers, a pin count, a set of pins and two rows by their numbers: a struct of them would be
// made anew for each pair of rows.

// Whether two rows, by their numbers, agree on a set of pins. A loop over small numbers: a chain, or a function for one pin,
// takes up to twice the time.
fn alike(count: u8, pins: u8, number: usize, other: usize) -> bool
    requires { count ≤ 8 }
    ensures { Decides result (Alike count pins number other) }
{
    for k in 0..count {
        if (pins >> k) % 2 == 1 && (number >> k) % 2 != (other >> k) % 2 {
            return false;
        }
    }
    true
}

// Whether a table has the same output at two rows, by their numbers, or they do not agree on a set of pins.
fn is_same(table: &Table, count: u8, pins: u8, number: usize, other: usize) -> bool
    requires count { count ≤ 8 }
    requires number { number < 256 }
    requires other { other < 256 }
    ensures { Decides result (Alike count pins number other → slice_index_or table.now.outputs other false ≡ slice_index_or table.now.outputs number false) }
{
    table.outputs[other] == table.outputs[number] || !alike(count, pins, number, other)
}

// A table with one to eight pins: every operation takes at most eight, and a table alone need not.
#[derive(Clone, Copy)]
pub(crate) struct PinnedTable {
    pub(crate) table: Table,
    ghost pinned: { Pinned table },
}

impl Operation for PinnedTable {
    ghost takes = { λ t. takes t.table };

    ghost PIN = { Truth };

    const PIN: ValueType = ValueType::Truth;

    ghost output = { λ _. Truth };

    ghost function = { λ t. table_result t.table };

    ghost few = { λ t. pinned_few t.table t.pinned };

    ghost lawful = { Prim.search rules };

    fn takes_count(self, count: u8) -> bool {
        count == self.table.pins
    }

    fn output_type(self) -> ValueType {
        ValueType::Truth
    }

    fn value(block: &Block<PinnedTable>) -> i16 {
        truth(block.operation.table.outputs[row_number(block.count, &block.row)])
    }
}

impl Forcing for PinnedTable {
    // Every row that agrees on the set has the same output.
    fn forced(block: &Block<PinnedTable>, pins: u8) -> bool {
        let number = row_number(block.count, &block.row);
        (0..rows(block.count)).all(|other| is_same(
            &block.operation.table,
            block.count,
            pins,
            number,
            other,
        ))
    }
}
