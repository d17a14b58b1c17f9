// The truth tables that are asked: `and` of two pins, the majority of three, and the parity of eight.
ghost use Rattle.std.specs.Prelude.{◌≡◌, ◌≤◌};
ghost use Rattle.tables.specs.Rules.{Pinned, Every};

use std::array;
use tables::table::Table;

// The table of that many pins which gives one where this holds of the number of ones in the row.
fn by_ones<F: Fn(u32) -> bool>(pins: u8, output: F) -> Table
    requires pins { pins ≤ 8 }
    requires output { F.IsAlwaysCallable output }
    ensures { result.pins ≡ pins }
{
    Table {
        pins,
        outputs: array::from_fn(|row| row < 1 << pins && output(row.count_ones())),
    }
}

// The tables. Each has one to eight pins.
pub fn sample() -> [Table; 3]
    ensures { Every result Pinned }
{
    [
        by_ones(2, |ones| ones == 2),
        by_ones(3, |ones| ones >= 2),
        by_ones(8, |ones| ones % 2 == 1),
    ]
}
