// A truth table, and why tables are refused.
ghost use Rattle.std.specs.Prelude.{◌≡◌, ◌^◌, ◌≤◌, Decides};
ghost use Rattle.tables.specs.Rules.{blank, good_pins, Pinned, Plain};

use blocks::types::PINS;

// A library holds at most this many tables.
pub const TABLES: usize = 16;

// A table has at most this many rows.
pub const ROWS: usize = 256;

// A truth table of `pins` bool pins. Each row has one output, at its number: the pin sum of its ones, where
// pin p counts 2^(p-1). The places beyond the rows are `false`.
#[derive(Clone, Copy)]
pub struct Table {
    pub pins: u8,
    pub outputs: [bool; ROWS],
}

// A table without pins and ones.
impl Default for Table {
    ghost is_default = { λ t. t ≡ blank };

    fn default() -> Table {
        Table {
            pins: 0,
            outputs: [false; ROWS],
        }
    }
}

// The number of rows of that many pins.
pub(crate) fn rows(pins: u8) -> usize
    requires { pins ≤ 8 }
    ensures { result ≡ 2 ^ pins }
{
    1 << pins
}

impl Table {
    // Whether the table has one to eight pins.
    pub(crate) fn is_pinned(&self) -> bool
        ensures { result ≡ good_pins self.now }
    {
        (1..=PINS).contains(&usize::from(self.pins))
    }

    // Whether the table has no output beyond its rows.
    pub(crate) fn is_plain(&self) -> bool
        requires { Pinned self.now }
        ensures { Decides result (Plain self.now) }
    {
        self.outputs.iter().skip(rows(self.pins)).all(|on| !*on)
    }
}

// Why tables are refused: there are over 16; a table has not 1 to 8 pins; a table has an output beyond its rows.
#[derive(Clone, Copy, PartialEq, Eq, Debug)]
pub enum TablesFault {
    TooMany,
    PinCount { table: usize },
    ExtraOutput { table: usize },
}
