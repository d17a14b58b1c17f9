// The interface to a library of block kinds.
ghost use Rattle.std.specs.Prelude.{◌≡◌, ℕ, ◌≤◌, List, length, ℤ};
ghost use Rattle.blocks.specs.declared.types.ValueType.{ValueType};
ghost use Rattle.blocks.specs.Blocks.{ShapeOf, shaped, InType, Lawful, KindCount, ShapeAnswer, ValueAnswer, ForcesAnswer};

use crate::types::{LibraryFault, PINS, Shape};

pub trait BlockLibrary {
    // How many kinds there are: they count from 0.
    ghost size: { Self → ℕ };

    // The shape of each kind at each pin count.
    ghost shape: { Self → ℕ → ℕ → ShapeOf };

    // What each kind at each pin count makes of a row.
    ghost function: { Self → ℕ → ℕ → List ℤ → ℤ };

    // The number of kinds.
    fn kinds(&self) -> u32
        ensures { (result ≡ size self.now) × (KindCount (shape self.now) result) };

    // The shape of a block.
    fn shape_of(&self, kind: u16, count: u8) -> Result<Shape, LibraryFault>
        ensures { ShapeAnswer (shape self.now kind count) result };

    // The value of a row.
    fn value(&self, kind: u16, count: u8, row: [i16; PINS]) -> Result<i16, LibraryFault>
        ensures { ValueAnswer (shape self.now kind count) (function self.now kind count) row result };

    // Whether a set of pins forces the output.
    fn forces(&self, kind: u16, count: u8, row: [i16; PINS], pins: u8) -> Result<bool, LibraryFault>
        ensures { ForcesAnswer (shape self.now kind count) (function self.now kind count) row pins result };

    // The known kinds are those below the size, at most 65,536.
    ghost sized: { (s : Self) → KindCount (shape s) (size s) };

    // A block has as many pins as its count says, at most eight.
    ghost counted: { (s : Self) (k c : ℕ) (pins : List ValueType) (out : ValueType) → shape s k c ≡ shaped pins out → (length pins ≡ c) × (c ≤ 8) };

    // The output of a lawful row is lawful.
    ghost lawful: { (s : Self) (k c : ℕ) (pins : List ValueType) (out : ValueType) (row : List ℤ) → shape s k c ≡ shaped pins out → Lawful pins row → InType out (function s k c row) };
}
