// The tables of a library.
ghost use Rattle.std.specs.Prelude.{◌≡◌, ℕ, ◌<◌, ◌≤◌, take, slice_index_or};
ghost use Rattle.tables.specs.Rules.{absent, Pinned};

use crate::table::{TABLES, Table};

// At most 16 truth tables, each of 1 to 8 pins: kind k is table k.
// An array with a count: a library is a plain value that is copied freely, and a vector is not `Copy`.
#[derive(Clone, Copy)]
pub struct Tables {
    pub(crate) items: [Table; TABLES],
    pub(crate) count: usize,
    ghost few: { count ≤ 16 },
    ghost pinned: { (k : ℕ) → k < count → Pinned (slice_index_or items k absent) },
}

impl Tables {
    // The tables in use.
    pub(crate) fn held(&self) -> &[Table]
        ensures { result.now ≡ take self.now.count self.now.items }
    {
        &self.items[..self.count]
    }
}
