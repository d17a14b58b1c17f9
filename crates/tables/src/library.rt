// Taking tables in, and the library that they make.
ghost use Rattle.std.specs.Prelude.{◌≡◌, MatchOption, option_map};
ghost use Rattle.blocks.specs.declared.types.ValueType.TheVariants.{Truth};
ghost use Rattle.tables.specs.Rules.{Pinned, Plain, Every, FirstWith};
ghost use Rattle.tables.specs.FewPins.{tables_counted};
ghost use Rattle.tables.specs.Tables.{NewAnswer, table_of, takes, table_result, table_shape, table_function};
ghost use Rattle.std.proofs.Common.{rules, arith};

use crate::held::Tables;
use crate::operation::PinnedTable;
use crate::table::{TABLES, Table, TablesFault};
use blocks::library::BlockLibrary;
use blocks::operation::{forces, shape_of, value};
use blocks::types::{LibraryFault, PINS, Shape};

// The first table that has not one to eight pins.
fn first_unpinned(tables: &[Table]) -> Option<usize>
    ensures { MatchOption result (Every tables.now Pinned) (λ k. FirstWith tables.now Pinned k) }
{
    tables.iter().position(|table| !table.is_pinned())
}

// The first table with an output beyond its rows. It and the one above are one chain each: a function for both would only be
// `position` again.
fn first_unplain(tables: &[Table]) -> Option<usize>
    requires { Every tables.now Pinned }
    ensures { MatchOption result (Every tables.now Plain) (λ k. FirstWith tables.now Plain k) }
{
    tables.iter().position(|table| !table.is_plain())
}

// Takes tables in, or says why not.
pub fn take_in(tables: &[Table]) -> Result<Tables, TablesFault>
    ensures { NewAnswer tables.now result }
{
    if tables.len() > TABLES {
        return Err(TablesFault::TooMany);
    }
    if let Some(table) = first_unpinned(tables) {
        return Err(TablesFault::PinCount { table });
    }
    if let Some(table) = first_unplain(tables) {
        return Err(TablesFault::ExtraOutput { table });
    }
    let mut items = [Table::default(); TABLES];
    items[..tables.len()].copy_from_slice(tables);
    Ok(Tables {
        items,
        count: tables.len(),
    })
}

impl Tables {
    // The table of a kind.
    fn table_of(&self, kind: u16) -> Option<PinnedTable>
        ensures { option_map (λ t. t.table) result ≡ table_of self.now kind }
    {
        let table = self.held().get(usize::from(kind)).copied()?;
        Some(PinnedTable { table })
    }
}

impl BlockLibrary for Tables {
    ghost size = { λ t. t.count };

    ghost shape = { λ t k c. table_shape t k c };

    ghost function = { λ t k c row. table_function t k c row };

    ghost sized = { first_of (Prim.search rules, Prim.grind (arith, Self.row.coded.inj)) };

    ghost counted = { tables_counted };

    ghost lawful = { Prim.search rules };

    fn kinds(&self) -> u32 {
        // A cast: `try_from` would need a branch for what cannot be.
        self.held().len() as u32
    }

    fn shape_of(&self, kind: u16, count: u8) -> Result<Shape, LibraryFault> {
        shape_of(self.table_of(kind), count)
    }

    fn value(&self, kind: u16, count: u8, row: [i16; PINS]) -> Result<i16, LibraryFault> {
        value(self.table_of(kind), count, row)
    }

    fn forces(
        &self,
        kind: u16,
        count: u8,
        row: [i16; PINS],
        pins: u8,
    ) -> Result<bool, LibraryFault> {
        forces(self.table_of(kind), count, row, pins)
    }
}
