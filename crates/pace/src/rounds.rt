// Rounds of filling and checking.
ghost use Rattle.std.specs.Prelude.{◌≡◌, ◌*◌, ◌≤◌, length, IfSome};
ghost use Rattle.run.specs.Values.{AllInType, WellTyped, SourcesTyped};

use crate::model::{ENTRIES, SIGNALS, STEPS, sources};
use blocks::gates::Gates;
use blocks::library::BlockLibrary;
use blocks::pair::Pair;
use blocks::types::ValueType;
use diagram::rules::Diagram;
use diagram::signals::{Pin, Signal};
use diagram::types::{check_types, types_of};
use numbers::Numbers;
use run::closing::open_at;
use run::filling::fill_run;
use run::making::not_made;
use run::values::outside_type;

// The types of the signals, where all fit them.
fn typing<L: BlockLibrary>(library: &L, d: &Diagram) -> Option<[ValueType; SIGNALS]>
    requires { length d.now.signals.now ≡ 1024 }
    ensures { IfSome result (λ types. WellTyped (L.BlockLibrary.shape library.now) d.now.signals.now d.now.pins.now types) }
{
    let mut types = [ValueType::Truth; SIGNALS];
    types_of(library, d, &mut types).ok()?;
    check_types(library, d, &types).ok()?;
    Some(types)
}

// Whether the filled table is a run of 64 steps with step 1 after the last.
fn is_run<L: BlockLibrary>(library: &L, d: &Diagram, types: &[ValueType], table: &[i16]) -> bool
    requires signals { length d.now.signals.now ≡ 1024 }
    requires types { length types.now ≡ 1024 }
    requires table { length table.now ≡ 65536 }
{
    outside_type(types, table).is_none()
        && not_made(library, d, table).is_none()
        && open_at(d, table, 0, ENTRIES - SIGNALS).is_none()
}

// Fills a table of these sources' values and checks it; what it counts is the last value, and whether it is a run.
fn round<L: BlockLibrary>(
    library: &L,
    d: &Diagram,
    types: &[ValueType],
    table: &[i16; ENTRIES],
) -> i64
    requires signals { length d.now.signals.now ≡ 1024 }
    requires types { length types.now ≡ 1024 }
    requires typed { SourcesTyped (L.BlockLibrary.shape library.now) d.now.signals.now d.now.pins.now table.now (length d.now.signals.now * 64) }
{
    let mut filled = *table;
    fill_run(library, d, STEPS, &mut filled);
    i64::from(filled[ENTRIES - 1]) + i64::from(is_run(library, d, types, &filled))
}

// As many rounds.
fn rounds_of<L: BlockLibrary>(library: &L, d: &Diagram, rounds: u16) -> Option<i64>
    requires { length d.now.signals.now ≡ 1024 }
{
    let types = typing(library, d)?;
    let table = sources();
    if outside_type(&types, &table).is_some() {
        return None;
    }
    let mut sum = 0i64;
    for _ in 0..rounds {
        sum = sum.wrapping_add(round(library, d, &types, &table));
    }
    Some(sum)
}

// As many rounds with the largest diagram over gates and numbers.
pub(crate) fn run(signals: &[Signal; SIGNALS], pins: &[Pin], rounds: u16) -> Option<i64> {
    let library = Pair {
        first: Gates,
        second: Numbers,
    };
    rounds_of(&library, &Diagram::new(signals, pins).ok()?, rounds)
}
