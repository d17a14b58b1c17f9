// Filling a table from its sources.
ghost use Rattle.std.specs.Prelude.{◌*◌, ◌≤◌, length};
ghost use Rattle.run.specs.Values.{SourcesTyped};
ghost use Rattle.run.specs.Runs.{FilledFrom};

use crate::making::made;
use blocks::library::BlockLibrary;
use diagram::rules::Diagram;

// Sets the entries of all signals but the sources, from the first on, to what the diagram makes.
pub fn fill_run<L: BlockLibrary>(lib: &L, d: &Diagram, steps: usize, table: &mut [i16])
    requires table { length d.now.signals.now * steps ≤ length table.old }
    requires typed { SourcesTyped (L.shape lib.now) d.now.signals.now d.now.pins.now table.old (length d.now.signals.now * steps) }
    ensures { FilledFrom (L.function lib.now) d.now.signals.now d.now.pins.now (length d.now.signals.now * steps) table.old table.new }
{
    // By step and signal: each entry is made from lower ones of the table that it is written to.
    let n = d.signals.len();
    for j in 0..steps {
        let start = j * n;
        for s in 0..n {
            if let Some(v) = made(lib, d, table, start, s) {
                table[start + s] = v;
            }
        }
    }
}
