// Where the loop of a run closes.
ghost use Rattle.std.specs.Prelude.{◌≡◌, ℕ, ◌+◌, ◌<◌, ◌≤◌, length, Decides, MatchOption};
ghost use Rattle.diagram.specs.Rules.{signal_at};
ghost use Rattle.run.specs.Making.{Closes, AllClose, FirstOpen};

use diagram::rules::Diagram;
use diagram::signals::Signal;

// Whether the loop closes at signal s, where the entries of the loop step begin at `back`, and those of the last step at
// `last`. These are two numbers and no struct, since a caller has no other use for one.
fn closes(d: &Diagram, s: usize, table: &[i16], back: usize, last: usize) -> bool
    requires signal { s < length d.now.signals.now }
    requires back { back + length d.now.signals.now ≤ length table.now }
    requires last { last + length d.now.signals.now ≤ length table.now }
    ensures { Decides result (Closes table.now back last s (signal_at d.now.signals.now s)) }
{
    match d.signals[s] {
        Signal::Delay { default: _, input } => table[back + s] == table[last + usize::from(input)],
        _ => true,
    }
}

// The lowest signal at which the loop does not close.
pub fn open_at(d: &Diagram, table: &[i16], back: usize, last: usize) -> Option<usize>
    requires back { back + length d.now.signals.now ≤ length table.now }
    requires last { last + length d.now.signals.now ≤ length table.now }
    ensures { MatchOption result (AllClose d.now.signals.now table.now back last) (λ s. FirstOpen d.now.signals.now table.now back last s) }
{
    d.signals
        .iter()
        .enumerate()
        .position(|(s, _)| !closes(d, s, table, back, last))
}
