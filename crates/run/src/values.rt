// The steps of a run, and the types of its values.
ghost use Rattle.std.specs.Prelude.{ℕ, ◌<◌, ◌≤◌, length, Decides, MatchOption};
ghost use Rattle.blocks.specs.Blocks.{InType};
ghost use Rattle.diagram.specs.Typing.{type_at};
ghost use Rattle.run.specs.Values.{value_at, AllInType, FirstOutside, FirstOutsideAt};
ghost use Rattle.run.specs.Runs.{StepsFit};

use blocks::types::ValueType;
use blocks::values::in_type;
use looping::limits::STEPS;

// Whether the steps are 1 to STEPS, and the loop step is one of them.
pub fn steps_fit(steps: usize, back: usize) -> bool
    ensures { Decides result (StepsFit steps back) }
{
    1 <= back && back <= steps && steps <= STEPS
}

// The lowest signal whose value at one step lies outside its type, where the step may be cut short.
fn outside_at(types: &[ValueType], step: &[i16]) -> Option<usize>
    requires { length step.now ≤ length types.now }
    ensures { MatchOption result ((s : ℕ) → s < length step.now → InType (type_at types.now s) (value_at step.now s)) (λ s. FirstOutsideAt types.now step.now s) }
{
    step.iter().zip(types).position(|(v, t)| !in_type(*t, *v))
}

// The lowest entry whose value lies outside its type, where the types of the signals come in turn.
pub fn outside_type(types: &[ValueType], table: &[i16]) -> Option<usize>
    requires { 0 < length table.now → 0 < length types.now }
    ensures { MatchOption result (AllInType types.now (length types.now) table.now (length table.now)) (λ e. FirstOutside types.now (length types.now) table.now (length table.now) e) }
{
    let n = types.len();
    if n == 0 {
        return None;
    }
    // Step by step: a `cycle` over the types takes up to twice the time.
    for j in 0..table.len() / n + 1 {
        let start = j * n;
        let end = table.len().min(start + n);
        if let Some(s) = outside_at(types, &table[start..end]) {
            return Some(start + s);
        }
    }
    None
}
