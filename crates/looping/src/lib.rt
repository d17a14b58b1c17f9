// Truth over a looping run: what it depends on, and how it is filled in, column by column.
// A column has one truth a step, step i at place i - 1. A run has `steps` steps, and after the last comes step `back`.
#![tactic(auto)]

ghost use Rattle.std.specs.Prelude.{◌≡◌, ℕ, suc, ◌-◌, ◌<◌, ◌≤◌, length, Decides, MatchOption, Bool, false, slice_index_or};
ghost use Rattle.looping.specs.Words.{after, visits, visit, Loops, Within};
ghost use Rattle.looping.specs.Columns.{at, On, Kept};
ghost use Rattle.looping.specs.Sweeps.{Passed, PassedTwice};
ghost use Rattle.looping.specs.Laws.{Visits, Means1, Means2};

pub mod limits;

// The truth of a tree at a step looks only at the visits from that step.
pub fn visits_suffice()
    ensures { Visits }
{}

// The operators before one side.
#[derive(Clone, Copy)]
pub enum Unary {
    Not,
    Next,
    Finally,
    Globally,
}

// The operators between two sides.
#[derive(Clone, Copy)]
pub enum Binary {
    And,
    Or,
    Implies,
    Until,
}

// How long a run is, and the one of its steps that comes after the last.
#[derive(Clone, Copy)]
pub struct Lasso {
    pub steps: usize,
    pub back: usize,
    ghost loops: { Loops steps back },
}

// The step that comes after a step. It asks nothing of the two numbers of a run, so it takes no `Lasso`.
pub fn step_after(step: usize, steps: usize, back: usize) -> usize
    ensures { result ≡ after steps back step }
{
    if step < steps { step + 1 } else { back }
}

impl Lasso {
    // The run of so many steps that goes on at step `back`, if that is one of its steps.
    pub fn new(steps: usize, back: usize) -> Option<Lasso>
        ensures { MatchOption result (Loops steps back → ⊥) (λ r. (r.steps ≡ steps) × (r.back ≡ back)) }
    {
        if back == 0 || back > steps {
            return None;
        }
        Some(Lasso { steps, back })
    }

    // How many visits there are from a step: the steps from it to the last, and then those from `back` to just before it.
    pub fn visit_count(self, step: usize) -> usize
        requires { Within self.steps step }
        ensures { result ≡ visits self.steps self.back step }
    {
        (self.steps - step + 1) + step.saturating_sub(self.back)
    }

    // The step that is visit n from a step, where visits count from 0.
    pub fn visit_step(self, step: usize, n: usize) -> usize
        requires { (Within self.steps step) × (n < visits self.steps self.back step) }
        ensures { result ≡ visit self.steps self.back step n }
    {
        let before_last = self.steps - step;
        if n <= before_last {
            step + n
        } else {
            self.back + (n - before_last - 1)
        }
    }

    // The truths of an operator before one side, from those of the side.
    pub fn one(self, op: Unary, child: &[bool], truths: &mut [bool])
        requires { (self.steps ≤ length child.now) × (self.steps ≤ length truths.old) }
        ensures means { (i : ℕ) → Within self.steps i → Decides (at truths.new i) (Means1 op self.steps self.back (On (at child.now)) i) }
        ensures kept { Kept self.steps truths.old truths.new }
    {
        let run = &mut truths[..self.steps];
        match op {
            Unary::Not => each_step(|i| !child[i], run),
            Unary::Next => each_step(|i| child[step_after(i + 1, self.steps, self.back) - 1], run),
            Unary::Finally => pass_twice(|i, carried| child[i] | carried, false, self.back, run),
            Unary::Globally => pass_twice(|i, carried| child[i] & carried, true, self.back, run),
        }
    }

    // The truths of an operator between two sides, from those of the sides. They are `&` and `|`, which look at both sides
    // always, so that no step waits for a branch.
    pub fn two(self, op: Binary, left: &[bool], right: &[bool], truths: &mut [bool])
        requires { (self.steps ≤ length left.now) × ((self.steps ≤ length right.now) × (self.steps ≤ length truths.old)) }
        ensures means { (i : ℕ) → Within self.steps i → Decides (at truths.new i) (Means2 op self.steps self.back (On (at left.now)) (On (at right.now)) i) }
        ensures kept { Kept self.steps truths.old truths.new }
    {
        let run = &mut truths[..self.steps];
        match op {
            Binary::And => each_step(|i| left[i] & right[i], run),
            Binary::Or => each_step(|i| left[i] | right[i], run),
            Binary::Implies => each_step(|i| !left[i] | right[i], run),
            Binary::Until => pass_twice(
                |i, carried| right[i] | (left[i] & carried),
                false,
                self.back,
                run,
            ),
        }
    }
}

// Writes at each place what `truth` says of it.
fn each_step<F: Fn(usize) -> bool>(truth: F, truths: &mut [bool])
    requires { (i : ℕ) → i < length truths.old → F.pre truth i }
    ensures { (i : ℕ) → i < length truths.old → F.post truth i (slice_index_or truths.new i false) }
{
    for (i, it) in truths.iter_mut().enumerate() {
        *it = truth(i);
    }
}

// One pass from the last place down, which starts from `last`: `turn` says what a place makes of the truth carried to it.
fn pass<F: Fn(usize, bool) -> bool>(turn: F, last: bool, truths: &mut [bool])
    requires { (i : ℕ) (x : Bool) → i < length truths.old → F.pre turn i x }
    ensures { Passed (λ i x y. F.post turn i x y) last truths.new }
{
    let mut carried = last;
    // By index: a proof learns nothing of what a loop over `iter_mut().enumerate().rev()` writes.
    for i in (0..truths.len()).rev() {
        carried = turn(i, carried);
        truths[i] = carried;
    }
}

// Two passes: the first finds the truth at step `back`, and the second starts from it.
fn pass_twice<F: Fn(usize, bool) -> bool>(turn: F, first: bool, back: usize, truths: &mut [bool])
    requires turns { (i : ℕ) (x : Bool) → i < length truths.old → F.pre turn i x }
    requires loops { Loops (length truths.old) back }
    ensures { PassedTwice (λ i x y. F.post turn i x y) first back truths.new }
{
    pass(&turn, first, truths);
    let last = truths[back - 1];
    pass(&turn, last, truths);
}
