// The truths of a property's nodes at each step of a looping run.
// With n signals, m nodes and l steps, signal s at step j is entry (j - 1) * n + s of the table, and node f at step j is entry
// n * l + (j - 1) * m + f. After step l comes step `back`.
ghost use Rattle.std.specs.Prelude.{◌≡◌, ℕ, ◌+◌, ◌*◌, ◌<◌, ◌≤◌, List, length, Decides, MatchOption};
ghost use Rattle.looping.specs.Limits.{step_limit};
ghost use Rattle.looping.specs.Columns.{at};
ghost use Rattle.looping.specs.Words.{Within};
ghost use Rattle.property.specs.Meaning.{value, signal_of, holds, Fitting, Filled, LowestWrong};
ghost use Rattle.property.specs.ByNode.{spot, Means, Inside, Known, Shows, ShowsAt, FirstWrong, FirstWrongAt};

use crate::nodes::{Atom, NODES, Node};
use arrayvec::ArrayVec;
use looping::Lasso;
use looping::limits::STEPS;

// The truths of a node, one a step.
type Column = [bool; STEPS];

// How many signals a table has, and how its run loops.
#[derive(Clone, Copy)]
struct Layout {
    signals: usize,
    lasso: Lasso,
    ghost steps: { lasso.steps ≤ step_limit },
}

impl Layout {
    // Where an atom holds.
    fn read_atom(self, atom: Atom<u16>, table: &[i16]) -> Column
        requires { (signal_of atom < self.signals) × (self.lasso.steps * self.signals ≤ length table.now) }
        ensures { (j : ℕ) → Within self.lasso.steps j → at result j ≡ holds self.signals table.now atom j }
    {
        let signal = usize::from(atom.signal());
        let mut column = [false; STEPS];
        for (i, it) in column[..self.lasso.steps].iter_mut().enumerate() {
            *it = atom.holds_at(table[i * self.signals + signal]);
        }
        column
    }

    // The truths of a node, from those of its sides.
    fn node_column(self, node: Node<u16>, table: &[i16], columns: &[Column]) -> Column
        requires { (Inside self.signals (length columns.now) node) × (self.lasso.steps * self.signals ≤ length table.now) }
        ensures { (j : ℕ) → Within self.lasso.steps j → Decides (at result j) (Means (holds self.signals table.now) self.lasso.steps self.lasso.back node (spot columns.now) j) }
    {
        let mut column = [false; STEPS];
        match node {
            Node::Atom(atom) => column = self.read_atom(atom, table),
            Node::One(op, side) => self.lasso.one(op, &columns[side], &mut column),
            Node::Two(op, left, right) => {
                self.lasso
                    .two(op, &columns[left], &columns[right], &mut column);
            }
        }
        column
    }

    // The truths of all nodes.
    fn columns(self, nodes: &[Node<u16>], table: &[i16]) -> ArrayVec<Column, NODES>
        requires { Fitting nodes.now self.signals self.lasso.steps self.lasso.back table.now }
        ensures long { length result.items ≡ length nodes.now }
        ensures known { Known nodes.now self.signals self.lasso.steps self.lasso.back table.now result.items }
    {
        let mut columns = ArrayVec::<Column, NODES>::new();
        for node in nodes {
            let column = self.node_column(*node, table, columns.as_slice());
            columns.push(column);
        }
        columns
    }
}

// What stands for node f at one step, which is at place `j` of the columns.
fn truth_at(columns: &[Column], f: usize, j: usize) -> i16
    requires { (f < length columns.now) × (j < step_limit) }
    ensures { ShowsAt columns.now f j result }
{
    i16::from(columns[f][j])
}

// Writes the truths at one step, which is at place `j` of the columns.
fn write_step(columns: &[Column], j: usize, step: &mut [i16])
    requires { (j < step_limit) × (length step.old ≡ length columns.now) }
    ensures { (f : ℕ) → f < length columns.now → ShowsAt columns.now f j (value step.new f) }
{
    for (f, it) in step.iter_mut().enumerate() {
        *it = truth_at(columns, f, j);
    }
}

// Writes the truths of so many steps, step by step: finding node and step of each place by a division would cost more than
// all else.
fn write_truths(columns: &[Column], steps: usize, places: &mut [i16])
    requires { (steps ≤ step_limit) × (length places.old ≡ steps * length columns.now) }
    ensures { (p : ℕ) → p < length places.old → Shows columns.now p (value places.new p) }
{
    let m = columns.len();
    for j in 0..steps {
        write_step(columns, j, &mut places[j * m..j * m + m]);
    }
}

// The first node that has not its truth at one step, which is at place `j` of the columns.
fn wrong_at(columns: &[Column], j: usize, step: &[i16]) -> Option<usize>
    requires { (j < step_limit) × (length step.now ≡ length columns.now) }
    ensures { MatchOption result ((f : ℕ) → f < length columns.now → ShowsAt columns.now f j (value step.now f)) (λ f. FirstWrongAt columns.now j step.now f) }
{
    step.iter()
        .enumerate()
        .position(|(f, it)| *it != truth_at(columns, f, j))
}

// The first place, of so many steps, that has not its truth.
fn first_wrong(columns: &[Column], steps: usize, places: &[i16]) -> Option<usize>
    requires { (steps ≤ step_limit) × (length places.now ≡ steps * length columns.now) }
    ensures { MatchOption result ((p : ℕ) → p < length places.now → Shows columns.now p (value places.now p)) (λ p. FirstWrong columns.now places.now p) }
{
    let m = columns.len();
    for j in 0..steps {
        if let Some(f) = wrong_at(columns, j, &places[j * m..j * m + m]) {
            return Some(j * m + f);
        }
    }
    None
}

// Fills in the truth of each node at each step: 1 where the node's tree holds over the infinite run, at every position that
// shows the step, and 0 elsewhere. The values of the signals are kept.
pub fn fill(nodes: &[Node<u16>], signals: usize, lasso: Lasso, table: &mut [i16])
    requires { Fitting nodes.now signals lasso.steps lasso.back table.old }
    ensures filled { Filled nodes.now signals lasso.steps lasso.back table.new }
    ensures kept { (e : ℕ) → e < signals * lasso.steps → value table.new e ≡ value table.old e }
{
    let columns = Layout { signals, lasso }.columns(nodes, table);
    let start = signals * lasso.steps;
    write_truths(columns.as_slice(), lasso.steps, &mut table[start..]);
}

// The lowest of the nodes' entries whose value is not the truth that `fill` writes there, or none.
pub fn check_truths(
    nodes: &[Node<u16>],
    signals: usize,
    lasso: Lasso,
    table: &[i16],
) -> Option<usize>
    requires { Fitting nodes.now signals lasso.steps lasso.back table.now }
    ensures { MatchOption result (Filled nodes.now signals lasso.steps lasso.back table.now) (λ e. LowestWrong nodes.now signals lasso.steps lasso.back table.now e) }
{
    let columns = Layout { signals, lasso }.columns(nodes, table);
    let start = signals * lasso.steps;
    let p = first_wrong(columns.as_slice(), lasso.steps, &table[start..])?;
    Some(start + p)
}
