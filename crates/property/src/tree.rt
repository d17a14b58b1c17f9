// Whether a list of nodes is one tree in order.
ghost use Rattle.std.specs.Prelude.{◌≡◌, ℕ, suc, ◌≤◌, length, Decides, MatchOption, ◌==◌, ◌≢◌, slice_index};
ghost use Rattle.property.specs.Numbering.{OneTree, Begins, EachBefore};

use crate::nodes::{NODES, Node};
use arrayvec::ArrayVec;

// Where the side starts whose last node comes just before `end`, if its number says so.
fn start_before(end: usize, side: usize, starts: &[usize]) -> Option<usize>
    requires { end ≤ length starts.now }
    ensures { MatchOption result (suc side ≢ end) (λ s. (suc side ≡ end) × (s ≡ slice_index starts.now side)) }
{
    if end == 0 || side != end - 1 {
        return None;
    }
    Some(starts[side])
}

// Where the tree starts whose last node comes after those with these starts, if its sides end just before it.
fn start_of(node: Node<u16>, starts: &[usize]) -> Option<usize>
    requires { EachBefore starts.now }
    ensures { MatchOption result ((s : ℕ) → Begins starts.now node s → ⊥) (λ s. Begins starts.now node s) }
{
    let f = starts.len();
    match node {
        Node::Atom(_) => Some(f),
        Node::One(_, side) => start_before(f, side, starts),
        Node::Two(_, left, right) => {
            let middle = start_before(f, right, starts)?;
            start_before(middle, left, starts)
        }
    }
}

// Where the tree starts whose last node is the last of all, if there are 1 to 64 nodes and each is the last of a tree.
fn root_start(nodes: &[Node<u16>]) -> Option<usize>
    ensures { MatchOption result (OneTree nodes.now → ⊥) (λ s. Decides (s == 0) (OneTree nodes.now)) }
{
    let mut starts = ArrayVec::<usize, NODES>::new();
    for node in nodes {
        let start = start_of(*node, starts.as_slice())?;
        starts.try_push(start).ok()?;
    }
    starts.last().copied()
}

// Whether the nodes are 1 to 64 and one tree in order: left side first, then the right side, then the node, at every node.
pub fn one_tree(nodes: &[Node<u16>]) -> bool
    ensures { Decides result (OneTree nodes.now) }
{
    root_start(nodes).is_some_and(|start| start == 0)
}
