// Calls on a case: its checks, and its opening.
#![tactic(auto)]

pub mod check;
pub mod open;

use diagram::rules::Diagram;
use property::nodes::Node;

// A case: a library, a diagram, the nodes of a property, the steps of a run and the loop step. Any may be handed in.
#[derive_where(Clone, Copy)]
pub struct Case<'c, L> {
    pub library: &'c L,
    pub diagram: &'c Diagram<'c, 'c>,
    pub nodes: &'c [Node<u16>],
    pub steps: usize,
    pub back: usize,
}
