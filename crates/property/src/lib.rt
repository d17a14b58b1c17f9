// Properties of looping runs: a property is a tree of nodes, and each node has a truth at each step.
#![tactic(auto)]

pub mod laws;
pub mod nodes;
pub mod tree;
pub mod truth;

pub use tree::one_tree;
pub use truth::{check_truths, fill};
