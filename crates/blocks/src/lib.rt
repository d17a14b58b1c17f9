// Block libraries: the interface, its values and rows, the logic gates, and the pair of two libraries.
#![tactic(auto)]

pub mod gates;
pub mod laws;
pub mod library;
pub mod named;
pub mod operation;
pub mod pair;
pub mod types;
pub mod values;
