// Diagrams: their rules, and the types of their signals.
#![tactic(auto)]

pub mod fault;
pub mod rules;
pub mod signals;
pub mod types;
