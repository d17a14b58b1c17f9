// Runs of a diagram: the checks of a table, and filling one from its sources.
// With n signals, signal s at step j, counted from 0, is entry j * n + s.
#![tactic(auto)]

pub mod closing;
pub mod filling;
pub mod laws;
pub mod making;
pub mod values;
