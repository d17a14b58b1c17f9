// A library of given truth tables.
#![tactic(auto)]

pub mod held;
pub mod library;
pub mod operation;
pub mod table;
