// The text of a property: its tokens, its grammar, and the terms that it is read into.
#![tactic(auto)]

pub mod grammar;
pub mod terms;
mod token;
