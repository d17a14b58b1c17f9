// Bytes of a case file: a place in them, where a line ends, what is a name or a kind, and which number a text writes.
#![tactic(auto)]

pub mod cursor;
pub mod line;
pub mod name;
pub mod number;
