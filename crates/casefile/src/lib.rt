// Case files: their lines, their names, and the record that a file is read into.
#![tactic(auto)]

pub mod cleared;
pub mod fault;
mod form;
mod line;
mod names;
mod piece;
mod pins;
pub mod read;
pub mod record;
