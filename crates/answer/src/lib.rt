// What `why` answers to a case file: a verdict, or a refusal.
#![tactic(auto)]

pub mod outcome;
pub mod refusal;
pub mod verdict;
