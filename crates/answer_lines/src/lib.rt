// The text of an answer.
#![tactic(auto)]

mod coordinates;
pub mod fault;
pub mod lines;
