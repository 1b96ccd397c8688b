// A line of a journal, read into a call.
#![tactic(auto)]

pub mod expected;
pub mod fault;
pub mod reading;
mod vertices;
