// The answer to a request for the records of a file.
#![tactic(auto)]

pub mod answers;
pub mod unanswered;
