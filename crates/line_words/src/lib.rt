// Words, and the words of a line.
#![tactic(auto)]

pub mod splitting;
pub mod texts;
