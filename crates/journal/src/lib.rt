// A journal: its lines played on a map, each with its answer.
#![tactic(auto)]

pub mod ends;
pub mod fault;
pub mod playing;
