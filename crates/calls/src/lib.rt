// A call on a map, and the one function that plays it.
#![tactic(auto)]

pub mod answer;
pub mod call;
pub mod playing;
