// Lists of calls on a map, and what holds after any of them.
#![tactic(auto)]

pub mod replaying;
