// The editions of the format: their sizes, and numbers as they store them.
#![tactic(auto)]

pub mod edition;
