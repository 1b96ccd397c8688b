// The header that every file begins with.
#![tactic(auto)]

pub mod header;
pub mod heads;
