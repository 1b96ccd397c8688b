// The versions that a header tells, and how a file of each is laid out.
#![tactic(auto)]

pub mod version;
pub mod versions;
