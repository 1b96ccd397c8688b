// The report on the records of a file, as text.
#![tactic(auto)]

pub mod reports;
