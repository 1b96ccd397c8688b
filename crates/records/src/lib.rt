// The records of one file, by kind: where each lies, its list and its box.
#![tactic(auto)]

pub mod record_kinds;
pub mod record_tables;
pub mod records;
pub mod shape;
