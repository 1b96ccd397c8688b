// Parts of a file, tables of records, and one search by window over every table that has boxes.
#![tactic(auto)]

pub mod part;
pub mod parts;
pub mod tables;
