// Where bytes lie: a medium is a fixed number of bytes, read and written by runs. A block of memory is one.
#![tactic(auto)]

pub mod block;
pub mod medium;
pub mod runs;
