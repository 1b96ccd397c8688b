// The blank map that the words of a command line ask for.
#![tactic(auto)]

pub mod fault;
pub mod reading;
pub mod settings;
