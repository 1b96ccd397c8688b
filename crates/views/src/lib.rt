// Views of single files, asked for by letter.
#![tactic(auto)]

pub mod view;
pub mod viewing;
