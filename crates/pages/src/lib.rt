// The page medium: which pages it has, and the medium that they make.
#![tactic(auto)]

pub mod page_list;
pub mod pages;
