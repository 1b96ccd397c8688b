// The kinds of file, and the sizes of what each of them holds.
#![tactic(auto)]

pub mod kind;
pub mod kind_sizes;
pub mod letters;
pub mod sizes;
