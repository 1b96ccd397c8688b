// Doubles as files store them, and boxes.
#![tactic(auto)]

pub mod bounds;
pub mod boxes;
pub mod doubles;
pub mod edges;
pub mod wording;
