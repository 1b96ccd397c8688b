// A map of arcs, nodes, rings and polygons, whose type carries its law.
#![tactic(auto)]

pub mod arc_side;
mod dissolves;
mod dividing;
mod divisions;
pub mod hand;
mod islands;
mod joins;
mod lifts;
pub mod map;
pub mod merging;
pub mod questions;
pub mod renumbering;
mod rows;
mod runs;
pub mod side;
mod splits;
pub mod starts;
pub mod table;
mod tables;
pub mod vertex;
mod walks;
