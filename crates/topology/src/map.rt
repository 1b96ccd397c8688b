ghost use Rattle.std.specs.Prelude.{ℕ, ◌≤◌, take};
ghost use Rattle.topology.specs.Lawfuls.{Lawful};

use super::hand::Hand;
use super::side::Side;
use super::table::Table;
use super::vertex::Vertex;

/// A map of arcs, nodes, rings and polygons over tables that the caller lends. Every map that exists keeps the law.
#[derive(Drop)]
pub struct Map<'a> {
    pub(crate) hand: Hand,
    pub(crate) sides: Table<'a, Side>,
    pub(crate) vertices: Table<'a, Vertex>,
    pub(crate) nodes: usize,
    pub(crate) polygons: usize,
    ghost arcs_few: { sides.used ≤ 32768 },
    ghost vertices_few: { vertices.used ≤ 1048576 },
    ghost law: { Lawful (take sides.used sides.rows.now) (take vertices.used vertices.rows.now) sides.used nodes polygons },
}
