ghost use Rattle.std.specs.Prelude.{◌≡◌, length};
ghost use Rattle.topology.specs.States.{state_of, blank};

use super::hand::Hand;
use super::map::Map;
use super::side::Side;
use super::table::Table;
use super::vertex::Vertex;

impl<'a> Map<'a> {
    /// A blank map over the lent tables: no arcs, and one polygon, 0.
    pub fn start(hand: Hand, sides: &'a mut [Side], vertices: &'a mut [Vertex]) -> Map<'a>
        ensures state { state_of result ≡ blank hand (length sides.old) (length vertices.old) }
        ensures sides { (result.sides.rows.now ≡ sides.old) × (result.sides.rows.ghost_name ≡ sides.entry.ghost_name) }
        ensures vertices { (result.vertices.rows.now ≡ vertices.old) × (result.vertices.rows.ghost_name ≡ vertices.entry.ghost_name) }
    {
        Map {
            hand,
            sides: Table {
                rows: sides,
                used: 0,
            },
            vertices: Table {
                rows: vertices,
                used: 0,
            },
            nodes: 0,
            polygons: 1,
        }
    }
}
