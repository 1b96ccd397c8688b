ghost use Rattle.std.specs.Prelude.{◌≡◌, ℕ, ◌+◌, ◌<◌, map};
ghost use Rattle.rings.specs.Edits.{fill};
ghost use Rattle.topology.specs.Renumbered.{renumbered, sides_renumbered, node_renumbered, polygon_renumbered};

use super::rows::change_each;
use super::side::Side;

/// The numbers that change where an arc goes, and what goes with it: the highest number of each kind fills the gap.
#[derive(Clone, Copy)]
pub struct Renumbering {
    /// the unturned side of the arc that goes, and that of the last arc, which takes its number: a map has at most 32768 sides
    pub side: u16,
    pub last_side: u16,
    /// the node that goes, and the last node, which takes its number
    pub node: u32,
    pub last_node: u32,
    /// the polygon that goes, the one that gets its rings, and the last polygon, which takes its number
    pub polygon: u32,
    pub into: u32,
    pub last_polygon: u32,
    /// the lowest sides of the rings of the last arc, unturned and turned
    pub low_unturned: u32,
    pub low_turned: u32,
}

// A number, where one number is put for another.
pub(crate) fn renamed(from: u32, to: u32, k: u32) -> u32
    ensures { result ≡ fill to from k }
{
    if k == from { to } else { k }
}

impl Renumbering {
    // A row whose next side and lowest side have their new numbers.
    fn sides_of(self, row: Side) -> Side
        ensures { result ≡ sides_renumbered self row }
    {
        let unturned = u32::from(self.side);
        let last = u32::from(self.last_side);
        let low = if row.low == self.low_unturned {
            self.low_unturned.min(unturned)
        } else if row.low == self.low_turned {
            self.low_turned.min(unturned + 1)
        } else {
            row.low
        };
        Side {
            next: renamed(last, unturned, renamed(last + 1, unturned + 1, row.next)),
            low,
            ..row
        }
    }
}

// The rows, with the new numbers of sides. Where none has another there is nothing to change.
fn renumber_sides(rows: &mut [Side], numbers: Renumbering)
    ensures { rows.new ≡ map (sides_renumbered numbers) rows.old }
{
    let unturned = u32::from(numbers.side);
    if numbers.side != numbers.last_side
        || numbers.low_unturned > unturned
        || numbers.low_turned > unturned + 1
    {
        change_each(rows, |row| numbers.sides_of(row));
    }
}

// The rows, with the new numbers of nodes.
fn renumber_nodes(rows: &mut [Side], numbers: Renumbering)
    ensures { rows.new ≡ map (node_renumbered numbers) rows.old }
{
    if numbers.node != numbers.last_node {
        change_each(
            rows,
            |row| Side {
                node: renamed(numbers.last_node, numbers.node, row.node),
                ..row
            },
        );
    }
}

// The rows, with the new numbers of polygons.
fn renumber_polygons(rows: &mut [Side], numbers: Renumbering)
    ensures { rows.new ≡ map (polygon_renumbered numbers) rows.old }
{
    if numbers.polygon != numbers.into || numbers.polygon != numbers.last_polygon {
        change_each(
            rows,
            |row| Side {
                polygon: renamed(
                    numbers.last_polygon,
                    numbers.polygon,
                    renamed(numbers.polygon, numbers.into, row.polygon),
                ),
                ..row
            },
        );
    }
}

// The rows under the changed numbers.
pub(crate) fn renumber(rows: &mut [Side], numbers: Renumbering)
    ensures { rows.new ≡ map (renumbered numbers) rows.old }
{
    renumber_sides(rows, numbers);
    renumber_nodes(rows, numbers);
    renumber_polygons(rows, numbers);
}
