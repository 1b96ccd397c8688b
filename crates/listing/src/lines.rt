// The lines of a listing.
ghost use Rattle.std.specs.Prelude.{◌≡◌, ◌<◌, ◌≤◌, length};
ghost use Rattle.listing.specs.Puts.{Puts, ring_at, step};
ghost use Rattle.topology.specs.Rows.{next_of, tells};
ghost use Rattle.topology.specs.States.{state_of};
ghost use Rattle.topology.specs.Questions.{rings_of};
ghost use Rattle.listing.specs.Texts.{sides_text, ring_line, ring_lines, head_line};

use super::puts::Lister;
use std::iter::successors;
use topology::map::Map;

// How many sides there are: two of each arc.
fn side_count(map: &Map<'_>) -> usize
    ensures value { result ≡ length (state_of map.now).sides }
    ensures few { result ≤ 32768 }
{
    2 * map.arcs()
}

// The side after a side of a ring, up to where the ring began.
// Stays: 0 stands for a refusal that does not come. If a refusal ended the walk, the functions that put a ring would all have to ask for a side that there is, with the law of the map to show that each next one is too. That is no plainer.
fn side_after(map: &Map<'_>, start: usize, side: usize) -> Option<usize>
    ensures { result ≡ step (next_of (state_of map.now).sides) start side }
{
    let next = map.next(side).unwrap_or(0);
    (next != start).then_some(next)
}

// Whether a side is the lowest of its ring.
fn starts_ring(map: &Map<'_>, side: usize) -> bool
    requires { side < length (state_of map.now).sides }
    ensures { result ≡ tells (state_of map.now).sides side }
{
    map.lowest(side) == Ok(side)
}

impl Lister<'_, '_, '_> {
    // The sides of the ring that a side starts. The count bounds the walk: a ring has no more sides than the map.
    fn put_sides(&mut self, start: usize)
        ensures { Puts self.old self.new (sides_text (ring_at self.old start)) }
    {
        let map = self.map;
        let sides = successors(Some(start), |side| side_after(map, start, *side));
        for side in sides.take(side_count(map) + 1) {
            self.put_side(side);
        }
    }

    // The line of the ring that a side starts.
    fn put_ring(&mut self, start: usize)
        requires { start < length (state_of self.old.map.now).sides }
        ensures { Puts self.old self.new (ring_line (state_of self.old.map.now) (ring_at self.old start)) }
    {
        let Ok(polygon) = self.map.polygon(start) else {
            unreachable!()
        };
        self.put_number(polygon);
        self.put_byte(b':');
        self.put_sides(start);
        self.put_byte(b'\n');
    }

    // The lines of all rings, rising by lowest side.
    // Stays: the range is of the sides themselves, which the map does not lend. With `filter` in place of `if` the loop is as long, and its proof is over all sides passed over between two rings and not over one side, so it is no plainer.
    pub(crate) fn put_rings(&mut self)
        ensures { Puts self.old self.new (ring_lines (state_of self.old.map.now) (rings_of (state_of self.old.map.now))) }
    {
        let map = self.map;
        for side in 0..side_count(map) {
            if starts_ring(map, side) {
                self.put_ring(side);
            }
        }
    }

    // The line of the counts, given how many rings there are.
    pub(crate) fn put_head(&mut self, rings: usize)
        requires { rings ≡ length (rings_of (state_of self.old.map.now)) }
        ensures { Puts self.old self.new (head_line (state_of self.old.map.now)) }
    {
        let map = self.map;
        self.put_counts(map.arcs(), map.node_count(), map.polygon_count(), rings);
    }
}
