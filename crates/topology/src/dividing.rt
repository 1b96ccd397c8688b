ghost use Rattle.std.specs.Prelude.{◌≡◌, ◌+◌, ◌%◌, ◌<◌, ◌≤◌, map, length, take};
ghost use Rattle.std.specs.List.{range_with_len};
ghost use Rattle.rings.specs.Circles.{walk};
ghost use Rattle.topology.specs.Rows.{next_of};
ghost use Rattle.topology.specs.MapLaw.{InRings, InTurns};
ghost use Rattle.topology.specs.Divisions.{lowest_of, told_at, ring_told, linked};
ghost use Rattle.topology.specs.Tables.{Holds};

use super::renumbering::renamed;
use super::side::Side;
use super::table::Table;
use super::walks::before;
use std::iter::successors;

// The lowest of a number and the other sides of the ring of a side.
pub(crate) fn lowest_beside(sides: &[Side], start: u32, from: u32) -> u32
    requires ringed { InRings sides.now (length sides.now) }
    requires here { start < length sides.now }
    ensures { result ≡ lowest_of from (walk (next_of sides.now) (length sides.now) start start) }
{
    successors(Some(sides[start as usize].next), |at| {
        sides.get(*at as usize).map(|side| side.next)
    })
    .take(sides.len())
    .take_while(|at| *at != start)
    .fold(from, |low, at| low.min(at))
}

// Tells each side of the ring of a side its polygon and the lowest side of the ring.
// Stays: each row that is written tells which is next, and an iterator over the links would hold the rows while they are written. So a range bounds the walk: a `loop` needs the sides left of the ring as its measure, and is no plainer.
pub(crate) fn tell_ring(sides: &mut [Side], start: u32, polygon: u32, low: u32)
    requires ringed { InRings sides.old (length sides.old) }
    requires here { start < length sides.old }
    ensures { sides.new ≡ map (told_at sides.old start polygon low) (range_with_len 0 (length sides.old)) }
{
    let mut at = start;
    for _i in 0..sides.len() {
        let side = sides[at as usize];
        sides[at as usize] = Side {
            polygon,
            low,
            ..side
        };
        at = side.next;
        if at == start {
            return;
        }
    }
    unreachable!()
}

// Stays: that the rings and turns of the rows are circles is a condition here, of `part`, `go_on` and `set_free` and of the walks. It is the law of a map, which a table alone does not keep; a type for it would be owed at each write, and is no plainer.
// Stays: that there is such a side is a condition here, of the walks, of `go_on` and of `divide_ring`, which come after the tests of an edit. A type of the numbers of sides would hold for one state of one table, and each push would make it anew; it is no plainer.
// Stays: that the number of sides is even and at most 32768 is a condition of the functions that add, join or remove an arc, put a side's number into fewer bits or find what comes before a side. A type of tables of sides is no plainer: between the two pushes of an arc the number is odd, and a push would owe that it leaves room below 32768.
impl<'a> Table<'a, Side> {
    // Tells each side of the ring of a side its polygon and the lowest side of the ring.
    pub(crate) fn tell_ring(&mut self, start: u32, polygon: u32)
        requires ringed { InRings (take self.old.used self.old.rows.now) self.old.used }
        requires here { start < self.old.used }
        ensures { Holds self.old self.new (ring_told (take self.old.used self.old.rows.now) start polygon) }
    {
        let rows = &mut self.rows[..self.used];
        let low = lowest_beside(rows, start, start);
        tell_ring(rows, start, polygon, low);
    }

    // Adds the sides of an arc, linked from the start of one side to that of another.
    pub(crate) fn link(&mut self, first: u32, second: u32, row: u32, last: u32)
        requires ringed { InRings (take self.old.used self.old.rows.now) self.old.used }
        requires turned { InTurns (take self.old.used self.old.rows.now) self.old.used }
        requires even { self.old.used % 2 ≡ 0 }
        requires room { self.old.used + 2 ≤ length self.old.rows.now }
        requires few { self.old.used + 2 ≤ 32768 }
        requires first_in { first < self.old.used }
        requires second_in { second < self.old.used }
        ensures { Holds self.old self.new (linked (take self.old.used self.old.rows.now) first second row last) }
    {
        let n = self.used as u32;
        let sides = self.in_use();
        let p = before(sides, first);
        let q = before(sides, second);
        let near = self.rows[first as usize];
        let far = self.rows[second as usize];
        let on = renamed(second, n + 1, first);
        self.rows[q as usize].next = n + 1;
        self.rows[p as usize].next = n;
        self.push(Side {
            row,
            next: second,
            ..near
        });
        self.push(Side {
            node: far.node,
            row: last,
            next: on,
            ..near
        });
    }
}
