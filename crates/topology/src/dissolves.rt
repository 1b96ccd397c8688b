ghost use Rattle.std.specs.Prelude.{◌≡◌, ℕ, ◌+◌, ◌%◌, ◌<◌, ◌≤◌, false, length, take, OnOk};
ghost use Rattle.topology.specs.MapLaw.{InRings, InTurns, LowAlong, LowBelow, LowNames};
ghost use Rattle.topology.specs.States.{state_of};
ghost use Rattle.topology.specs.Edited.{Edited, Done};
ghost use Rattle.topology.specs.Questions.{arc_count, Rises};
ghost use Rattle.topology.specs.Tables.{Holds};
ghost use Rattle.topology.specs.Dissolves.{share_ring, both_alone, alone_at, in_either, first_from, lowest_other, merging, MergedBeside, freed, dissolve_outcome, RingsMerged, PutBack};

use super::dividing::{lowest_beside, tell_ring};
use super::map::Map;
use super::merging::Merging;
use super::renumbering::renamed;
use super::side::Side;
use super::table::Table;
use super::walks::before;
use refusal::Refusal;

// The lowest side but one of its ring, and the number of sides where there is no other.
fn lowest_other(sides: &[Side], side: u32) -> u32
    requires ringed { InRings sides.now (length sides.now) }
    requires few { length sides.now ≤ 32768 }
    requires here { side < length sides.now }
    ensures { result ≡ lowest_other sides.now side }
{
    let low = sides[side as usize].low;
    if low == side {
        lowest_beside(sides, side, sides.len() as u32)
    } else {
        low
    }
}

// The lowest side of another arc in the rings of an arc's sides, and the number of sides where there is none.
fn lowest_left(sides: &[Side], arc: usize) -> u32
    requires ringed { InRings sides.now (length sides.now) }
    requires along { LowAlong sides.now (length sides.now) }
    requires below { LowBelow sides.now (length sides.now) }
    requires named { LowNames sides.now (length sides.now) }
    requires apart { share_ring sides.now arc ≡ false }
    requires few { length sides.now ≤ 32768 }
    requires here { arc + arc + 1 < length sides.now }
    ensures { result ≡ first_from (in_either sides.now arc) 0 (length sides.now) }
{
    let side = (arc + arc) as u32;
    lowest_other(sides, side).min(lowest_other(sides, side + 1))
}

// How the two rings of an arc's sides become one: what led to one of the sides leads to what came after the other, and where that one is alone, to what came after the side itself.
fn merging_where(sides: &[Side], arc: usize) -> Merging
    requires ringed { InRings sides.now (length sides.now) }
    requires along { LowAlong sides.now (length sides.now) }
    requires below { LowBelow sides.now (length sides.now) }
    requires named { LowNames sides.now (length sides.now) }
    requires apart { share_ring sides.now arc ≡ false }
    requires few { length sides.now ≤ 32768 }
    requires here { arc + arc + 1 < length sides.now }
    ensures { result ≡ merging sides.now arc }
{
    let unturned = sides[arc + arc];
    let turned = sides[arc + arc + 1];
    let side = (arc + arc) as u32;
    Merging {
        side: side as u16,
        past_unturned: renamed(side + 1, unturned.next, turned.next),
        past_turned: renamed(side, turned.next, unturned.next),
        low_unturned: unturned.low,
        low_turned: turned.low,
        low: lowest_left(sides, arc),
        polygon: unturned.polygon.min(turned.polygon),
    }
}

// Has the two rings of an arc's sides become one, but for the rows of the arc itself.
fn merge(rows: &mut [Side], arc: usize, rings: Merging)
    requires ringed { InRings rows.old (length rows.old) }
    requires turned { InTurns rows.old (length rows.old) }
    requires even { length rows.old % 2 ≡ 0 }
    requires along { LowAlong rows.old (length rows.old) }
    requires named { LowNames rows.old (length rows.old) }
    requires few { length rows.old ≤ 32768 }
    requires here { arc + arc + 1 < length rows.old }
    requires those { rings ≡ merging rows.old arc }
    ensures { MergedBeside rows.old rows.new arc rings }
{
    let unturned = (arc + arc) as u32;
    let turned = unturned + 1;
    let p = before(rows, unturned) as usize;
    let q = before(rows, turned) as usize;
    tell_ring(rows, unturned, rings.polygon, rings.low);
    tell_ring(rows, turned, rings.polygon, rings.low);
    rows[p].next = rings.past_unturned;
    rows[q].next = rings.past_turned;
}

impl Side {
    // The row of a side that is a ring alone, and begins at a node.
    fn alone_at(self, node: u32, side: u32) -> Side
        ensures { result ≡ alone_at node side self }
    {
        Side {
            node,
            next: side,
            low: side,
            ..self
        }
    }
}

impl<'a> Table<'a, Side> {
    // Has an arc leave both its rings, for a node of its own.
    fn set_free(&mut self, arc: usize, node: u32)
        requires ringed { InRings (take self.old.used self.old.rows.now) self.old.used }
        requires turned { InTurns (take self.old.used self.old.rows.now) self.old.used }
        requires even { self.old.used % 2 ≡ 0 }
        requires along { LowAlong (take self.old.used self.old.rows.now) self.old.used }
        requires below { LowBelow (take self.old.used self.old.rows.now) self.old.used }
        requires named { LowNames (take self.old.used self.old.rows.now) self.old.used }
        requires apart { share_ring (take self.old.used self.old.rows.now) arc ≡ false }
        requires few { self.old.used ≤ 32768 }
        requires here { arc + arc + 1 < self.old.used }
        ensures { Holds self.old self.new (freed (take self.old.used self.old.rows.now) node arc) }
    {
        let rows = &mut self.rows[..self.used];
        let unturned = rows[arc + arc];
        let turned = rows[arc + arc + 1];
        let side = (arc + arc) as u32;
        let rings = merging_where(rows, arc);
        merge(rows, arc, rings);
        rows[arc + arc] = unturned.alone_at(node, side);
        rows[arc + arc + 1] = turned.alone_at(node, side + 1);
    }

    // Puts the first two free rows back as they were before.
    pub(crate) fn put_back(&mut self, unturned: Side, turned: Side)
        requires { self.old.used + 1 < length self.old.rows.now }
        ensures { PutBack self.old self.new unturned turned }
    {
        self.rows[self.used] = unturned;
        self.rows[self.used + 1] = turned;
    }
}

impl<'a> Map<'a> {
    // Takes an arc away whose sides stand in two rings that are not both alone.
    // Stays: that the last two rows are put back as they were stands here and in `join_arcs`. A method for both would take what changes the rows in between as a closure, with a contract that tells what that leaves, and is no plainer.
    fn dissolve_arc(&mut self, arc: usize)
        requires here { arc < arc_count (state_of self.old) }
        requires apart { share_ring (state_of self.old).sides arc ≡ false }
        requires some { both_alone (state_of self.old).sides arc ≡ false }
        ensures done { Done (λ m. dissolve_outcome m arc) self.old self.new }
        ensures rings { RingsMerged (state_of self.old) (state_of self.new) arc }
        ensures sum { Rises 0 (state_of self.old) (state_of self.new) }
    {
        let last_unturned = self.sides.rows[self.sides.used - 2];
        let last_turned = self.sides.rows[self.sides.used - 1];
        self.sides.set_free(arc, self.nodes as u32);
        self.polygons = self.sides.take_out(arc, self.nodes + 1, self.polygons);
        self.sides.put_back(last_unturned, last_turned);
    }

    /// Takes an arc away, and the rings of its two sides become one: the sides after one of them, then the sides after the other; two different polygons merge into the lower number, which gets all rings left. The highest number of each kind fills the gap; no node goes.
    /// 20 for no such arc; then 29 when both sides share a ring; then 30 when each is a ring alone.
    pub fn dissolve(&mut self, arc: usize) -> Result<(), Refusal>
        ensures edited { Edited (λ m. dissolve_outcome m arc) self.old self.new result }
        ensures sum { OnOk result (Rises 0 (state_of self.old) (state_of self.new)) }
        ensures rings { OnOk result (RingsMerged (state_of self.old) (state_of self.new) arc) }
    {
        self.check_arc(arc)?;
        if self.share_ring(arc + arc, arc + arc + 1)? {
            return Err(Refusal::SidesShareRing);
        }
        if self.is_closed_alone(arc)? {
            return Err(Refusal::RingsAlone);
        }
        self.dissolve_arc(arc);
        Ok(())
    }
}
