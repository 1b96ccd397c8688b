ghost use Rattle.std.specs.Prelude.{◌≡◌, ℕ, ◌+◌, ◌-◌, ◌/◌, ◌%◌, ◌<◌, ◌≤◌, true, ◌&&◌, map, length, take, if◌then◌else◌, OnOk, nat_eq};
ghost use Rattle.topology.specs.States.{state_of};
ghost use Rattle.topology.specs.Edited.{Edited, Done};
ghost use Rattle.topology.specs.Questions.{about_arc, arc_count, Rises};
ghost use Rattle.topology.specs.Tables.{Holds};
ghost use Rattle.topology.specs.Renumbered.{renumbered};
ghost use Rattle.topology.specs.Lifts.{closed_alone, other_under, ring_left, lift_numbers, rows_without, lifted_sides, polygons_left, lift_outcome, RingsLifted};
ghost use Rattle.topology.specs.Dissolves.{both_alone};

use super::map::Map;
use super::renumbering::{Renumbering, renumber};
use super::side::Side;
use super::table::Table;
use refusal::Refusal;

// Whether some side of another arc stands under one of two polygons.
fn has_other_under(sides: &[Side], arc: usize, p: u32, q: u32) -> bool
    ensures { result ≡ other_under sides.now arc p q (length sides.now) }
{
    sides.iter().enumerate().any(|(s, side)| s / 2 != arc
        && (side.polygon == p || side.polygon == q))
}

// The numbers that change where an arc goes.
// Stays: no polygon goes where `polygon`, `into` and `last_polygon` are one number. An `Option` of the three is no plainer: each row would be told in two cases, where now a number renamed to itself is the second.
fn numbers_where(sides: &[Side], nodes: usize, polygons: usize, arc: usize) -> Renumbering
    requires few { length sides.now ≤ 32768 }
    requires here { arc + arc + 1 < length sides.now }
    requires some_node { 0 < nodes }
    requires nodes_few { nodes ≤ length sides.now }
    requires some_polygon { 0 < polygons }
    requires polygons_few { polygons ≤ length sides.now + 1 }
    ensures { result ≡ lift_numbers sides.now nodes polygons arc }
{
    let n = sides.len();
    let unturned = sides[arc + arc];
    let p = unturned.polygon;
    let q = sides[arc + arc + 1].polygon;
    Renumbering {
        side: (arc + arc) as u16,
        last_side: (n - 2) as u16,
        node: unturned.node,
        last_node: (nodes - 1) as u32,
        polygon: p.max(q),
        into: p.min(q),
        last_polygon: if p == q { p } else { (polygons - 1) as u32 },
        low_unturned: sides[n - 2].low,
        low_turned: sides[n - 1].low,
    }
}

impl Renumbering {
    // How many polygons are left.
    fn polygons_left(self, polygons: usize) -> usize
        requires { 0 < polygons }
        ensures { result ≡ (if nat_eq self.polygon self.into then polygons else polygons - 1) }
    {
        if self.polygon == self.into {
            polygons
        } else {
            polygons - 1
        }
    }
}

impl<'a> Table<'a, Side> {
    // Takes the sides of an arc away: the last two rows take their place, and all change their numbers.
    fn remove(&mut self, arc: usize, numbers: Renumbering)
        requires here { arc + arc + 1 < self.old.used }
        requires even { self.old.used % 2 ≡ 0 }
        ensures { Holds self.old self.new (map (renumbered numbers) (rows_without (take self.old.used self.old.rows.now) arc)) }
    {
        self.used -= 2;
        self.rows.copy_within(self.used..self.used + 2, arc + arc);
        renumber(&mut self.rows[..self.used], numbers);
    }

    // Stays: that there is a polygon, as the law of a map has it, is a condition here and of two functions on numbers. A type of counts that are not 0 would be made for these three, and is no plainer.
    // Takes an arc out, with the node where it begins and, where its sides have two polygons, the higher of them. Tells how many polygons are left.
    pub(crate) fn take_out(&mut self, arc: usize, nodes: usize, polygons: usize) -> usize
        requires here { arc + arc + 1 < self.old.used }
        requires even { self.old.used % 2 ≡ 0 }
        requires few { self.old.used ≤ 32768 }
        requires some_node { 0 < nodes }
        requires nodes_few { nodes ≤ self.old.used }
        requires some_polygon { 0 < polygons }
        requires polygons_few { polygons ≤ self.old.used + 1 }
        ensures rows { Holds self.old self.new (lifted_sides (take self.old.used self.old.rows.now) nodes polygons arc) }
        ensures left { result ≡ polygons_left (take self.old.used self.old.rows.now) polygons arc }
    {
        let numbers = numbers_where(self.in_use(), nodes, polygons, arc);
        self.remove(arc, numbers);
        numbers.polygons_left(polygons)
    }
}

impl<'a> Map<'a> {
    // Whether an arc is closed at a node of its own: by the law, exactly if each of its sides is its own next.
    pub(crate) fn is_closed_alone(&self, arc: usize) -> Result<bool, Refusal>
        ensures closed { result ≡ about_arc closed_alone (state_of self.now) arc }
        ensures alone { result ≡ about_arc both_alone (state_of self.now) arc }
    {
        let (unturned, turned) = self.arc_sides(arc)?;
        let s = arc + arc;
        Ok(unturned.next as usize == s && turned.next as usize == s + 1)
    }

    // Whether the polygon that is left once an arc goes is 0 or has a ring.
    fn leaves_a_ring(&self, arc: usize) -> Result<bool, Refusal>
        ensures { result ≡ about_arc ring_left (state_of self.now) arc }
    {
        let (unturned, turned) = self.arc_sides(arc)?;
        let p = unturned.polygon;
        let q = turned.polygon;
        Ok(p.min(q) == 0 || has_other_under(self.sides.in_use(), arc, p, q))
    }

    // Takes a closed arc away that stands alone and leaves a ring.
    // Stays: that there is such an arc is a condition of this last step of an edit, of `split_arc`, of `dissolve_arc` and of the functions on rows that these call. A type of the numbers of arcs would hold for one state of one map, and each edit would make it anew; it is no plainer.
    fn lift_arc(&mut self, arc: usize)
        requires here { arc < arc_count (state_of self.old) }
        requires alone { closed_alone (state_of self.old).sides arc ≡ true }
        requires leaves { ring_left (state_of self.old).sides arc ≡ true }
        ensures done { Done (λ m. lift_outcome m arc) self.old self.new }
        ensures rings { RingsLifted (state_of self.old) (state_of self.new) arc }
        ensures nodes { self.new.nodes + 1 ≡ self.old.nodes }
        ensures sides { self.new.sides.used + 2 ≡ self.old.sides.used }
    {
        self.polygons = self.sides.take_out(arc, self.nodes, self.polygons);
        self.nodes -= 1;
    }

    /// Takes a closed arc, its node and both its rings away; two different polygons merge into the lower number, which gets all rings left. The highest number of each kind fills the gap.
    /// 20 for no such arc; then 23 when the arc is not closed at a node of its own; then 24 when the polygon that is left is not 0 and would have no ring.
    pub fn lift(&mut self, arc: usize) -> Result<(), Refusal>
        ensures edited { Edited (λ m. lift_outcome m arc) self.old self.new result }
        ensures rings { OnOk result (RingsLifted (state_of self.old) (state_of self.new) arc) }
        ensures sum { OnOk result (Rises 2 (state_of self.new) (state_of self.old)) }
    {
        if !self.is_closed_alone(arc)? {
            return Err(Refusal::ArcNotClosedAlone);
        }
        if !self.leaves_a_ring(arc)? {
            return Err(Refusal::PolygonLosesLastRing);
        }
        self.lift_arc(arc);
        Ok(())
    }
}
