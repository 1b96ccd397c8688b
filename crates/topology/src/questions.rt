ghost use Rattle.std.specs.Prelude.{◌≡◌, ℕ, ◌+◌, ◌-◌, ◌/◌, ◌<◌, ◌≤◌, length, IfOk, OnOk};
ghost use Rattle.topology.specs.Rows.{next_of, node_of, polygon_of, low_of};
ghost use Rattle.topology.specs.States.{state_of};
ghost use Rattle.topology.specs.Questions.{arc_count, known_arc, side_row, about_side, about_arc, both_rows, arc_rows, vertex_count, vertex_at, rings_of, ring_at, TurnMeets, RingsListed, HoweverParted, LowestOfRing};

use super::hand::Hand;
use super::map::Map;
use super::side::Side;
use super::vertex::Vertex;
use super::walks::{count_starts, find_ring};
use refusal::Refusal;

impl<'a> Map<'a> {
    /// The hand that the map was started with.
    pub fn hand(&self) -> Hand
        ensures { result ≡ (state_of self.now).hand }
    {
        self.hand
    }

    /// How many arcs there are.
    pub fn arcs(&self) -> usize
        ensures { result ≡ arc_count (state_of self.now) }
    {
        self.sides.used / 2
    }

    /// How many nodes there are.
    pub fn node_count(&self) -> usize
        ensures { result ≡ (state_of self.now).nodes }
    {
        self.nodes
    }

    /// How many polygons there are, polygon 0 among them.
    pub fn polygon_count(&self) -> usize
        ensures { result ≡ (state_of self.now).polygons }
    {
        self.polygons
    }

    // The row of a side, where there is one.
    pub(crate) fn side(&self, side: usize) -> Result<Side, Refusal>
        ensures { result ≡ side_row (state_of self.now) side }
    {
        self.sides
            .in_use()
            .get(side)
            .copied()
            .ok_or(Refusal::NoSuchElement)
    }

    /// The polygon of a side. 20 when there is no such side.
    pub fn polygon(&self, side: usize) -> Result<usize, Refusal>
        ensures { result ≡ about_side polygon_of (state_of self.now) side }
    {
        self.side(side).map(|row| row.polygon as usize)
    }

    /// The next side of a side in its ring. 20 when there is no such side.
    pub fn next(&self, side: usize) -> Result<usize, Refusal>
        ensures { result ≡ about_side next_of (state_of self.now) side }
    {
        self.side(side).map(|row| row.next as usize)
    }

    /// The lowest side of a side's ring: the ring set out from it meets the side, and no side before it. 20 when there is no such side.
    pub fn lowest(&self, side: usize) -> Result<usize, Refusal>
        ensures value { result ≡ about_side low_of (state_of self.now) side }
        ensures lowest { IfOk result (λ low. LowestOfRing (state_of self.now) side low) }
    {
        self.side(side).map(|row| row.low as usize)
    }

    /// The node where a side begins. 20 when there is no such side. The turn about that node, set out from this side, meets every side that begins there.
    pub fn first_node(&self, side: usize) -> Result<usize, Refusal>
        ensures value { result ≡ about_side node_of (state_of self.now) side }
        ensures turn { OnOk result (TurnMeets (state_of self.now) side) }
    {
        self.side(side).map(|row| row.node as usize)
    }

    // 20 when there is no such arc.
    pub(crate) fn check_arc(&self, arc: usize) -> Result<(), Refusal>
        ensures { result ≡ known_arc (state_of self.now) arc }
    {
        if arc < self.arcs() {
            Ok(())
        } else {
            Err(Refusal::NoSuchElement)
        }
    }

    // The rows of the two sides of an arc, where there is such an arc.
    pub(crate) fn arc_sides(&self, arc: usize) -> Result<(Side, Side), Refusal>
        ensures { result ≡ about_arc both_rows (state_of self.now) arc }
    {
        self.check_arc(arc)?;
        let sides = self.sides.in_use();
        Ok((sides[arc + arc], sides[arc + arc + 1]))
    }

    // The rows of an arc's first and last vertex, where there is such an arc.
    pub(crate) fn run(&self, arc: usize) -> Result<(usize, usize), Refusal>
        ensures value { result ≡ arc_rows (state_of self.now) arc }
        ensures stands { IfOk result (λ p. (p.0 < p.1) × (p.1 < length (state_of self.now).vertices)) }
    {
        let (unturned, turned) = self.arc_sides(arc)?;
        Ok((unturned.row as usize, turned.row as usize))
    }

    /// How many vertices an arc has. 20 when there is no such arc.
    pub fn vertex_count(&self, arc: usize) -> Result<usize, Refusal>
        ensures { result ≡ vertex_count (state_of self.now) arc }
    {
        let (first, last) = self.run(arc)?;
        Ok(last - first + 1)
    }

    /// Vertex k of an arc. 20 when there is no such arc, or the arc has no such vertex.
    pub fn vertex(&self, arc: usize, k: usize) -> Result<Vertex, Refusal>
        ensures { result ≡ vertex_at (state_of self.now) arc k }
    {
        let (first, last) = self.run(arc)?;
        if k > last - first {
            return Err(Refusal::NoSuchElement);
        }
        Ok(self.vertices.in_use()[first + k])
    }

    /// How many rings there are: as many as in the list of rings, which has every side once, and as many however the sides are parted into circles.
    pub fn ring_count(&self) -> usize
        ensures value { result ≡ length (rings_of (state_of self.now)) }
        ensures listed { RingsListed (state_of self.now) }
        ensures parted { HoweverParted (state_of self.now) result }
    {
        count_starts(self.sides.in_use())
    }

    /// The polygon and the lowest side of the k-th ring; rings rise by lowest side. 20 when there are not so many.
    pub fn ring(&self, k: usize) -> Result<(usize, usize), Refusal>
        ensures { result ≡ ring_at (state_of self.now) k }
    {
        find_ring(self.sides.in_use(), k).ok_or(Refusal::NoSuchElement)
    }
}
