ghost use Rattle.std.specs.Prelude.{◌≡◌, ℕ, ◌+◌, ◌-◌, ◌/◌, ◌%◌, ◌<◌, ◌≤◌, Ok, Err, ◌++◌, length, take, nat_eq, slice_range, if◌then◌else◌, true, OnOk};
ghost use Rattle.std.specs.List.{position};
ghost use Rattle.refusal.specs.declared.Refusal.TheVariants.{NotTwoEndsOfTwoArcs};
ghost use Rattle.rings.specs.Law.{opp};
ghost use Rattle.topology.specs.Rows.{next_of, node_of, row_of};
ghost use Rattle.topology.specs.MapLaw.{InRings, InTurns};
ghost use Rattle.topology.specs.Tables.{Holds, Grown};
ghost use Rattle.topology.specs.States.{state_of};
ghost use Rattle.topology.specs.Edited.{Edited, Done};
ghost use Rattle.topology.specs.Questions.{Rises};
ghost use Rattle.topology.specs.Islands.{vertex_room};
ghost use Rattle.topology.specs.Joins.{ends, of_two_arcs, TwoEnds, turned_if, joined_run, joined_sides, lower_end, higher_end, join_outcome, Joined};

use super::map::Map;
use super::side::Side;
use super::table::Table;
use super::vertex::Vertex;
use super::walks::before;
use refusal::Refusal;
use rings::opposite;
use std::ops::Range;

// The lowest side that begins at a node.
fn first_end(sides: &[Side], node: usize) -> Option<usize>
    ensures { result ≡ position (λ side. nat_eq side.node node) sides.now }
{
    sides.iter().position(|side| side.node as usize == node)
}

// Turns rows round, or leaves them as they stand.
// Stays: a flag tells which, here and in the two functions that add rows once more. An enum of two cases, made of a test of two remainders in one caller, is no plainer.
fn turn_if<T>(rows: &mut [T], backwards: bool)
    ensures { rows.new ≡ turned_if backwards rows.old }
{
    if backwards {
        rows.reverse();
    }
}

impl<'a, T> Table<'a, T> {
    // Adds rows in use once more, or these rows backwards.
    fn push_again(&mut self, rows: Range<usize>, backwards: bool)
    where
        T: Copy,
        requires ordered { rows.start ≤ rows.end }
        requires in_use { rows.end ≤ self.old.used }
        requires room { self.old.used + (rows.end - rows.start) ≤ length self.old.rows.now }
        ensures { Grown self.old self.new (turned_if backwards (slice_range (take self.old.used self.old.rows.now) rows.start rows.end)) }
    {
        let start = self.used;
        let end = start + (rows.end - rows.start);
        self.rows.copy_within(rows, start);
        turn_if(&mut self.rows[start..end], backwards);
        self.used = end;
    }
}

// The row where a side begins, of those of an arc's first and last vertex.
fn begins(side: u32, first: u32, last: u32) -> u32
    ensures { result ≡ (if nat_eq (side % 2) 0 then first else last) }
{
    if side % 2 == 0 { first } else { last }
}

impl<'a> Table<'a, Side> {
    // Has the arc of one side go on where that of another went, which begins at the same node: each side of the other becomes a ring alone.
    fn go_on(&mut self, stays: u32, goes: u32, first: u32, last: u32)
        requires ringed { InRings (take self.old.used self.old.rows.now) self.old.used }
        requires turned { InTurns (take self.old.used self.old.rows.now) self.old.used }
        requires even { self.old.used % 2 ≡ 0 }
        requires goes_in { goes < self.old.used }
        requires rising { stays / 2 < goes / 2 }
        requires to_goes { next_of (take self.old.used self.old.rows.now) (opp stays) ≡ goes }
        requires to_stays { next_of (take self.old.used self.old.rows.now) (opp goes) ≡ stays }
        requires one_node { node_of (take self.old.used self.old.rows.now) stays ≡ node_of (take self.old.used self.old.rows.now) goes }
        ensures { Holds self.old self.new (joined_sides (take self.old.used self.old.rows.now) stays goes first last) }
    {
        let near = opposite(stays);
        let far = opposite(goes);
        let p = before(self.in_use(), far) as usize;
        let rows = &mut self.rows[..self.used];
        let start = rows[goes as usize];
        let end = rows[far as usize];
        rows[p].next = stays;
        let on = rows[goes as usize].next;
        rows[near as usize] = Side {
            row: begins(near, first, last),
            next: on,
            ..rows[near as usize]
        };
        rows[stays as usize] = Side {
            node: end.node,
            row: begins(stays, first, last),
            ..rows[stays as usize]
        };
        rows[goes as usize] = Side {
            next: goes,
            low: goes,
            ..start
        };
        rows[far as usize] = Side {
            node: start.node,
            polygon: start.polygon,
            next: far,
            low: far,
            ..end
        };
    }
}

impl<'a> Table<'a, Vertex> {
    // Adds the vertices of an arc, and after or before them those of another that lie beyond the node.
    fn push_joined(&mut self, whole: Range<usize>, rest: Range<usize>, after: bool, backwards: bool)
        requires whole_ordered { whole.start ≤ whole.end }
        requires whole_in { whole.end ≤ self.old.used }
        requires rest_ordered { rest.start ≤ rest.end }
        requires rest_in { rest.end ≤ self.old.used }
        requires room { self.old.used + (whole.end - whole.start) + (rest.end - rest.start) ≤ length self.old.rows.now }
        ensures { Grown self.old self.new (if after then slice_range (take self.old.used self.old.rows.now) whole.start whole.end ++ turned_if backwards (slice_range (take self.old.used self.old.rows.now) rest.start rest.end) else turned_if backwards (slice_range (take self.old.used self.old.rows.now) rest.start rest.end) ++ slice_range (take self.old.used self.old.rows.now) whole.start whole.end) }
    {
        if after {
            self.push_again(whole, false);
            self.push_again(rest, backwards);
        } else {
            self.push_again(rest, backwards);
            self.push_again(whole, false);
        }
    }
}

impl<'a> Map<'a> {
    // The two sides that begin at a node, the lower one first. 26 unless just two do, of two arcs.
    fn two_ends(&self, node: usize) -> Result<(usize, usize), Refusal>
        ensures { result ≡ (if of_two_arcs (ends (state_of self.now).sides node) then Ok (lower_end (state_of self.now) node, higher_end (state_of self.now) node) else Err NotTwoEndsOfTwoArcs) }
    {
        let sides = self.sides.in_use();
        let stays = first_end(sides, node).ok_or(Refusal::NotTwoEndsOfTwoArcs)?;
        let goes = sides[opposite(stays as u32) as usize].next as usize;
        let back = sides[opposite(goes as u32) as usize].next as usize;
        (goes / 2 != stays / 2 && back == stays)
            .then_some((stays, goes))
            .ok_or(Refusal::NotTwoEndsOfTwoArcs)
    }

    // Stays: the two ends go together here and in the functions that come after. A struct of two numbers would be taken apart in each, and is no plainer.
    // The rows of the vertices of an arc, and those of another arc beyond the node where it begins or ends.
    fn joined_rows(&self, stays: usize, goes: usize) -> (Range<usize>, Range<usize>)
        requires { TwoEnds (state_of self.now).sides stays goes }
        ensures whole_start { result.0.start ≡ row_of (state_of self.now).sides (stays / 2 + stays / 2) }
        ensures whole_end { result.0.end ≡ row_of (state_of self.now).sides (stays / 2 + stays / 2 + 1) + 1 }
        ensures rest_start { result.1.start ≡ (if nat_eq (goes % 2) 0 then row_of (state_of self.now).sides (goes / 2 + goes / 2) + 1 else row_of (state_of self.now).sides (goes / 2 + goes / 2)) }
        ensures rest_end { result.1.end ≡ result.1.start + (row_of (state_of self.now).sides (goes / 2 + goes / 2 + 1) - row_of (state_of self.now).sides (goes / 2 + goes / 2)) }
        ensures whole_ordered { result.0.start ≤ result.0.end }
        ensures rest_ordered { result.1.start ≤ result.1.end }
        ensures whole_in_use { result.0.end ≤ length (state_of self.now).vertices }
        ensures rest_in_use { result.1.end ≤ length (state_of self.now).vertices }
    {
        let sides = self.sides.in_use();
        let a = stays / 2;
        let b = goes / 2;
        let from = sides[b + b].row as usize;
        let to = sides[b + b + 1].row as usize;
        let rest = if goes % 2 == 0 {
            from + 1..to + 1
        } else {
            from..to
        };
        (
            sides[a + a].row as usize..sides[a + a + 1].row as usize + 1,
            rest,
        )
    }

    // How many vertices the arcs of two ends at a node have once they are one.
    fn joined_count(&self, stays: usize, goes: usize) -> usize
        requires { TwoEnds (state_of self.now).sides stays goes }
        ensures { result ≡ length (joined_run (state_of self.now).sides (state_of self.now).vertices stays goes) }
    {
        let (whole, rest) = self.joined_rows(stays, goes);
        (whole.end - whole.start) + (rest.end - rest.start)
    }

    // Has the arcs of two ends at a node become one.
    fn join_arcs(&mut self, node: usize, stays: usize, goes: usize)
        requires known { node < self.old.nodes }
        requires two { of_two_arcs (ends (state_of self.old).sides node) ≡ true }
        requires lower { stays ≡ lower_end (state_of self.old) node }
        requires higher { goes ≡ higher_end (state_of self.old) node }
        requires room { vertex_room (state_of self.old) (length (joined_run (state_of self.old).sides (state_of self.old).vertices stays goes)) ≡ true }
        ensures done { Done (λ m. join_outcome m node) self.old self.new }
        ensures joined { Joined (state_of self.old) (state_of self.new) stays goes }
        ensures sum { Rises 0 (state_of self.old) (state_of self.new) }
    {
        let (whole, rest) = self.joined_rows(stays, goes);
        let first = self.vertices.used;
        let last = first + (whole.end - whole.start) + (rest.end - rest.start) - 1;
        let last_unturned = self.sides.rows[self.sides.used - 2];
        let last_turned = self.sides.rows[self.sides.used - 1];
        self.sides
            .go_on(stays as u32, goes as u32, first as u32, last as u32);
        self.polygons = self.sides.take_out(goes / 2, self.nodes, self.polygons);
        self.sides.put_back(last_unturned, last_turned);
        self.vertices
            .push_joined(whole, rest, stays % 2 == 1, stays % 2 == goes % 2);
        self.nodes -= 1;
    }

    /// Has two arcs become one at a node where just their two ends lie: the lower arc keeps its number and direction and takes the other's vertices, its own at the node once. The node goes, and the highest number of each kind fills the gap.
    /// 20 for no such node; then 26 unless just two ends, of two arcs, lie there; then 22 for no room for the vertices of the joined arc, which count whole as in use.
    pub fn join(&mut self, node: usize) -> Result<(), Refusal>
        ensures edited { Edited (λ m. join_outcome m node) self.old self.new result }
        ensures joined { OnOk result (Joined (state_of self.old) (state_of self.new) (lower_end (state_of self.old) node) (higher_end (state_of self.old) node)) }
        ensures sum { OnOk result (Rises 0 (state_of self.old) (state_of self.new)) }
    {
        if node >= self.nodes {
            return Err(Refusal::NoSuchElement);
        }
        let (stays, goes) = self.two_ends(node)?;
        if !self.has_vertex_room(self.joined_count(stays, goes)) {
            return Err(Refusal::NoRoom);
        }
        self.join_arcs(node, stays, goes);
        Ok(())
    }
}
