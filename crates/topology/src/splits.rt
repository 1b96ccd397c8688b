ghost use Rattle.std.specs.Prelude.{◌≡◌, ◌+◌, ◌-◌, ◌/◌, ◌%◌, ◌<◌, ◌≤◌, true, ◌&&◌, length, take, OnOk};
ghost use Rattle.topology.specs.MapLaw.{InRings, InTurns};
ghost use Rattle.topology.specs.States.{state_of};
ghost use Rattle.topology.specs.Edited.{Edited, Done};
ghost use Rattle.topology.specs.Tables.{Holds};
ghost use Rattle.topology.specs.Questions.{about_arc, arc_count, rings_of, Rises};
ghost use Rattle.topology.specs.Islands.{arc_room, vertex_room};
ghost use Rattle.topology.specs.Splits.{inside, leading, beginning, split_sides, split_outcome, Parts};

use super::map::Map;
use super::side::Side;
use super::table::Table;
use super::walks::before;
use refusal::Refusal;

impl<'a> Table<'a, Side> {
    // Parts an arc at a new node: its sides, and those of a new arc.
    fn part(&mut self, arc: usize, node: u32, row: u32)
        requires ringed { InRings (take self.old.used self.old.rows.now) self.old.used }
        requires turned { InTurns (take self.old.used self.old.rows.now) self.old.used }
        requires even { self.old.used % 2 ≡ 0 }
        requires here { arc + arc + 1 < self.old.used }
        requires room { self.old.used + 2 ≤ length self.old.rows.now }
        requires few { self.old.used + 2 ≤ 32768 }
        ensures { Holds self.old self.new (split_sides (take self.old.used self.old.rows.now) node arc row) }
    {
        let unturned = arc + arc;
        let turned = unturned + 1;
        let n = self.used as u32;
        let o = turned as u32;
        let last = Side {
            next: o,
            ..self.rows[turned]
        };
        let p = before(self.in_use(), o) as usize;
        self.rows[p].next = n + 1;
        let first = Side {
            node,
            row,
            ..self.rows[unturned]
        };
        self.rows[unturned].next = n;
        self.rows[turned] = Side {
            node,
            row,
            ..self.rows[turned]
        };
        self.push(first);
        self.push(last);
    }
}

impl<'a> Map<'a> {
    // Whether a vertex of an arc is neither its first nor its last.
    fn is_inside(&self, arc: usize, k: usize) -> Result<bool, Refusal>
        ensures { result ≡ about_arc (λ us a. inside us a k) (state_of self.now) arc }
    {
        self.run(arc).map(|(first, last)| 0 < k && k < last - first)
    }

    // Parts an arc at a vertex inside it.
    fn split_arc(&mut self, arc: usize, k: usize)
        requires here { arc < arc_count (state_of self.old) }
        requires within { inside (state_of self.old).sides arc k ≡ true }
        requires room { (arc_room (state_of self.old) && vertex_room (state_of self.old) 1) ≡ true }
        ensures done { Done (λ m. split_outcome m arc k) self.old self.new }
        ensures parts { Parts (state_of self.old) (state_of self.new) arc k }
        ensures rings { length (rings_of (state_of self.new)) ≡ length (rings_of (state_of self.old)) }
        ensures nodes { self.new.nodes ≡ self.old.nodes + 1 }
        ensures sides { self.new.sides.used ≡ self.old.sides.used + 2 }
    {
        let at = self.sides.rows[arc + arc].row as usize + k;
        let vertex = self.vertices.rows[at];
        self.sides.part(arc, self.nodes as u32, at as u32);
        self.vertices.push(vertex);
        self.nodes += 1;
    }

    /// Parts an arc at its vertex k by a new node, through which both its sides pass: the arc keeps the vertices up to k, and a new arc has them from k on.
    /// 20 for no such arc; then 25 when vertex k is the first, the last or beyond; then 22 for no room for an arc or for one vertex, since vertex k counts once more.
    pub fn split(&mut self, arc: usize, k: usize) -> Result<(), Refusal>
        ensures edited { Edited (λ m. split_outcome m arc k) self.old self.new result }
        ensures sum { OnOk result (Rises 0 (state_of self.old) (state_of self.new)) }
        ensures parts { OnOk result (Parts (state_of self.old) (state_of self.new) arc k) }
    {
        if !self.is_inside(arc, k)? {
            return Err(Refusal::NotInsideArc);
        }
        if !self.has_room(1) {
            return Err(Refusal::NoRoom);
        }
        self.split_arc(arc, k);
        Ok(())
    }
}
