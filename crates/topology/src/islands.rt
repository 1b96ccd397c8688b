ghost use Rattle.std.specs.Prelude.{◌≡◌, ℕ, ◌+◌, ◌-◌, ◌<◌, ◌≤◌, true, ◌&&◌, length, OnOk};
ghost use Rattle.topology.specs.States.{state_of};
ghost use Rattle.topology.specs.Edited.{Edited, Done};
ghost use Rattle.topology.specs.Questions.{Rises};
ghost use Rattle.topology.specs.Islands.{closed_run, arc_room, vertex_room, island_outcome, IslandAdded};

use super::map::Map;
use super::runs::closes;
use super::side::Side;
use super::vertex::Vertex;
use refusal::Refusal;

impl<'a> Map<'a> {
    // Whether there is room for so many vertices more.
    pub(crate) fn has_vertex_room(&self, vertices: usize) -> bool
        ensures { result ≡ vertex_room (state_of self.now) vertices }
    {
        let used = self.vertices.used;
        vertices <= self.vertices.rows.len() - used && vertices <= 1048576 - used
    }

    // Whether there is room for one arc more, with so many vertices more.
    pub(crate) fn has_room(&self, vertices: usize) -> bool
        ensures { result ≡ (arc_room (state_of self.now) && vertex_room (state_of self.now) vertices) }
    {
        let used = self.sides.used;
        used + 2 <= self.sides.rows.len() && used + 2 <= 32768 && self.has_vertex_room(vertices)
    }

    // Adds an island of a run that makes a closed arc.
    // Stays: that there is room, which the edit has just tested, is a condition here and of the other functions that add an arc or vertices. A type for it would hold for one state of one map, and is no plainer.
    fn add_island(&mut self, polygon: usize, run: &[Vertex])
        requires known { polygon < self.old.polygons }
        requires closed { closed_run run.now ≡ true }
        requires room { (arc_room (state_of self.old) && vertex_room (state_of self.old) (length run.now)) ≡ true }
        ensures done { Done (λ m. island_outcome m polygon run.now) self.old self.new }
        ensures rings { IslandAdded (state_of self.old) (state_of self.new) polygon }
        ensures nodes { self.new.nodes ≡ self.old.nodes + 1 }
        ensures sides { self.new.sides.used ≡ self.old.sides.used + 2 }
    {
        let n = self.sides.used as u32;
        let first = self.vertices.used as u32;
        let last = first + (run.len() as u32 - 1);
        let unturned = Side {
            node: self.nodes as u32,
            row: first,
            polygon: self.polygons as u32,
            next: n,
            low: n,
        };
        let turned = Side {
            row: last,
            polygon: polygon as u32,
            next: n + 1,
            low: n + 1,
            ..unturned
        };
        self.sides.push(unturned);
        self.sides.push(turned);
        self.vertices.push_run(run);
        self.nodes += 1;
        self.polygons += 1;
    }

    /// Adds a node, a closed arc with the run's vertices, and a polygon on its unturned side; the named polygon has the turned side, and each side is a ring alone.
    /// 20 for no such polygon; then 21 for under four vertices, ends apart or a coordinate that is not finite; then 22 for no room for the arc or the run.
    pub fn island(&mut self, polygon: usize, run: &[Vertex]) -> Result<(), Refusal>
        ensures edited { Edited (λ m. island_outcome m polygon run.now) self.old self.new result }
        ensures rings { OnOk result (IslandAdded (state_of self.old) (state_of self.new) polygon) }
        ensures sum { OnOk result (Rises 2 (state_of self.old) (state_of self.new)) }
    {
        if polygon >= self.polygons {
            return Err(Refusal::NoSuchElement);
        }
        if !closes(run) {
            return Err(Refusal::UnfitRun);
        }
        if !self.has_room(run.len()) {
            return Err(Refusal::NoRoom);
        }
        self.add_island(polygon, run);
        Ok(())
    }
}
