ghost use Rattle.std.specs.Prelude.{◌≡◌, ◌+◌, ◌<◌, true, ◌&&◌, length, OnOk};
ghost use Rattle.rings.specs.Circles.{meets};
ghost use Rattle.topology.specs.Rows.{next_of, start_of};
ghost use Rattle.topology.specs.States.{state_of};
ghost use Rattle.topology.specs.Edited.{Edited, Done};
ghost use Rattle.topology.specs.Questions.{about_side, about_sides, in_one_ring, Rises};
ghost use Rattle.topology.specs.Islands.{arc_room, vertex_room};
ghost use Rattle.topology.specs.Divisions.{unturned_polygon, turned_polygon, fit_run, leads, divide_outcome, RingDivided};

use super::arc_side::ArcSide;
use super::map::Map;
use super::runs::all_finite;
use super::vertex::Vertex;
use refusal::Refusal;

impl ArcSide {
    // The polygons of the rings of the new unturned and the new turned side: that of the named one is new.
    fn polygons(self, new: u32, old: u32) -> (u32, u32)
        ensures unturned { result.0 ≡ unturned_polygon self new old }
        ensures turned { result.1 ≡ turned_polygon self new old }
    {
        match self {
            ArcSide::Unturned => (new, old),
            ArcSide::Turned => (old, new),
        }
    }
}

// Whether a run makes an arc: at least two vertices, all finite.
fn makes_an_arc(run: &[Vertex]) -> bool
    ensures { result ≡ fit_run run.now }
{
    run.len() >= 2 && all_finite(run)
}

impl<'a> Map<'a> {
    // Whether two sides stand in one ring: by the law, exactly if their rings have one lowest side.
    pub(crate) fn share_ring(&self, first: usize, second: usize) -> Result<bool, Refusal>
        ensures { result ≡ about_sides in_one_ring (state_of self.now) first second }
    {
        Ok(self.side(first)?.low == self.side(second)?.low)
    }

    // The vertex where a side begins.
    fn start_of(&self, side: usize) -> Result<Vertex, Refusal>
        ensures { result ≡ about_side (λ us s. start_of us (state_of self.now).vertices s) (state_of self.now) side }
    {
        let row = self.side(side)?.row;
        Ok(self.vertices.in_use()[row as usize])
    }

    // Whether a run leads from the start of one side to that of another.
    fn is_led(&self, first: usize, second: usize, run: &[Vertex]) -> Result<bool, Refusal>
        requires fit { fit_run run.now ≡ true }
        ensures { result ≡ about_sides (λ us s t. leads (state_of self.now) s t run.now) (state_of self.now) first second }
    {
        let start = self.start_of(first)?;
        let end = self.start_of(second)?;
        Ok(run[0].shares_place(start) && run[run.len() - 1].shares_place(end))
    }

    // Divides the ring of two sides by an arc that leads from the start of one to that of the other.
    fn divide_ring(&mut self, first: usize, second: usize, run: &[Vertex], named: ArcSide)
        requires first_in { first < length (state_of self.old).sides }
        requires second_in { second < length (state_of self.old).sides }
        requires share { meets (next_of (state_of self.old).sides) (length (state_of self.old).sides) first second ≡ true }
        requires fit { fit_run run.now ≡ true }
        requires led { leads (state_of self.old) first second run.now ≡ true }
        requires room { (arc_room (state_of self.old) && vertex_room (state_of self.old) (length run.now)) ≡ true }
        ensures done { Done (λ m. divide_outcome m first second run.now named) self.old self.new }
        ensures rings { RingDivided (state_of self.old) (state_of self.new) first second named }
        ensures sum { Rises 0 (state_of self.old) (state_of self.new) }
    {
        let n = self.sides.used as u32;
        let row = self.vertices.used as u32;
        let last = row + (run.len() as u32 - 1);
        let old = self.sides.rows[first].polygon;
        let (unturned, turned) = named.polygons(self.polygons as u32, old);
        self.sides.link(first as u32, second as u32, row, last);
        self.sides.tell_ring(n, unturned);
        self.sides.tell_ring(n + 1, turned);
        self.vertices.push_run(run);
        self.polygons += 1;
    }

    /// Adds an arc from the start of one side to that of another of the same ring, which becomes two rings: what came before the first side leads to the new unturned side and on to the second, and what came before the second leads to the new turned side and on to the first. Where both are one side, the turned side is a ring alone and the unturned one is put before the given side. The ring of the named new side gets a new polygon.
    /// 20 for no such side; then 27 when the two stand in two rings; then 21 for under two vertices or a coordinate that is not finite; then 28 when the run's ends lie elsewhere than those starts; then 22 for no room for the arc or the run.
    pub fn divide(
        &mut self,
        first: usize,
        second: usize,
        run: &[Vertex],
        named: ArcSide,
    ) -> Result<(), Refusal>
        ensures edited { Edited (λ m. divide_outcome m first second run.now named) self.old self.new result }
        ensures rings { OnOk result (RingDivided (state_of self.old) (state_of self.new) first second named) }
        ensures sum { OnOk result (Rises 0 (state_of self.old) (state_of self.new)) }
    {
        if !self.share_ring(first, second)? {
            return Err(Refusal::SidesInTwoRings);
        }
        if !makes_an_arc(run) {
            return Err(Refusal::UnfitRun);
        }
        if !self.is_led(first, second, run)? {
            return Err(Refusal::RunEndsElsewhere);
        }
        if !self.has_room(run.len()) {
            return Err(Refusal::NoRoom);
        }
        self.divide_ring(first, second, run, named);
        Ok(())
    }
}
