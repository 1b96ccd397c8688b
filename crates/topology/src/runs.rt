ghost use Rattle.std.specs.Prelude.{◌≡◌, ℕ, ◌-◌, ◌<◌, true, length};
ghost use Rattle.topology.specs.Rows.{no_vertex, good, same_place};
ghost use Rattle.topology.specs.Islands.{all_good, closed_run};

use super::vertex::Vertex;

impl Vertex {
    /// Whether both coordinates are finite.
    pub fn is_finite(self) -> bool
        ensures { result ≡ good self }
    {
        self.x.is_finite() && self.y.is_finite()
    }

    /// Whether two vertices share a place: both doubles compare equal.
    pub fn shares_place(self, other: Vertex) -> bool
        ensures { result ≡ same_place self other }
    {
        self == other
    }
}

// Whether every vertex of a run is finite.
pub(crate) fn all_finite(run: &[Vertex]) -> bool
    ensures { result ≡ all_good run.now }
{
    run.iter().all(|vertex| vertex.is_finite())
}

// Whether a run makes a closed arc.
pub(crate) fn closes(run: &[Vertex]) -> bool
    ensures { result ≡ closed_run run.now }
{
    run.len() >= 4 && run.first() == run.last() && all_finite(run)
}
