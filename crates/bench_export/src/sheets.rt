// Sheets of islands, for the benchmark's Rust program.
ghost use Rattle.std.specs.Prelude.{◌≡◌, ℕ, ◌+◌, map as each, length, take, drop, ◌++◌};
ghost use Rattle.topology.specs.States.{state_of};
ghost use Rattle.topology.specs.Edited.{answered};
ghost use Rattle.bench_export.specs.Sheets.{vertex_of, parted, islands_outcome, sheet_outcome};

use refusal::Refusal;
use topology::map::Map;
use topology::vertex::Vertex;

/// A place, for a caller in another language.
// Stays: the caller in C wants the layout of C, which `Vertex`, with the same two fields, does not promise.
#[repr(C)]
#[derive(Clone, Copy)]
pub struct Place {
    pub x: f64,
    pub y: f64,
}

impl From<Place> for Vertex {
    ghost from_gives = { λ place vertex. vertex ≡ vertex_of place };

    fn from(place: Place) -> Self {
        Self {
            x: place.x,
            y: place.y,
        }
    }
}

// Puts a vertex at each place.
fn put_vertices(places: &[Place], run: &mut [Vertex])
    requires { length run.old ≡ length places.now }
    ensures { run.new ≡ each vertex_of places.now }
{
    // Stays: tried, and the proof did not close: a zip of run.iter_mut() with the places leaves no fact about what was written to the run.
    for (k, place) in places.iter().enumerate() {
        run[k] = Vertex::from(*place);
    }
}

// Splits an arc at one vertex after the other.
fn part(map: &mut Map<'_>, arc: usize, cuts: &[usize]) -> Result<(), Refusal>
    ensures { answered result (state_of map.new) ≡ parted arc cuts.now (state_of map.old) }
{
    for k in cuts {
        map.split(arc, *k)?;
    }
    Ok(())
}

// Adds so many islands of one run, each in the polygon of the one before, and parts each.
fn add_islands(
    map: &mut Map<'_>,
    islands: usize,
    run: &[Vertex],
    cuts: &[usize],
) -> Result<(), Refusal>
    ensures { answered result (state_of map.new) ≡ islands_outcome 0 islands run.now cuts.now (state_of map.old) }
{
    // Stays: the polygons are numbers, and no slice is gone through; `try_for_each` over the same range, with a closure that writes the map, is no plainer.
    for k in 0..islands {
        let arc = map.arcs();
        map.island(k, run)?;
        part(map, arc, cuts)?;
    }
    Ok(())
}

// Adds so many islands round places, each in the polygon of the one before, and parts each. 22 where the room for the run is shorter than that.
pub(crate) fn make_sheet(
    map: &mut Map<'_>,
    room: &mut [Vertex],
    islands: usize,
    places: &[Place],
    cuts: &[usize],
) -> Result<(), Refusal>
    ensures { answered result (state_of map.new) ≡ sheet_outcome (length room.old) islands places.now cuts.now (state_of map.old) }
{
    if places.len() > room.len() {
        return Err(Refusal::NoRoom);
    }
    let run = &mut room[..places.len()];
    put_vertices(places, run);
    add_islands(map, islands, run, cuts)
}
