// The listing of one ring through all sides, for the benchmark's Rust program.
ghost use Rattle.std.specs.Prelude.{◌≡◌, length};
ghost use Rattle.topology.specs.States.{state_of};
ghost use Rattle.topology.specs.Edited.{answered};
ghost use Rattle.bench_export.specs.Nestings.{size_or_refused, listed_size, listed_leaves};
ghost use Rattle.bench_export.specs.Paths.{path_outcome, path};

use super::nests::list_again;
use super::sheets::{Place, make_sheet};
use refusal::Refusal;
use topology::hand::Hand;
use topology::map::Map;
use topology::side::Side;
use topology::vertex::Vertex;

// Makes an island round places, parts it at one vertex after the other, and dissolves its first arc.
fn make_path(
    map: &mut Map<'_>,
    room: &mut [Vertex],
    places: &[Place],
    cuts: &[usize],
) -> Result<(), Refusal>
    ensures { answered result (state_of map.new) ≡ path_outcome (length room.old) places.now cuts.now (state_of map.old) }
{
    make_sheet(map, room, 1, places, cuts)?;
    map.dissolve(0)
}

// Makes a path of arcs, lists it, and before that so many times more.
fn list_path(
    places: &[Place],
    cuts: &[usize],
    again: usize,
    out: &mut [u8],
) -> Result<usize, Refusal>
    ensures size { size_or_refused result ≡ listed_size (length out.old) (path places.now cuts.now) }
    ensures leaves { out.new ≡ listed_leaves out.old (path places.now cuts.now) }
{
    let mut sides = [Side::default(); 32768];
    let mut vertices = [Vertex::default(); 65536];
    let mut room = [Vertex::default(); 32768];
    let mut map = Map::start(Hand::Right, &mut sides, &mut vertices);
    make_path(&mut map, &mut room, places, cuts)?;
    list_again(&map, again, out)
}

/// Makes an island round places, parts it at one vertex after the other and dissolves the first arc, so that a path is left and one ring goes through all sides; lists it, and before that so many times more. Answers how long the listing is; the largest number when an edit or the listing is refused.
#[unsafe(no_mangle)]
pub extern "C" fn natharqo_list_path(
    places: &[Place],
    cuts: &[usize],
    again: usize,
    out: &mut [u8],
) -> u64
    ensures size { result ≡ listed_size (length out.old) (path places.now cuts.now) }
    ensures leaves { out.new ≡ listed_leaves out.old (path places.now cuts.now) }
{
    // Stays: C has no Result, so the largest number stands for a refusal.
    list_path(places, cuts, again, out).map_or(u64::MAX, |size| size as u64)
}
