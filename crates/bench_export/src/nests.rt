// A listing, for the benchmark's Rust program.
ghost use Rattle.std.specs.Prelude.{◌≡◌, ℕ, length};
ghost use Rattle.topology.specs.States.{state_of};
ghost use Rattle.topology.specs.Edited.{answered};
ghost use Rattle.listing.specs.Texts.{listing, text_outcome, text_leaves};
ghost use Rattle.bench_export.specs.Nestings.{triangle, nested, size_or_refused, listed_size, listed_leaves, nest};

use listing::list;
use refusal::Refusal;
use topology::hand::Hand;
use topology::map::Map;
use topology::side::Side;
use topology::vertex::Vertex;

// Around a triangle.
fn around() -> [Vertex; 4]
    ensures { result ≡ triangle }
{
    [
        Vertex { x: 0.0, y: 0.0 },
        Vertex { x: 0.0, y: 1.0 },
        Vertex { x: 1.0, y: 0.0 },
        Vertex { x: 0.0, y: 0.0 },
    ]
}

// Adds so many islands to a map, each in the polygon of the one before.
// Stays: the polygons are numbers, and no slice is gone through; `try_for_each` over the same range, with a closure that writes the map, is no plainer.
fn add_nested(map: &mut Map<'_>, islands: usize) -> Result<(), Refusal>
    ensures { answered result (state_of map.new) ≡ nested islands (state_of map.old) }
{
    for k in 0..islands {
        map.island(k, &around())?;
    }
    Ok(())
}

// Lists a map, and before that so many times more.
// Stays: it is done so many times, and nothing is gone through; `for_each` over the same range, with a closure that writes the text, is no plainer.
pub(crate) fn list_again(map: &Map<'_>, again: usize, out: &mut [u8]) -> Result<usize, Refusal>
    ensures answer { result ≡ text_outcome (listing (state_of map.now)) (length out.old) }
    ensures leaves { out.new ≡ text_leaves (listing (state_of map.now)) out.old }
{
    for _i in 0..again {
        let _ = list(map, out);
    }
    list(map, out)
}

// Makes a map of so many nested islands, lists it, and before that so many times more.
fn list_nested(islands: usize, again: usize, out: &mut [u8]) -> Result<usize, Refusal>
    ensures size { size_or_refused result ≡ listed_size (length out.old) (nest islands) }
    ensures leaves { out.new ≡ listed_leaves out.old (nest islands) }
{
    let mut sides = [Side::default(); 32768];
    let mut vertices = [Vertex::default(); 65536];
    let mut map = Map::start(Hand::Right, &mut sides, &mut vertices);
    add_nested(&mut map, islands)?;
    list_again(&map, again, out)
}

/// Makes a map of so many nested islands, lists it, and before that so many times more. Answers how long the listing is; the largest number when an island or the listing is refused.
#[unsafe(no_mangle)]
pub extern "C" fn natharqo_list_nested(islands: usize, again: usize, out: &mut [u8]) -> u64
    ensures size { result ≡ listed_size (length out.old) (nest islands) }
    ensures leaves { out.new ≡ listed_leaves out.old (nest islands) }
{
    // Stays: C has no Result, so the largest number stands for a refusal.
    list_nested(islands, again, out).map_or(u64::MAX, |size| size as u64)
}
