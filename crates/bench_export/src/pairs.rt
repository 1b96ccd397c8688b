// Edits in pairs, the second of the kind that undoes the first, for the benchmark's Rust program.
ghost use Rattle.std.specs.Prelude.{◌≡◌, Result, length};
ghost use Rattle.refusal.specs.declared.Refusal.{Refusal};
ghost use Rattle.topology.specs.States.{State, state_of};
ghost use Rattle.topology.specs.Edited.{answered};
ghost use Rattle.bench_export.specs.Nestings.{size_or_refused, listed_size, listed_leaves};
ghost use Rattle.bench_export.specs.Pairs.{divide_between, chord_outcome, parting_outcome, pairs_outcome, pair_sheet, chord_sheet, parted_sheet, sheet_told};

use super::sheets::{Place, make_sheet};
use super::told::{SideTold, tell};
use listing::list;
use refusal::Refusal;
use topology::arc_side::ArcSide;
use topology::hand::Hand;
use topology::map::Map;
use topology::side::Side;
use topology::vertex::Vertex;

// An edit and, after it, one of the kind that undoes it.
trait Pair {
    ghost outcome: { Self → State → Result State Refusal };

    fn play(&self, map: &mut Map<'_>) -> Result<(), Refusal>
        ensures { answered result (state_of map.new) ≡ outcome self.now (state_of map.old) };
}

/// A straight arc from the start of one arc to that of another, and the arc that is dissolved once it is there.
#[repr(C)]
#[derive(Clone, Copy)]
pub struct Chord {
    pub from: u32,
    pub to: u32,
    pub gone: u32,
}

// Divides a ring by a straight arc between the starts of two arcs. The unturned side of that arc gets the new polygon.
fn divide(map: &mut Map<'_>, chord: Chord) -> Result<(), Refusal>
    ensures { answered result (state_of map.new) ≡ divide_between chord.from chord.to (state_of map.old) }
{
    let from = chord.from as usize;
    let to = chord.to as usize;
    let run = [map.vertex(from, 0)?, map.vertex(to, 0)?];
    map.divide(from + from, to + to, &run, ArcSide::Unturned)
}

// Divides a ring by a chord, and dissolves an arc.
impl Pair for Chord {
    ghost outcome = { chord_outcome };

    fn play(&self, map: &mut Map<'_>) -> Result<(), Refusal> {
        divide(map, *self)?;
        map.dissolve(self.gone as usize)
    }
}

/// An arc that is split at a vertex, and the node where two arcs are joined once it is.
#[repr(C)]
#[derive(Clone, Copy)]
pub struct Parting {
    pub arc: usize,
    pub vertex: usize,
    pub node: usize,
}

// Splits an arc, and joins the two at a node.
impl Pair for Parting {
    ghost outcome = { parting_outcome };

    fn play(&self, map: &mut Map<'_>) -> Result<(), Refusal> {
        map.split(self.arc, self.vertex)?;
        map.join(self.node)
    }
}

// Edits, pair after pair.
fn play_pairs<P: Pair>(map: &mut Map<'_>, pairs: &[P]) -> Result<(), Refusal>
    ensures { answered result (state_of map.new) ≡ pairs_outcome P.outcome pairs.now (state_of map.old) }
{
    for pair in pairs {
        pair.play(map)?;
    }
    Ok(())
}

// Makes a sheet, edits it in pairs, tells each side and lists the map.
fn edit_sheet<P: Pair>(
    islands: usize,
    places: &[Place],
    cuts: &[usize],
    pairs: &[P],
    out: &mut [u8],
    told: &mut [SideTold],
) -> Result<usize, Refusal>
    ensures size { size_or_refused result ≡ listed_size (length out.old) (pair_sheet P.outcome islands places.now cuts.now pairs.now) }
    ensures leaves { out.new ≡ listed_leaves out.old (pair_sheet P.outcome islands places.now cuts.now pairs.now) }
    ensures told { told.new ≡ sheet_told told.old (pair_sheet P.outcome islands places.now cuts.now pairs.now) }
{
    let mut sides = [Side::default(); 32768];
    let mut vertices = [Vertex::default(); 131072];
    let mut room = [Vertex::default(); 65536];
    let mut map = Map::start(Hand::Right, &mut sides, &mut vertices);
    make_sheet(&mut map, &mut room, islands, places, cuts)?;
    play_pairs(&mut map, pairs)?;
    tell(&map, told);
    list(&map, out)
}

/// Makes a sheet of so many islands round places, each in the polygon of the one before and parted at the same vertices; divides and dissolves, chord after chord; tells what the map then answers about each side, and lists it. Answers how long the listing is; the largest number when an edit or the listing is refused.
#[unsafe(no_mangle)]
pub extern "C" fn natharqo_divide_and_dissolve(
    islands: usize,
    places: &[Place],
    cuts: &[usize],
    chords: &[Chord],
    out: &mut [u8],
    told: &mut [SideTold],
) -> u64
    ensures size { result ≡ listed_size (length out.old) (chord_sheet islands places.now cuts.now chords.now) }
    ensures leaves { out.new ≡ listed_leaves out.old (chord_sheet islands places.now cuts.now chords.now) }
    ensures told { told.new ≡ sheet_told told.old (chord_sheet islands places.now cuts.now chords.now) }
{
    // Stays: C has no Result, so the largest number stands for a refusal.
    edit_sheet(islands, places, cuts, chords, out, told).map_or(u64::MAX, |size| size as u64)
}

/// Makes a sheet of so many islands round places, each in the polygon of the one before and parted at the same vertices; splits and joins, parting after parting; tells what the map then answers about each side, and lists it. Answers how long the listing is; the largest number when an edit or the listing is refused.
#[unsafe(no_mangle)]
pub extern "C" fn natharqo_split_and_join(
    islands: usize,
    places: &[Place],
    cuts: &[usize],
    partings: &[Parting],
    out: &mut [u8],
    told: &mut [SideTold],
) -> u64
    ensures size { result ≡ listed_size (length out.old) (parted_sheet islands places.now cuts.now partings.now) }
    ensures leaves { out.new ≡ listed_leaves out.old (parted_sheet islands places.now cuts.now partings.now) }
    ensures told { told.new ≡ sheet_told told.old (parted_sheet islands places.now cuts.now partings.now) }
{
    // Stays: C has no Result, so the largest number stands for a refusal.
    edit_sheet(islands, places, cuts, partings, out, told).map_or(u64::MAX, |size| size as u64)
}
