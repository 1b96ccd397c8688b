// The search, the listing and edits in pairs, for the benchmarks' Rust programs.
#![tactic(auto)]

ghost use Rattle.std.specs.Prelude.{◌≡◌, unwrap_or};
ghost use Rattle.bench_export.specs.Meetings.{among, arcs_meeting, refused_count};

pub mod nests;
pub mod pairs;
pub mod paths;
pub mod sheets;
pub mod told;

use boxes::bounds::Bounds;
use boxes::edges::Edges;
use records::record_kinds::Arcs;
use records::records::Records;
use tables::tables::count_meeting;
use views::view::View;

// How many arcs of a table meet a window, where the window is not refused.
fn meeting(table: &Records<'_, Arcs>, edges: Edges) -> Option<usize>
    ensures { unwrap_or result refused_count ≡ among table.now.file.now table.now.shape edges }
{
    let window = Bounds::new(edges).ok()?;
    Some(count_meeting(table, &window))
}

/// How many arcs of an ARC file meet a window; the largest number when the file or the window is refused.
#[unsafe(no_mangle)]
pub extern "C" fn natharqo_arcs_meeting(
    file: &[u8],
    minx: f64,
    maxx: f64,
    miny: f64,
    maxy: f64,
) -> u64
    ensures { result ≡ arcs_meeting file.now (record { minx = minx; maxx = maxx; miny = miny; maxy = maxy }) }
{
    let edges = Edges {
        minx,
        maxx,
        miny,
        maxy,
    };
    let count = match View::new('A', file, 0) {
        Ok(View::OfArcs(table)) => meeting(&table, edges),
        _ => None,
    };
    // Stays: C has no Option, so the largest number stands for a refusal.
    count.map_or(u64::MAX, |n| n as u64)
}
