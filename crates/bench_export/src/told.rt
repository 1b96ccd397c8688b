// What a map answers about its sides, for the benchmark's Rust program.
ghost use Rattle.std.specs.Prelude.{◌≡◌};
ghost use Rattle.topology.specs.States.{state_of};
ghost use Rattle.bench_export.specs.Telling.{told_about, told_after};

use refusal::Refusal;
use topology::map::Map;

/// What a map answers about a side, and how many vertices its arc has.
#[repr(C)]
#[derive(Clone, Copy)]
pub struct SideTold {
    pub node: usize,
    pub polygon: usize,
    pub next: usize,
    pub lowest: usize,
    pub vertices: usize,
}

// Asks a map about a side.
fn ask(map: &Map<'_>, side: usize) -> Result<SideTold, Refusal>
    ensures { result ≡ told_about (state_of map.now) side }
{
    Ok(SideTold {
        node: map.first_node(side)?,
        polygon: map.polygon(side)?,
        next: map.next(side)?,
        lowest: map.lowest(side)?,
        vertices: map.vertex_count(side / 2)?,
    })
}

// Tells what the map answers about the sides from 0 on, as far as there are sides and rows.
pub(crate) fn tell(map: &Map<'_>, told: &mut [SideTold])
    ensures { told.new ≡ told_after (state_of map.now) told.old }
{
    for (side, row) in told.iter_mut().enumerate() {
        *row = ask(map, side).unwrap_or(*row);
    }
}
