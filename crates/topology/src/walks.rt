ghost use Rattle.std.specs.Prelude.{◌≡◌, ◌%◌, ◌<◌, length, option_map};
ghost use Rattle.std.specs.List.{slice_get};
ghost use Rattle.rings.specs.Circles.{kept};
ghost use Rattle.topology.specs.Rows.{next_of, polygon_of, tells};
ghost use Rattle.topology.specs.MapLaw.{InTurns};

use super::side::Side;
use rings::opposite;
use std::iter::successors;

// How many sides are the lowest of their ring.
pub(crate) fn count_starts(sides: &[Side]) -> usize
    ensures { result ≡ length (kept (tells sides.now) (length sides.now)) }
{
    // Stays: std's `count` goes through `filter` one step at a time, and took three times as long.
    let mut n = 0;
    for (s, side) in sides.iter().enumerate() {
        if side.low as usize == s {
            n += 1;
        }
    }
    n
}

// The polygon and the lowest side of the k-th ring, where there are so many.
pub(crate) fn find_ring(sides: &[Side], k: usize) -> Option<(usize, usize)>
    ensures { result ≡ option_map (λ s. (polygon_of sides.now s, s)) (slice_get (kept (tells sides.now) (length sides.now)) k) }
{
    // Stays: std's `nth` goes through `filter` one step at a time, and took a third longer.
    let mut n = 0;
    for (at, side) in sides.iter().enumerate() {
        if side.low as usize == at {
            if n == k {
                return Some((side.polygon as usize, at));
            }
            n += 1;
        }
    }
    None
}

// The side that comes before a side in its ring, found by turning about the node where the side begins.
// Stays: the chain is that of `lowest_beside` along other links. One function for both, with a closure that leads on and one that folds, was tried and is no plainer: its contract tells what both closures answer, in a definition longer than the chain, and three of its goals ask when they may be called.
pub(crate) fn before(sides: &[Side], side: u32) -> u32
    requires turned { InTurns sides.now (length sides.now) }
    requires even { length sides.now % 2 ≡ 0 }
    requires here { side < length sides.now }
    ensures low { result < length sides.now }
    ensures leads { next_of sides.now result ≡ side }
{
    let first = sides[opposite(side) as usize].next;
    let last = successors(Some(first), |at| {
        sides.get(opposite(*at) as usize).map(|side| side.next)
    })
    .take(sides.len())
    .take_while(|at| *at != side)
    .fold(side, |_, at| at);
    opposite(last)
}
