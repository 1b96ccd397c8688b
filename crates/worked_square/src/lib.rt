// A square that is worked out by hand: calls on a blank map, what each answers, and how the map lists after it.
#![tactic(auto)]

ghost use Rattle.std.specs.Prelude.{◌≡◌, ℕ, length, map as each, Ok};
ghost use Rattle.topology.specs.Islands.{island_outcome};
ghost use Rattle.listing.specs.Texts.{listing, text_outcome, text_leaves};
ghost use Rattle.calls.specs.Outcomes.{with_run};
ghost use Rattle.worked_square.specs.Squares.{square, diagonal, lines, call_of, start, Worked, blank_text, square_after, text_after};

use calls::answer::Answer;
use calls::call::Call;
use history::replaying::replay;
use listing::list;
use refusal::Refusal;
use topology::arc_side::ArcSide;
use topology::hand::Hand;
use topology::map::Map;
use topology::side::Side;
use topology::vertex::Vertex;

// How many calls the working has.
const CALLS: usize = 9;

// Around the square.
fn around() -> [Vertex; 5]
    ensures { result ≡ square }
{
    [
        Vertex { x: 0.0, y: 0.0 },
        Vertex { x: 0.0, y: 10.0 },
        Vertex { x: 10.0, y: 10.0 },
        Vertex { x: 10.0, y: 0.0 },
        Vertex { x: 0.0, y: 0.0 },
    ]
}

// Across it.
fn across() -> [Vertex; 2]
    ensures { result ≡ diagonal }
{
    [Vertex { x: 0.0, y: 0.0 }, Vertex { x: 10.0, y: 10.0 }]
}

// The calls of the working, in its order, given the run around the square and the one across it.
fn calls<'a>(around: &'a [Vertex], across: &'a [Vertex]) -> [Call<&'a [Vertex]>; CALLS]
    requires around { around.now ≡ square }
    requires across { across.now ≡ diagonal }
    ensures { each (with_run (λ run. run.now)) result ≡ each call_of lines }
{
    [
        Call::Island {
            polygon: 0,
            run: around,
        },
        Call::Dissolve { arc: 0 },
        Call::Join { node: 0 },
        Call::Split { arc: 0, vertex: 0 },
        Call::Split { arc: 0, vertex: 4 },
        Call::Split { arc: 0, vertex: 2 },
        Call::Lift { arc: 0 },
        Call::Divide {
            first: 0,
            second: 2,
            run: across,
            named: ArcSide::Unturned,
        },
        Call::Dissolve { arc: 0 },
    ]
}

/// Works the square out by so many calls (all of them when there are not so many) and lists the map.
pub fn worked_square(steps: usize, out: &mut [u8]) -> Result<usize, Refusal>
    ensures answer { result ≡ text_outcome (text_after steps) (length out.old) }
    ensures leaves { out.new ≡ text_leaves (text_after steps) out.old }
    ensures worked { Worked start blank_text lines }
    ensures island { island_outcome (square_after 0) 0 square ≡ Ok (square_after 1) }
    ensures listed { (k : ℕ) → listing (square_after k) ≡ text_after k }
{
    let mut sides = [Side::default(); 16];
    let mut vertices = [Vertex::default(); 64];
    let mut map = Map::start(Hand::Right, &mut sides, &mut vertices);
    let (around, across) = (around(), across());
    let calls = calls(&around, &across);
    let mut told = [Ok(Answer::Done); CALLS];
    replay(&mut map, &calls[..steps.min(CALLS)], &mut [], &mut told)?;
    list(&map, out)
}

#[cfg(test)]
mod tests {
    use super::*;
    use std::test::Fail;

    #[test]
    fn lists_the_blank_map(rt: HostRuntime) -> Result<(), Fail> {
        let mut out = [33; 36];
        assert!(rt; worked_square(0, &mut out)? == 34);
        assert!(rt; &out == b"arcs 0 nodes 0 polygons 1 rings 0\n!!");
        Ok(())
    }

    #[test]
    fn lists_the_island(rt: HostRuntime) -> Result<(), Fail> {
        let mut out = [33; 48];
        assert!(rt; worked_square(1, &mut out)? == 46);
        assert!(rt; &out == b"arcs 1 nodes 1 polygons 2 rings 2\n1: 0+\n0: 0-\n!!");
        Ok(())
    }

    #[test]
    fn lists_the_split(rt: HostRuntime) -> Result<(), Fail> {
        let mut out = [33; 54];
        assert!(rt; worked_square(6, &mut out)? == 52);
        assert!(rt; &out == b"arcs 2 nodes 2 polygons 2 rings 2\n1: 0+ 1+\n0: 0- 1-\n!!");
        Ok(())
    }

    #[test]
    fn lists_the_division(rt: HostRuntime) -> Result<(), Fail> {
        let mut out = [33; 63];
        assert!(rt; worked_square(8, &mut out)? == 61);
        assert!(rt; &out == b"arcs 3 nodes 2 polygons 3 rings 3\n1: 0+ 2-\n0: 0- 1-\n2: 1+ 2+\n!!");
        Ok(())
    }

    #[test]
    fn lists_the_dissolve_after_all_calls(rt: HostRuntime) -> Result<(), Fail> {
        let mut out = [33; 54];
        assert!(rt; worked_square(10, &mut out)? == 52);
        assert!(rt; &out == b"arcs 2 nodes 2 polygons 2 rings 2\n1: 0+ 1+\n0: 0- 1-\n!!");
        Ok(())
    }
}
