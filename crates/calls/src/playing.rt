ghost use Rattle.std.specs.Prelude.{◌≡◌};
ghost use Rattle.topology.specs.States.{state_of};
ghost use Rattle.calls.specs.declared.answer.Answer.TheVariants.{Done};
ghost use Rattle.calls.specs.Outcomes.{told, side_answer, with_run, Played};

use super::answer::Answer;
use super::call::Call;
use listing::list;
use refusal::Refusal;
use std::convert::AsSlice;
use topology::map::Map;
use topology::vertex::Vertex;

// What an edit answers.
fn done(outcome: Result<(), Refusal>) -> Result<Answer, Refusal>
    ensures { result ≡ told (λ _. Done) outcome }
{
    outcome?;
    Ok(Answer::Done)
}

// The answer to the question about a side.
fn side_answer(map: &Map, side: usize) -> Result<Answer, Refusal>
    ensures { result ≡ side_answer (state_of map.now) side }
{
    Ok(Answer::Side {
        polygon: map.polygon(side)?,
        next: map.next(side)?,
        node: map.first_node(side)?,
    })
}

/// Plays a call on a map, and answers it. An edit that is refused and a question leave the map as it was. Only a listing writes to the text.
pub fn play<R: AsSlice<Vertex>>(
    map: &mut Map,
    call: &Call<R>,
    text: &mut [u8],
) -> Result<Answer, Refusal>
    ensures { Played (with_run R.items call.now) map.old map.new text.old text.new result }
{
    match call {
        Call::Island { polygon, run } => done(map.island(*polygon, run.as_slice())),
        Call::Lift { arc } => done(map.lift(*arc)),
        Call::Split { arc, vertex } => done(map.split(*arc, *vertex)),
        Call::Divide {
            first,
            second,
            run,
            named,
        } => done(map.divide(*first, *second, run.as_slice(), *named)),
        Call::Dissolve { arc } => done(map.dissolve(*arc)),
        Call::Join { node } => done(map.join(*node)),
        Call::List => list(map, text).map(Answer::Listed),
        Call::Counts => Ok(Answer::Counts {
            arcs: map.arcs(),
            nodes: map.node_count(),
            polygons: map.polygon_count(),
            rings: map.ring_count(),
        }),
        Call::Ring { ring } => map
            .ring(*ring)
            .map(|(polygon, side)| Answer::Ring { polygon, side }),
        Call::Side { side } => side_answer(map, *side),
        Call::Arc { arc } => map
            .vertex_count(*arc)
            .map(|vertices| Answer::Arc { vertices }),
        Call::Vertex { arc, vertex } => map.vertex(*arc, *vertex).map(Answer::Vertex),
    }
}
