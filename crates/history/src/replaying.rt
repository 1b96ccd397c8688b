ghost use Rattle.std.specs.Prelude.{◌≡◌, length, take, map as each, OnOk};
ghost use Rattle.topology.specs.States.{state_of};
ghost use Rattle.calls.specs.Outcomes.{with_run};
ghost use Rattle.history.specs.Runs.{Replayed, PlayedEach};
ghost use Rattle.history.specs.Law.{HistoryLaw, Lasts};

use calls::answer::Answer;
use calls::call::Call;
use calls::playing::play;
use refusal::Refusal;
use std::convert::AsSlice;
use topology::map::Map;
use topology::vertex::Vertex;

/// Plays calls on a map, one after the other, each finding what the one before it left, and tells the answer to each.
/// 31 when there is no room for all answers; then nothing is played.
pub fn replay<R: AsSlice<Vertex>>(
    map: &mut Map,
    calls: &[Call<R>],
    text: &mut [u8],
    told: &mut [Result<Answer, Refusal>],
) -> Result<(), Refusal>
    ensures replayed { Replayed (each (with_run R.items) calls.now) map.old map.new text.old text.new told.old told.new result }
    ensures each { OnOk result (PlayedEach (each (with_run R.items) calls.now) map.old map.new text.old text.new (take (length calls.now) told.new)) }
    ensures lasts { OnOk result (Lasts (each (with_run R.items) calls.now) (state_of map.old) text.old (state_of map.new)) }
    ensures law { HistoryLaw }
{
    if told.len() < calls.len() {
        return Err(Refusal::DoesNotFit);
    }
    // Stays: tried, and the proof did not close: a zip of the calls with told.iter_mut() leaves no fact about what was written to told.
    for (i, call) in calls.iter().enumerate() {
        told[i] = play(map, call, text);
    }
    Ok(())
}
