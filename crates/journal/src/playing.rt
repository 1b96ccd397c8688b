ghost use Rattle.std.specs.Prelude.{◌≡◌, IfOk, vec_items};
ghost use Rattle.topology.specs.States.{state_of};
ghost use Rattle.calls.specs.Outcomes.{with_run, Played};
ghost use Rattle.line_words.specs.LineWords.{words_of};
ghost use Rattle.call_lines.specs.Spoken.{spoken};
ghost use Rattle.journal.specs.Ends.{line_of};
ghost use Rattle.journal.specs.Steps.{room, Done, Stepped, SteppedBytes};

use super::ends::line_of;
use super::fault::PlayFault;
use answer_lines::fault::TextFault;
use answer_lines::lines::answer_text;
use call_lines::reading::read_line;
use calls::answer::Answer;
use calls::call::Call;
use history::replaying::replay;
use listing::listing_size;
use refusal::Refusal;
use std::alloc::Global;
use std::str::from_utf8;
use topology::map::Map;
use topology::vertex::Vertex;

// How much text a call wants.
fn room<R>(map: &Map, call: &Call<R>) -> usize
    ensures { result ≡ room call.now (state_of map.now) }
{
    match call {
        Call::List => listing_size(map),
        _ => 0,
    }
}

// Plays a call as a list of calls, and gives the answer to it.
fn play_one(map: &mut Map, call: Call<Vec<Vertex>>, text: &mut [u8]) -> Result<Answer, Refusal>
    ensures { Played (with_run vec_items call) map.old map.new text.old text.new result }
{
    let mut told = [Ok(Answer::Done)];
    replay(map, &[call], text, &mut told)?;
    let [answer] = told;
    answer
}

// Plays a call, and gives the text of its answer.
fn play_call(heap: Global, map: &mut Map, call: Call<Vec<Vertex>>) -> Result<Vec<u8>, TextFault>
    ensures { IfOk result (λ bs. Done (with_run vec_items call) map.old map.new bs.items) }
{
    let mut text = vec![in heap; 0; room(map, &call)]?;
    let answer = play_one(map, call, text.as_mut_slice());
    answer_text(heap, answer, text.as_slice())
}

/// Plays a line of a journal on a map, and gives the text of its answer. A line with no word, and one whose first word begins with #, is passed over; a line that is no call changes nothing.
pub fn play_line(heap: Global, map: &mut Map, line: &str) -> Result<Option<Vec<u8>>, PlayFault>
    ensures { Stepped (spoken (words_of line.now)) map.old map.new result }
{
    // Stays: tried, and the proof did not close: with `map` and `transpose` nothing is known of the map where the closure is not called.
    let Some(call) = read_line(heap, line)? else {
        return Ok(None);
    };
    Ok(Some(play_call(heap, map, call)?))
}

/// Plays a line as it stands in a file, with its end. A line that is not UTF-8 changes nothing.
pub fn play_bytes(heap: Global, map: &mut Map, bytes: &[u8]) -> Result<Option<Vec<u8>>, PlayFault>
    ensures { SteppedBytes (line_of bytes.now) map.old map.new result }
{
    play_line(heap, map, from_utf8(line_of(bytes))?)
}
