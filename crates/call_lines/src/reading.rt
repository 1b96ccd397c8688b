ghost use Rattle.std.specs.Prelude.{◌≡◌, IfOk};
ghost use Rattle.call_lines.specs.declared.expected.Expected.TheVariants.{IslandCall, DivideCall};
ghost use Rattle.line_words.specs.LineWords.{texts, words_of};
ghost use Rattle.call_lines.specs.Spoken.{one, two, named_side, division_sides, passes, runless_call, call_of, spoken, SaysCall, Says};

use super::expected::Expected;
use super::fault::LineFault;
use super::vertices::read_run;
use calls::call::Call;
use line_words::splitting::split_words;
use line_words::texts::{after, text_at};
use std::alloc::{AllocError, Global};
use topology::arc_side::ArcSide;
use topology::vertex::Vertex;
use words::number;

// The one whole number after the first word.
fn one_number(words: &[String]) -> Option<usize>
    ensures { result ≡ one (texts words.now) }
{
    let [_, word] = words else {
        return None;
    };
    number(word.as_str())
}

// The two whole numbers after the first word.
fn two_numbers(words: &[String]) -> Option<(usize, usize)>
    ensures { result ≡ two (texts words.now) }
{
    let [_, first, second] = words else {
        return None;
    };
    Some((number(first.as_str())?, number(second.as_str())?))
}

// Whether a line with this first word is passed over.
fn passes(word: &str) -> bool
    ensures { result ≡ passes word.now }
{
    word.is_empty() || word.starts_with('#')
}

// The new side of a division that a word names: + for the unturned one, - for the turned one.
// Stays: `FromStr` or `TryFrom` for `ArcSide` would have to stand in `topology`, beside the type, where no word is read; a type of our own around it, for one call, is no plainer.
fn named_side(word: &str) -> Option<ArcSide>
    ensures { result ≡ named_side word.now }
{
    match word {
        "+" => Some(ArcSide::Unturned),
        "-" => Some(ArcSide::Turned),
        _ => None,
    }
}

// The two sides and the named new side after the first word.
fn division_sides(words: &[String]) -> Option<(usize, usize, ArcSide)>
    ensures { result ≡ division_sides (texts words.now) }
{
    Some((
        number(text_at(words, 1))?,
        number(text_at(words, 2))?,
        named_side(text_at(words, 3))?,
    ))
}

// An island: a polygon, and then the vertices of a run.
// Stays: here and in `read_division` the run is read only after the words before it, and for want of memory that can fail; `map` with `transpose` and `flatten`, one closure in another, is no plainer.
fn read_island(heap: Global, words: &[String]) -> Result<Option<Call<Vec<Vertex>>>, AllocError>
    ensures { IfOk result (λ o. SaysCall (call_of IslandCall (texts words.now)) o) }
{
    let Some(polygon) = number(text_at(words, 1)) else {
        return Ok(None);
    };
    Ok(read_run(heap, after(words, 2))?.map(|run| Call::Island { polygon, run }))
}

// A division: two sides and the named new side, and then the vertices of a run.
fn read_division(heap: Global, words: &[String]) -> Result<Option<Call<Vec<Vertex>>>, AllocError>
    ensures { IfOk result (λ o. SaysCall (call_of DivideCall (texts words.now)) o) }
{
    let Some((first, second, named)) = division_sides(words) else {
        return Ok(None);
    };
    Ok(read_run(heap, after(words, 4))?.map(|run| Call::Divide {
        first,
        second,
        run,
        named,
    }))
}

// The call without a run that words make, the first of them known.
fn runless_call(verb: Expected, words: &[String]) -> Option<Call<Vec<Vertex>>>
    ensures { result ≡ runless_call verb (texts words.now) }
{
    match verb {
        Expected::LiftCall => one_number(words).map(|arc| Call::Lift { arc }),
        Expected::SplitCall => two_numbers(words).map(|(arc, vertex)| Call::Split { arc, vertex }),
        Expected::DissolveCall => one_number(words).map(|arc| Call::Dissolve { arc }),
        Expected::JoinCall => one_number(words).map(|node| Call::Join { node }),
        Expected::ListCall => (words.len() == 1).then_some(Call::List),
        Expected::CountsCall => (words.len() == 1).then_some(Call::Counts),
        Expected::RingCall => one_number(words).map(|ring| Call::Ring { ring }),
        Expected::SideCall => one_number(words).map(|side| Call::Side { side }),
        Expected::ArcCall => one_number(words).map(|arc| Call::Arc { arc }),
        Expected::VertexCall => {
            two_numbers(words).map(|(arc, vertex)| Call::Vertex { arc, vertex })
        }
        Expected::AnyCall | Expected::IslandCall | Expected::DivideCall => None,
    }
}

// The call that words make, the first of them known.
fn read_call(
    heap: Global,
    verb: Expected,
    words: &[String],
) -> Result<Option<Call<Vec<Vertex>>>, AllocError>
    ensures { IfOk result (λ o. SaysCall (call_of verb (texts words.now)) o) }
{
    match verb {
        Expected::IslandCall => read_island(heap, words),
        Expected::DivideCall => read_division(heap, words),
        _ => Ok(runless_call(verb, words)),
    }
}

/// The call that a line says, and none where it has no word or its first word begins with #. A line that is no such call has to be the one that its first word names.
pub fn read_line(heap: Global, line: &str) -> Result<Option<Call<Vec<Vertex>>>, LineFault>
    ensures { Says (spoken (words_of line.now)) result }
{
    let words = split_words(heap, line)?;
    let first = text_at(words.as_slice(), 0);
    if passes(first) {
        return Ok(None);
    }
    let verb = Expected::from(first);
    let call = read_call(heap, verb, words.as_slice())?;
    Ok(Some(call.ok_or(LineFault::NoCall(verb))?))
}
