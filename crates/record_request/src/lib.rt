// A request for the records of a file, in the words of a command line.
#![tactic(auto)]

ghost use Rattle.std.specs.Prelude.{◌≡◌, IfOk, IfErr, None, false, is_some, is_ok, Some};
ghost use Rattle.std.specs.Float.Parse.{is_float_text};
ghost use Rattle.words.specs.Words.{Decimal};
ghost use Rattle.line_words.specs.LineWords.{texts, word};
ghost use Rattle.record_request.specs.Requests.{arcs_option, corners, WindowGiven, is_new, options, Gives, asked, Answers};

use boxes::edges::Edges;
use boxes::wording::NODES_HAVE_NO_BOXES;
use line_words::texts::{after, text_at};
use thiserror::Error;
use words::{character, decimal, whole};

/// A request for the records of a file.
#[derive(Clone, Copy)]
pub struct Request {
    pub letter: char,
    /// how many arcs the ARC of a POL has
    pub arcs: u64,
    pub window: Option<Edges>,
}

/// What is wrong with the words of a request.
#[derive(Clone, Copy, PartialEq, Eq, Debug, Error)]
pub enum Fault {
    #[error("usage: sheet_records LETTER FILE [--arcs N] [--window MIN_X MAX_X MIN_Y MAX_Y]")]
    Usage,
    #[error("the letter is one character: T, A, N or P")]
    Letter,
    #[error("--arcs takes a whole number from 0 to 18446744073709551615")]
    Arcs,
    #[error("--window takes four decimal numbers: MIN_X MAX_X MIN_Y MAX_Y")]
    Window,
    #[error("{}", NODES_HAVE_NO_BOXES)]
    NoBoxes,
}

// What the options of a request give.
#[derive(Clone, Copy, Default)]
struct Options {
    arcs: Option<u64>,
    window: Option<Edges>,
}

// How many arcs the first word says.
fn arcs_option(words: &[String]) -> Result<u64, Fault>
    ensures { result ≡ arcs_option (texts words.now) }
{
    whole(text_at(words, 0)).ok_or(Fault::Arcs)
}

// The decimal number that the word at a place says.
fn bound(words: &[String], at: usize) -> Result<f64, Fault>
    ensures said { IfOk result (λ x. Decimal (word (texts words.now) at) (Some x)) }
    ensures reads { is_ok result ≡ is_float_text (word (texts words.now) at) }
    ensures fault { IfErr result (λ f. f ≡ Fault.Window) }
{
    decimal(text_at(words, at)).ok_or(Fault::Window)
}

// The window that the first four words bound.
fn window_option(words: &[String]) -> Result<Edges, Fault>
    ensures { WindowGiven (corners (texts words.now)) result }
{
    Ok(Edges {
        minx: bound(words, 0)?,
        maxx: bound(words, 1)?,
        miny: bound(words, 2)?,
        maxy: bound(words, 3)?,
    })
}

// What the options give.
fn read_options(words: &[String]) -> Result<Options, Fault>
    ensures { Gives (options 0 false false (texts words.now)) result }
{
    let mut given = Options::default();
    let mut rest = words;
    while let Some((word, values)) = rest.split_first() {
        match word.as_str() {
            "--arcs" if given.arcs.is_none() => {
                given.arcs = Some(arcs_option(values)?);
                rest = after(values, 1);
            }
            "--window" if given.window.is_none() => {
                given.window = Some(window_option(values)?);
                rest = after(values, 4);
            }
            _ => return Err(Fault::Usage),
        }
    }
    Ok(given)
}

/// The request that the words after the program's name make: a letter, a file, and options in any order, each at most once.
/// The fault is Usage for less than two words, then Letter where the first is not one character; then the first fault in the options, in their order:
/// Usage for another word than an option that was not given before, Arcs where no whole number follows `--arcs`, Window where not four decimal numbers follow `--window`;
/// and then NoBoxes for nodes by window.
pub fn read_request(words: &[String]) -> Result<Request, Fault>
    ensures nodes { IfOk result (λ q. q.letter ≡ 78 → q.window ≡ None) }
    ensures answers { Answers (asked (texts words.now)) result }
{
    let [letter, _, rest @ ..] = words else {
        return Err(Fault::Usage);
    };
    let letter = character(letter.as_str()).ok_or(Fault::Letter)?;
    let given = read_options(rest)?;
    if letter == 'N' && given.window.is_some() {
        return Err(Fault::NoBoxes);
    }
    Ok(Request {
        letter,
        arcs: given.arcs.unwrap_or(0),
        window: given.window,
    })
}
