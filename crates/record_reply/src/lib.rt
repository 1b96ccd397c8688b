// The reply to the words of a request: the file that they name is read, and the request answered.
#![tactic(auto)]

ghost use Rattle.std.specs.Prelude.{◌≡◌, ℕ, List, Err, Ok, IfOk};
ghost use Rattle.record_reply.specs.declared.Failure.TheVariants.{Words, Unanswered as Failed};
ghost use Rattle.record_request.specs.declared.Fault.{Fault as FaultOf};
ghost use Rattle.record_request.specs.declared.Request.{Request as RequestOf};
ghost use Rattle.line_words.specs.LineWords.{texts};
ghost use Rattle.record_request.specs.Requests.{asked, Answers};
ghost use Rattle.record_answer.specs.Answers.{answer_outcome, Answered, Unreported};
ghost use Rattle.record_answer.specs.declared.unanswered.Unanswered.{Unanswered as UnansweredFor};

use record_answer::answers::answer;
use record_answer::unanswered::Unanswered;
use record_request::{Fault, read_request};
use std::fs::Files;
use std::{fs, io};
use thiserror::Error;

/// Why the words of a request have no report.
#[derive(Debug, Drop, Error)]
pub enum Failure<'w> {
    /// The words are no request.
    #[error("{0}")]
    Words(Fault),
    /// The file that they name cannot be read.
    #[error("cannot read {0}: {1}")]
    Unread(&'w str, io::Error),
    /// The request has no report.
    #[error("{0}")]
    Unanswered(Unanswered),
}

// Stays: here and below, the contract of `reply` names the failure that comes, of which `#[from]` says nothing. With a `map_err` at each of three `?` it is no plainer.
impl<'w> From<Fault> for Failure<'w> {
    ghost from_gives = { λ fault e. e ≡ Words fault };

    fn from(fault: Fault) -> Failure<'w> {
        Self::Words(fault)
    }
}

impl<'w> From<Unanswered> for Failure<'w> {
    ghost from_gives = { λ why e. e ≡ Failed why };

    fn from(why: Unanswered) -> Failure<'w> {
        Self::Unanswered(why)
    }
}

/// The report that the words after a program's name ask for: a letter, a file, and options.
/// The words are judged first, then the file is read, and then the request is answered.
pub fn reply<'w, R: Files + AllocGlobal>(rt: &R, words: &'w [String]) -> Result<String, Failure<'w>>
    ensures words { (f : FaultOf) → asked (texts words.now) ≡ Err f → result ≡ Err (Failure.Words f) }
    ensures report { IfOk result (λ s. (bs : List ℕ) × (q : RequestOf) × Answers (asked (texts words.now)) (Ok q) × Answered (answer_outcome bs q.letter q.arcs q.window) (Ok s)) }
    ensures no_report { (why : UnansweredFor) → result ≡ Err (Failure.Unanswered why) → (bs : List ℕ) × (q : RequestOf) × Answers (asked (texts words.now)) (Ok q) × Unreported (answer_outcome bs q.letter q.arcs q.window) why }
{
    let asked = read_request(words)?;
    let path = words.get(1).ok_or(Fault::Usage)?.as_str();
    let file = fs::read(rt, path).map_err(|e| Failure::Unread(path, e))?;
    let heap = rt.alloc();
    Ok(answer(
        heap,
        asked.letter,
        file.as_slice(),
        asked.arcs,
        asked.window,
    )?)
}
