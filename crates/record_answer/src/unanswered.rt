ghost use Rattle.std.specs.Prelude.{◌≡◌, Some};
ghost use Rattle.record_answer.specs.declared.unanswered.Unanswered.TheVariants.{NoMemory, Refused};
ghost use Rattle.record_answer.specs.Unanswering.{unanswered_text};

use boxes::wording::NODES_HAVE_NO_BOXES;
use refusal::Refusal;
use std::alloc::AllocError;
use std::error::Error;
use std::fmt;

/// Why a request for the records of a file has no report.
#[derive(Clone, Copy, PartialEq, Eq, Debug)]
pub enum Unanswered {
    /// There is no memory for the report.
    NoMemory,
    /// The file or the window is refused.
    Refused(Refusal),
    /// Nodes are asked for by window.
    NoBoxes,
}

// Stays: here and below, the contract of `answer` needs to know which reason comes; `#[from]` says nothing of it, and wants a field, which `NoMemory` has not. With a `map_err` at each of six `?` it is no plainer.
impl From<AllocError> for Unanswered {
    ghost from_gives = { λ _ e. e ≡ NoMemory };

    fn from(_e: AllocError) -> Unanswered {
        Self::NoMemory
    }
}

impl From<Refusal> for Unanswered {
    ghost from_gives = { λ refusal e. e ≡ Refused refusal };

    fn from(refusal: Refusal) -> Unanswered {
        Self::Refused(refusal)
    }
}

// Stays: what is printed is promised, by `output`. The derive of `thiserror` writes a `Display` that says nothing; with a function beside it that promises the text it is no plainer.
impl fmt::Display for Unanswered {
    ghost output = { λ e. Some (unanswered_text e) };

    fn fmt<W: fmt::Write>(&self, f: &mut fmt::Formatter<W>) -> fmt::Result {
        match self {
            Unanswered::NoMemory => f.write_str("no memory for the report"),
            Unanswered::Refused(refusal) => write!(f, "{refusal}"),
            Unanswered::NoBoxes => f.write_str(NODES_HAVE_NO_BOXES),
        }
    }
}

impl Error for Unanswered {}
