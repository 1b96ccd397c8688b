ghost use Rattle.std.specs.Prelude.{◌≡◌};
ghost use Rattle.journal.specs.declared.fault.PlayFault.TheVariants.{NotUtf8, NotRead, NoText};

use answer_lines::fault::TextFault;
use call_lines::fault::LineFault;
use std::str::Utf8Error;
use thiserror::Error;

/// Why a line of a journal has no answer.
#[derive(Clone, Copy, PartialEq, Eq, Debug, Error)]
pub enum PlayFault {
    #[error("not UTF-8")]
    NotUtf8,
    #[error("{0}")]
    NotRead(LineFault),
    #[error("{0}")]
    NoText(TextFault),
}

// Stays: here and below, the contracts of `play_line` and `play_bytes` need to know which fault comes; `#[from]` says nothing of it, and wants a field, which `NotUtf8` has not. With a `map_err` at each `?` it is no plainer.
impl From<Utf8Error> for PlayFault {
    ghost from_gives = { λ _ fault. fault ≡ NotUtf8 };

    fn from(_e: Utf8Error) -> Self {
        Self::NotUtf8
    }
}

impl From<LineFault> for PlayFault {
    ghost from_gives = { λ e fault. fault ≡ NotRead e };

    fn from(e: LineFault) -> Self {
        Self::NotRead(e)
    }
}

impl From<TextFault> for PlayFault {
    ghost from_gives = { λ e fault. fault ≡ NoText e };

    fn from(e: TextFault) -> Self {
        Self::NoText(e)
    }
}
