ghost use Rattle.std.specs.Prelude.{◌≡◌};
ghost use Rattle.call_lines.specs.declared.fault.LineFault.TheVariants.{NoMemory};

use super::expected::Expected;
use std::alloc::AllocError;
use thiserror::Error;

/// Why a line was not read.
#[derive(Clone, Copy, PartialEq, Eq, Debug, Error)]
pub enum LineFault {
    #[error("no memory for an answer")]
    NoMemory,
    /// The line is no call. By its first word it has to be this one.
    #[error("expected {0}")]
    NoCall(Expected),
}

// Stays: the contract of `read_line` needs to know which fault comes; `#[from]` says nothing of it, and wants a field, which `NoMemory` has not. With a closure in a `map_err` at each `?` it is no plainer.
impl From<AllocError> for LineFault {
    ghost from_gives = { λ _ fault. fault ≡ NoMemory };

    fn from(_e: AllocError) -> Self {
        Self::NoMemory
    }
}
