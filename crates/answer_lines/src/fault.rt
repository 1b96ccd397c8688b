ghost use Rattle.std.specs.Prelude.{◌≡◌};
ghost use Rattle.answer_lines.specs.declared.fault.TextFault.TheVariants.{NoMemory};

use std::alloc::AllocError;
use thiserror::Error;

/// Why an answer has no text.
#[derive(Clone, Copy, PartialEq, Eq, Debug, Error)]
pub enum TextFault {
    #[error("no memory for an answer")]
    NoMemory,
    /// The text of a coordinate is read as another double than the coordinate.
    #[error("a coordinate would not be read as it was written")]
    ReadsOtherwise,
}

// Stays: `#[from]` wants a field, which `NoMemory` has not, and says nothing of which fault comes. With a `map_err` at each of ten `?`, of which one is in `journal`, it is no plainer.
impl From<AllocError> for TextFault {
    ghost from_gives = { λ _ fault. fault ≡ NoMemory };

    fn from(_e: AllocError) -> Self {
        Self::NoMemory
    }
}
