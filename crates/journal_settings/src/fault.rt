use thiserror::Error;

/// What is wrong with the words of a command line.
#[derive(Clone, Copy, PartialEq, Eq, Debug, Error)]
pub enum Fault {
    #[error("usage: sheet_journal [--hand right|left] [--sides N] [--vertices N] < JOURNAL")]
    Usage,
    #[error("--hand takes right or left")]
    WrongHand,
    #[error("--sides takes a whole number from 0 to 18446744073709551615")]
    WrongSides,
    #[error("--vertices takes a whole number from 0 to 18446744073709551615")]
    WrongVertices,
}
