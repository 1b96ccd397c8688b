use layout::version::Version;

/// Where the records of a file lie.
#[derive(Clone, Copy)]
pub struct Shape {
    pub version: Version,
    /// where record 0 begins
    pub first: usize,
    /// how many records there are
    pub count: usize,
}
