use bits::Flags;
use boxes::edges::Edges;
use kinds::kind::Kind;
use layout::version::Version;

/// What the header of a file says.
#[derive(Clone, Copy)]
pub struct Header {
    pub kind: Kind,
    pub version: Version,
    pub flags: Flags,
    /// the box of the whole file, as it is stored
    pub edges: Edges,
    /// how many elements the file has
    pub count: u64,
    /// the first reserved byte
    pub reserved: u8,
}
