/// A side of an arc, as the caller's table holds it.
#[derive(Clone, Copy, PartialEq, Eq, Debug, Default)]
pub struct Side {
    /// the node where the side begins
    pub node: u32,
    /// the row of the vertex where the side begins
    pub row: u32,
    /// the polygon that the side bounds
    pub polygon: u32,
    /// the next side of its ring
    pub next: u32,
    /// the lowest side of its ring
    pub low: u32,
}
