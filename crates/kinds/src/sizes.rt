/// The sizes of one edition, in bytes.
#[derive(Clone, Copy)]
pub struct Sizes {
    /// a stored number: a count, an offset, or the number of an element
    pub number: usize,
    /// the header of a file
    pub header: usize,
    /// the left and the right polygon of an arc, in a POL
    pub sides: usize,
    /// the record of a point
    pub point: usize,
    /// the record of an arc
    pub arc: usize,
    /// the record of a node
    pub node: usize,
    /// the record of a polygon
    pub polygon: usize,
    /// a vertex of an arc
    pub vertex: usize,
    /// an entry of a polygon's list
    pub entry: usize,
}
