/// How the two rings of an arc's sides become one, where the arc leaves them.
#[derive(Clone, Copy)]
pub struct Merging {
    /// the unturned side of the arc: a map has at most 32768 sides
    pub side: u16,
    /// where the ring leads on from the side before the unturned one, and from the side before the turned one
    pub past_unturned: u32,
    pub past_turned: u32,
    /// the lowest sides of the two rings
    pub low_unturned: u32,
    pub low_turned: u32,
    /// the lowest side of the ring that they become, and its polygon
    pub low: u32,
    pub polygon: u32,
}
