use topology::vertex::Vertex;

/// What a call that was taken answers.
#[derive(Clone, Copy, PartialEq, Debug)]
pub enum Answer {
    /// the edit is done
    Done,
    /// the text begins with the listing, which has so many bytes
    Listed(usize),
    Counts {
        arcs: usize,
        nodes: usize,
        polygons: usize,
        rings: usize,
    },
    Ring {
        polygon: usize,
        side: usize,
    },
    Side {
        polygon: usize,
        next: usize,
        node: usize,
    },
    Arc {
        vertices: usize,
    },
    Vertex(Vertex),
}
