use topology::arc_side::ArcSide;

/// A call on a map. `R` is what lends the vertices of a run, as a slice or a `Vec` does.
#[derive(Clone, Copy, PartialEq, Debug, Drop)]
pub enum Call<R> {
    /// adds a closed arc with the run's vertices in a polygon
    Island {
        polygon: usize,
        run: R,
    },
    /// takes a closed arc away, with its node and both its rings
    Lift {
        arc: usize,
    },
    /// parts an arc at a vertex, with a new node there
    Split {
        arc: usize,
        vertex: usize,
    },
    /// adds an arc between the starts of two sides of a ring, and a polygon on the named side of it
    Divide {
        first: usize,
        second: usize,
        run: R,
        named: ArcSide,
    },
    /// takes an arc away between two rings, which become one
    Dissolve {
        arc: usize,
    },
    /// has two arcs become one at a node where just their two ends lie
    Join {
        node: usize,
    },
    /// asks for the map as text
    List,
    /// asks how many arcs, nodes, polygons and rings there are
    Counts,
    /// asks for the polygon and the lowest side of a ring
    Ring {
        ring: usize,
    },
    /// asks for the polygon, the next side and the first node of a side
    Side {
        side: usize,
    },
    /// asks how many vertices an arc has
    Arc {
        arc: usize,
    },
    /// asks for a vertex of an arc
    Vertex {
        arc: usize,
        vertex: usize,
    },
}
