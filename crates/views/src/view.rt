use records::record_kinds::{Arcs, Nodes, Points, Polygons};
use records::records::Records;

/// A view of a file, by the kind of its records.
#[derive(Drop)]
pub enum View<'a> {
    OfPoints(Records<'a, Points>),
    OfArcs(Records<'a, Arcs>),
    OfNodes(Records<'a, Nodes>),
    OfPolygons(Records<'a, Polygons>),
}
