/// Four bounds as a file stores them: any doubles.
#[derive(Clone, Copy)]
pub struct Edges {
    pub minx: f64,
    pub maxx: f64,
    pub miny: f64,
    pub maxy: f64,
}
