/// A vertex, as the caller's table holds it.
#[derive(Clone, Copy, PartialEq, Debug, Default)]
pub struct Vertex {
    pub x: f64,
    pub y: f64,
}
