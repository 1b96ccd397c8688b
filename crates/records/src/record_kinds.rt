ghost use Rattle.std.specs.Prelude.{◌≡◌, ℕ, ◌≤◌, List};
ghost use Rattle.kinds.specs.declared.kind.Kind.{Kind};
ghost use Rattle.kinds.specs.declared.kind.Kind.TheVariants.{Points as PointKind, Arcs as ArcKind, Nodes as NodeKind, Polygons as PolygonKind};
ghost use Rattle.boxes.specs.declared.edges.Edges.{Edges};
ghost use Rattle.boxes.specs.Boxes.{edges_at, point_at, BoxRead};
ghost use Rattle.kinds.specs.Sizes.{record_size};
ghost use Rattle.std.proofs.Common.{rules};

use boxes::bounds::Bounds;
use kinds::kind::Kind;
use refusal::Refusal;

/// A kind of record, as a type.
pub trait RecordKind {
    ghost KIND: { Kind };

    /// The kind of file that has such records.
    const KIND: Kind;
}

/// A kind of record that has a box: points, arcs and polygons. Nodes have none.
pub trait BoxedKind: RecordKind {
    // how many bytes of the record tell its box, and what they tell
    ghost extent: { ℕ };

    ghost edges: { List ℕ → Edges };

    /// The box that a record tells. 1 when the record ends before it, then 10 when it is not finite and in order.
    fn read_bounds(bytes: &[u8]) -> Result<Bounds, Refusal>
        ensures { BoxRead bytes.now 0 extent (edges bytes.now) result };

    ghost within: { (w : ℕ) → extent ≤ record_size Self.RecordKind.KIND w };
}

pub struct Points;

pub struct Arcs;

pub struct Nodes;

pub struct Polygons;

impl RecordKind for Points {
    ghost KIND = { PointKind };

    const KIND: Kind = Kind::Points;
}

impl RecordKind for Arcs {
    ghost KIND = { ArcKind };

    const KIND: Kind = Kind::Arcs;
}

impl RecordKind for Nodes {
    ghost KIND = { NodeKind };

    const KIND: Kind = Kind::Nodes;
}

impl RecordKind for Polygons {
    ghost KIND = { PolygonKind };

    const KIND: Kind = Kind::Polygons;
}

// A point is its own box.
impl BoxedKind for Points {
    ghost extent = { 16 };

    ghost edges = { λ bs. point_at bs 0 };

    ghost within = { Prim.search rules };

    fn read_bounds(bytes: &[u8]) -> Result<Bounds, Refusal> {
        Bounds::read_point(bytes, 0)
    }
}

// Stays: one impl for arcs and polygons over a trait of the kinds with a stored box needs that trait, and an impl with the law for each of the two, and is no plainer.
impl BoxedKind for Arcs {
    ghost extent = { 32 };

    ghost edges = { λ bs. edges_at bs 0 };

    ghost within = { Prim.search rules };

    fn read_bounds(bytes: &[u8]) -> Result<Bounds, Refusal> {
        Bounds::read(bytes, 0)
    }
}

impl BoxedKind for Polygons {
    ghost extent = { 32 };

    ghost edges = { λ bs. edges_at bs 0 };

    ghost within = { Prim.search rules };

    fn read_bounds(bytes: &[u8]) -> Result<Bounds, Refusal> {
        Bounds::read(bytes, 0)
    }
}
