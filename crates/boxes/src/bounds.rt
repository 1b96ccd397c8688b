ghost use Rattle.std.specs.Prelude.{◌≡◌, true};
ghost use Rattle.boxes.specs.Fairs.{fair_edges};

use super::edges::Edges;

/// A box: four bounds, finite and in order. No other value of this type can exist.
#[derive(Clone, Copy)]
pub struct Bounds {
    pub(crate) edges: Edges,
    ghost ok: { fair_edges edges ≡ true },
}
