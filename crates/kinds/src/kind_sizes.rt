ghost use Rattle.std.specs.Prelude.{◌≡◌, ℕ};
ghost use Rattle.kinds.specs.Sizes.{sizes, record_size, entry_size};

use super::kind::Kind;
use super::sizes::Sizes;

impl Sizes {
    /// The size of a record of a kind.
    pub fn record(self, kind: Kind) -> usize
        ensures { (w : ℕ) → self ≡ sizes w → result ≡ record_size kind w }
    {
        match kind {
            Kind::Points => self.point,
            Kind::Arcs => self.arc,
            Kind::Nodes => self.node,
            Kind::Polygons => self.polygon,
        }
    }

    /// The size of an entry of the list of a record of a kind. A point has no list.
    pub fn list_entry(self, kind: Kind) -> usize
        ensures { (w : ℕ) → self ≡ sizes w → result ≡ entry_size kind w }
    {
        match kind {
            Kind::Points => 0,
            Kind::Arcs => self.vertex,
            Kind::Nodes => self.number,
            Kind::Polygons => self.entry,
        }
    }
}
