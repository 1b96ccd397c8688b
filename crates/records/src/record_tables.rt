ghost use Rattle.std.specs.Prelude.{◌≡◌, ℕ, ◌+◌, ◌*◌, ◌<◌, ◌≤◌, length, Ok};
ghost use Rattle.kinds.specs.Sizes.{record_size};
ghost use Rattle.layout.specs.Versions.{width};
ghost use Rattle.records.specs.Parts.{record_outcome, list_outcome, list_start, entries};
ghost use Rattle.tables.specs.Handing.{Handed};
ghost use Rattle.records.specs.Boxing.{box_outcome};
ghost use Rattle.tables.specs.Windows.{told};

use super::record_kinds::{BoxedKind, RecordKind};
use super::records::Records;
use super::shape::Shape;
use boxes::bounds::Bounds;
use kinds::kind::Kind;
use layout::version::Version;
use media::runs::array_at;
use refusal::Refusal;
use std::marker::PhantomData;
use tables::part::Part;
use tables::tables::{BoxedTable, RecordTable};

// Where the list of the record at a place begins, and how many entries it has.
fn list_head(
    kind: Kind,
    version: Version,
    file: &[u8],
    at: usize,
) -> Result<(usize, usize), Refusal>
    requires { at + record_size kind (width version) ≤ length file.now }
    ensures { result ≡ Ok (list_start kind (width version) file.now at, entries kind (width version) file.now at) }
{
    let w = version.sizes().number;
    let (place, count) = match kind {
        Kind::Points => (0, 0),
        Kind::Arcs => (
            version.number(file, at + (32 + w))?,
            version.number(file, at + 32)?,
        ),
        Kind::Nodes => (
            version.number(file, at + 4)?,
            u16::from_le_bytes(array_at(file, at)?).into(),
        ),
        Kind::Polygons => (
            version.number(file, at + (32 + 3 * w))?,
            version.number(file, at + 32)?,
        ),
    };
    Ok((place as usize, count as usize))
}

impl<'a, K: RecordKind> Records<'a, K> {
    /// The records of a file that lie where the shape says; one that passes the end of the file is refused with 1 when it is asked for.
    pub fn over(file: &'a [u8], shape: Shape) -> Records<'a, K>
        ensures { (result.file.now ≡ file.now) × (result.shape ≡ shape) }
    {
        Records {
            file,
            shape,
            kind: PhantomData,
        }
    }

    /// The edition of the file.
    pub fn version(&self) -> Version
        ensures { result ≡ self.now.shape.version }
    {
        self.shape.version
    }

    /// Record k, for as long as the file is held.
    pub fn record_of(&self, k: usize) -> Result<Part<'a>, Refusal>
        ensures { Handed self.now.file.now (record_outcome K.RecordKind.KIND self.now.file.now self.now.shape k) result }
    {
        if k >= self.shape.count {
            return Err(Refusal::NoSuchElement);
        }
        let size = self.version().sizes().record(K::KIND);
        Part::of_row(self.file, self.shape.first, k, size)
    }

    /// The list of record k, for as long as the file is held.
    pub fn list_of(&self, k: usize) -> Result<Part<'a>, Refusal>
        ensures { Handed self.now.file.now (list_outcome K.RecordKind.KIND self.now.file.now self.now.shape k) result }
    {
        let record = self.record_of(k)?;
        let kind = K::KIND;
        let (place, count) = list_head(kind, self.version(), self.file, record.place)?;
        let entry = self.version().sizes().list_entry(kind);
        Part::of_entries(self.file, place, count, entry)
    }
}

impl<'a, K: RecordKind> RecordTable for Records<'a, K> {
    ghost file = { λ t. t.file.now };

    ghost count = { λ t. t.shape.count };

    ghost place = { λ t k. record_outcome K.RecordKind.KIND t.file.now t.shape k };

    ghost list_place = { λ t k. list_outcome K.RecordKind.KIND t.file.now t.shape k };

    fn len(&self) -> usize {
        self.shape.count
    }

    fn record(&self, k: usize) -> Result<Part<'_>, Refusal> {
        self.record_of(k)
    }

    fn list(&self, k: usize) -> Result<Part<'_>, Refusal> {
        self.list_of(k)
    }
}

impl<'a, K: BoxedKind> BoxedTable for Records<'a, K> {
    ghost boxes = { λ t k. box_outcome K.RecordKind.KIND K.BoxedKind.edges t.file.now t.shape k };

    fn bounds(&self, k: usize) -> Result<Bounds, Refusal> {
        let record = self.record_of(k)?;
        K::read_bounds(record.bytes)
    }
}
