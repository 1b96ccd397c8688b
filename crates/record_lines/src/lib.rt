// The lines of a report on the records of a file.
#![tactic(auto)]

ghost use Rattle.std.specs.Prelude.{◌≡◌, IfOk, Some, string_bytes};
ghost use Rattle.tables.specs.Handing.{extent_of};
ghost use Rattle.record_lines.specs.Texts.{extent_text, line, head_text, foot_text};

use kinds::kind::Kind;
use layout::version::Version;
use refusal::Refusal;
use std::alloc::{AllocError, Global};
use std::fmt;
use tables::part::Part;
use tables::tables::RecordTable;

/// A place and a length, or a refusal.
#[derive(Clone, Copy, PartialEq, Eq, Debug)]
pub struct Extent(pub Result<(usize, usize), Refusal>);

/// Where a part lies, or why there is none.
impl From<Result<Part<'_>, Refusal>> for Extent {
    ghost from_gives = { λ part r. r.0 ≡ extent_of part };

    fn from(part: Result<Part<'_>, Refusal>) -> Extent {
        Extent(part.map(|p| (p.place, p.bytes.len())))
    }
}

impl fmt::Display for Extent {
    ghost output = { λ x. Some (extent_text x.0) };

    fn fmt<W: fmt::Write>(&self, f: &mut fmt::Formatter<W>) -> fmt::Result {
        match self.0 {
            Ok((place, len)) => write!(f, "{place} {len}"),
            Err(e) => write!(f, "{e}"),
        }
    }
}

/// The line of record k.
pub fn record_line<T: RecordTable>(heap: Global, table: &T, k: usize) -> Result<String, AllocError>
    ensures { IfOk result (λ s. string_bytes s ≡ line (T.RecordTable.place table.now) (T.RecordTable.list_place table.now) k) }
{
    let record = Extent::from(table.record(k));
    let list = Extent::from(table.list(k));
    format!(in heap; "{k} record {record} list {list}\n")
}

/// The first line: kind, edition and how many records there are.
pub fn head_line(
    heap: Global,
    kind: Kind,
    version: Version,
    count: usize,
) -> Result<String, AllocError>
    ensures { IfOk result (λ s. string_bytes s ≡ head_text kind version count) }
{
    format!(in heap; "{kind} {version} records {count}\n")
}

/// The last line: how many records were found.
pub fn foot_line(heap: Global, found: usize) -> Result<String, AllocError>
    ensures { IfOk result (λ s. string_bytes s ≡ foot_text found) }
{
    format!(in heap; "found {found}\n")
}
