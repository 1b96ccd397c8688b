ghost use Rattle.std.specs.Prelude.{◌≡◌, ℕ, Bool, Option, IfOk, string_bytes};
ghost use Rattle.boxes.specs.Boxes.{edges_of};
ghost use Rattle.tables.specs.Windows.{met};
ghost use Rattle.record_lines.specs.Texts.{line};
ghost use Rattle.record_report.specs.Reports.{report_text, every, Later, Next};

use boxes::bounds::Bounds;
use kinds::kind::Kind;
use layout::version::Version;
use record_lines::{foot_line, head_line, record_line};
use std::alloc::{AllocError, Global};
use tables::tables::{BoxedTable, RecordTable, search};

// The report on the records of a table that are wanted, of which `next` tells the lowest from a number on.
// Stays: the records are counted where their lines are put, since there may be no memory for a line, and the number is wanted after the last; `successors` and `try_fold` from one record to the next, with a closure in each, is no plainer.
// Stays: heap, kind, version and table are four parameters here and in the two public functions, which keep their signatures. A struct of them would be made in both and taken apart here; a table that told its kind and version would ask that of everyone who implements RecordTable. Neither is plainer.
fn report<T: RecordTable, F: Fn(usize) -> Option<usize>>(
    heap: Global,
    kind: Kind,
    version: Version,
    table: &T,
    next: F,
) -> Result<String, AllocError>
    requires calls { F.IsAlwaysCallable next }
    requires later { (k : ℕ) (r : Option ℕ) → F.post next k r → Later (T.RecordTable.count table.now) k r }
    ensures { (w : ℕ → Bool) → ((k : ℕ) (r : Option ℕ) → F.post next k r → Next w (T.RecordTable.count table.now) k r)
        → IfOk result (λ s. string_bytes s ≡ report_text kind version (T.RecordTable.count table.now) w (line (T.RecordTable.place table.now) (T.RecordTable.list_place table.now))) }
{
    let mut text = head_line(heap, kind, version, table.len())?;
    let mut found = 0;
    let mut k = 0;
    while let Some(f) = next(k) {
        text.push_str(record_line(heap, table, f)?.as_str())?;
        found += 1;
        k = f + 1;
    }
    text.push_str(foot_line(heap, found)?.as_str())?;
    Ok(text)
}

/// The report on all records of a table.
pub fn report_all<T: RecordTable>(
    heap: Global,
    kind: Kind,
    version: Version,
    table: &T,
) -> Result<String, AllocError>
    ensures { IfOk result (λ s. string_bytes s ≡ report_text kind version (T.RecordTable.count table.now) every (line (T.RecordTable.place table.now) (T.RecordTable.list_place table.now))) }
{
    report(
        heap,
        kind,
        version,
        table,
        |k| (k < table.len()).then_some(k),
    )
}

/// The report on the records of a table that meet a window.
pub fn report_found<T: BoxedTable>(
    heap: Global,
    kind: Kind,
    version: Version,
    table: &T,
    window: &Bounds,
) -> Result<String, AllocError>
    ensures { IfOk result (λ s. string_bytes s ≡ report_text kind version (T.RecordTable.count table.now) (λ k. met (T.BoxedTable.boxes table.now k) (edges_of window.now)) (line (T.RecordTable.place table.now) (T.RecordTable.list_place table.now))) }
{
    report(heap, kind, version, table, |k| search(table, k, window))
}
