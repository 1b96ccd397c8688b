ghost use Rattle.std.specs.Prelude.{◌≡◌, IfOk, Ok, option_map, string_bytes};
ghost use Rattle.boxes.specs.Boxes.{edges_of};
ghost use Rattle.record_answer.specs.Answers.{text_on, wanted_by, by_view, answer_outcome, Answered};
ghost use Rattle.views.specs.Viewed.{kind_seen, file_seen, shape_seen};

use super::unanswered::Unanswered;
use boxes::bounds::Bounds;
use boxes::edges::Edges;
use kinds::kind::Kind;
use record_report::reports::{report_all, report_found};
use records::record_kinds::BoxedKind;
use records::records::Records;
use std::alloc::{AllocError, Global};
use views::view::View;

// The report on all records of a table that has boxes, or on those that meet a window.
fn report_boxed<K: BoxedKind>(
    heap: Global,
    table: &Records<'_, K>,
    window: Option<Bounds>,
) -> Result<String, AllocError>
    ensures { IfOk result (λ s. string_bytes s ≡ text_on K.RecordKind.KIND table.now.file.now table.now.shape (wanted_by K.RecordKind.KIND K.BoxedKind.edges table.now.file.now table.now.shape (option_map edges_of window))) }
{
    match window {
        Some(w) => report_found(heap, K::KIND, table.version(), table, &w),
        None => report_all(heap, K::KIND, table.version(), table),
    }
}

// The report on a view.
// Stays: three arms have one text, but each has a table of another type, which one pattern cannot bind; a `dyn` table or a closure for all three would name the types again, and is no plainer.
fn report_view(heap: Global, view: &View<'_>, window: Option<Bounds>) -> Result<String, Unanswered>
    ensures { Answered (by_view (file_seen view.now) (option_map edges_of window) (Ok (kind_seen view.now, shape_seen view.now))) result }
{
    Ok(match view {
        View::OfPoints(t) => report_boxed(heap, t, window)?,
        View::OfArcs(t) => report_boxed(heap, t, window)?,
        View::OfNodes(_) if window.is_some() => return Err(Unanswered::NoBoxes),
        View::OfNodes(t) => report_all(heap, Kind::Nodes, t.version(), t)?,
        View::OfPolygons(t) => report_boxed(heap, t, window)?,
    })
}

/// The answer to a request for the records of a file, asked for by letter, with the arc count for a POL, and by window if one is given.
pub fn answer(
    heap: Global,
    letter: char,
    file: &[u8],
    arcs: u64,
    window: Option<Edges>,
) -> Result<String, Unanswered>
    ensures { Answered (answer_outcome file.now letter arcs window) result }
{
    let view = View::new(letter, file, arcs)?;
    let window = window.map(Bounds::new).transpose()?;
    report_view(heap, &view, window)
}
