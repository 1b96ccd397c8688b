ghost use Rattle.std.specs.Prelude.{◌≡◌, ℕ, true, List, Result as Outcome};
ghost use Rattle.refusal.specs.declared.Refusal.{Refusal as Refused};
ghost use Rattle.boxes.specs.declared.edges.Edges.{Edges};
ghost use Rattle.boxes.specs.Boxes.{edges_of};
ghost use Rattle.tables.specs.Handing.{Handed};
ghost use Rattle.tables.specs.Windows.{told, Meeting, Lowest, met, tally};

use super::part::Part;
use boxes::bounds::Bounds;
use refusal::Refusal;

/// The records of a file.
pub trait RecordTable {
    ghost file: { Self → List ℕ };

    ghost count: { Self → ℕ };

    // where a record and its list lie, or why there is none
    ghost place: { Self → ℕ → Outcome (ℕ × ℕ) Refused };

    ghost list_place: { Self → ℕ → Outcome (ℕ × ℕ) Refused };

    /// How many records there are.
    fn len(&self) -> usize
        ensures { result ≡ count self.now };

    /// Record k. 20 when there is none.
    fn record(&self, k: usize) -> Result<Part<'_>, Refusal>
        ensures { Handed (file self.now) (place self.now k) result };

    /// The list of record k. 20 when there is no such record, then 1 when the list passes the end of the file.
    fn list(&self, k: usize) -> Result<Part<'_>, Refusal>
        ensures { Handed (file self.now) (list_place self.now k) result };
}

/// Records that have boxes. Only these can be searched.
pub trait BoxedTable: RecordTable {
    ghost boxes: { Self → ℕ → Outcome Edges Refused };

    /// The box of record k. 20 when there is none, then 10 when the stored box is not finite and in order.
    fn bounds(&self, k: usize) -> Result<Bounds, Refusal>
        ensures { told result ≡ boxes self.now k };
}

/// Whether record k has a box that meets the window.
pub fn meets_at<T: BoxedTable>(table: &T, k: usize, window: &Bounds) -> bool
    ensures test { result ≡ met (T.BoxedTable.boxes table.now k) (edges_of window.now) }
    ensures meets { (result ≡ true → Meeting (T.BoxedTable.boxes table.now k) (edges_of window.now)) × (Meeting (T.BoxedTable.boxes table.now k) (edges_of window.now) → result ≡ true) }
{
    table.bounds(k).is_ok_and(|b| b.meets(window))
}

/// The lowest record from k on whose box meets the window, or none.
pub fn search<T: BoxedTable>(table: &T, k: usize, window: &Bounds) -> Option<usize>
    ensures { Lowest (T.BoxedTable.boxes table.now) (T.RecordTable.count table.now) k (edges_of window.now) result }
{
    // Stays: a loop, for speed. With `filter` and `count` the quotient that judges a record's place was taken anew for each record, and a count took more than 1.1 times as long as plain Rust, which this loop does not; `find` takes a closure as they do.
    for i in k..table.len() {
        if meets_at(table, i, window) {
            return Some(i);
        }
    }
    None
}

/// How many records meet the window.
pub fn count_meeting<T: BoxedTable>(table: &T, window: &Bounds) -> usize
    ensures { result ≡ tally (λ k. met (T.BoxedTable.boxes table.now k) (edges_of window.now)) (T.RecordTable.count table.now) }
{
    // how many records there are fits a usize, so no sum below passes its largest
    let _count = table.len();
    // Stays: each search begins after the record that the one before it found. `successors`, with a closure that searches from the number after the one found where there is one, and `count` over it, is no plainer.
    let mut n = 0;
    let mut k = 0;
    while let Some(f) = search(table, k, window) {
        n += 1;
        k = f + 1;
    }
    n
}
