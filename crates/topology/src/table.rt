ghost use Rattle.std.specs.Prelude.{ℕ, ◌≤◌, length};

/// A table without gaps over rows that the caller lends: the first `used` rows are in use.
#[derive(Drop)]
pub struct Table<'a, T> {
    // Stays: the library has no heap: the caller lends the rows, and how many are in use stands beside them.
    pub(crate) rows: &'a mut [T],
    pub(crate) used: usize,
    ghost fits: { used ≤ length rows.now },
}
