ghost use Rattle.std.specs.Prelude.{◌≡◌, ℕ, ◌+◌, ◌<◌, ◌≤◌, [], ◌∷◌, length, take};
ghost use Rattle.topology.specs.Tables.{Grown};

use super::table::Table;

impl<'a, T> Table<'a, T> {
    // The rows in use.
    pub(crate) fn in_use(&self) -> &[T]
        ensures rows { result.now ≡ take self.now.used self.now.rows.now }
        ensures long { length result.now ≡ self.now.used }
    {
        &self.rows[..self.used]
    }

    // Adds a row.
    pub(crate) fn push(&mut self, row: T)
    where
        T: Copy,
        requires { self.old.used < length self.old.rows.now }
        ensures { Grown self.old self.new (row ∷ []) }
    {
        self.rows[self.used] = row;
        self.used += 1;
    }

    // Adds the rows of a run.
    pub(crate) fn push_run(&mut self, run: &[T])
    where
        T: Copy,
        requires { self.old.used + length run.now ≤ length self.old.rows.now }
        ensures { Grown self.old self.new run.now }
    {
        let end = self.used + run.len();
        self.rows[self.used..end].copy_from_slice(run);
        self.used = end;
    }
}
