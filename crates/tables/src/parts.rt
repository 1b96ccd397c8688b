ghost use Rattle.std.specs.Prelude.{◌≡◌, ℕ, ◌+◌, ◌*◌, ◌<◌, ◌≤◌, true, length};
ghost use Rattle.tables.specs.Extents.{part_outcome};
ghost use Rattle.tables.specs.Handing.{Handed};

use super::part::Part;
use media::runs::bytes_at;
use refusal::Refusal;

// Whether the k-th of the parts of a size that follow one another from `at` on ends within `len`. The quotient is one that a loop over the rows takes once.
fn row_fits(len: usize, at: usize, k: usize, size: usize) -> bool
    requires { 0 < size }
    ensures { (result ≡ true → at + k * size + size ≤ len) × (at + k * size + size ≤ len → result ≡ true) }
{
    at <= len && k < (len - at) / size
}

impl<'a> Part<'a> {
    /// The part of a file that has `len` bytes from `at` on. 1 when it passes the end, an empty part too.
    pub fn of(file: &'a [u8], at: usize, len: usize) -> Result<Part<'a>, Refusal>
        ensures { Handed file.now (part_outcome file.now at len) result }
    {
        let bytes = bytes_at(file, at, len)?;
        Ok(Part { bytes, place: at })
    }

    /// The k-th of the parts of `size` bytes that follow one another from `at` on. 1 when it passes the end.
    pub fn of_row(file: &'a [u8], at: usize, k: usize, size: usize) -> Result<Part<'a>, Refusal>
        ensures { Handed file.now (part_outcome file.now (at + k * size) size) result }
    {
        let len = file.len();
        if size == 0 {
            return Part::of(file, at, 0);
        }
        if !row_fits(len, at, k, size) {
            return Err(Refusal::PastEnd);
        }
        let place = at + k * size;
        let end = place + size;
        Ok(Part {
            bytes: &file[place..end],
            place,
        })
    }

    /// The part that has `count` times `size` bytes from `at` on. 1 when it passes the end.
    pub fn of_entries(
        file: &'a [u8],
        at: usize,
        count: usize,
        size: usize,
    ) -> Result<Part<'a>, Refusal>
        ensures { Handed file.now (part_outcome file.now at (count * size)) result }
    {
        let len = count.checked_mul(size).ok_or(Refusal::PastEnd)?;
        Part::of(file, at, len)
    }
}
