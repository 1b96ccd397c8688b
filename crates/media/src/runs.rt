ghost use Rattle.std.specs.Prelude.{◌≡◌, ℕ, ◌+◌, ◌<◌, ◌≤◌, length, MatchResult};
ghost use Rattle.refusal.specs.declared.Refusal.TheVariants.{PastEnd};
ghost use Rattle.media.specs.Posts.{Field, Written};
ghost use Rattle.media.specs.Runs.{run};

use refusal::Refusal;

/// Where `len` bytes from `at` on end. 1 when that is past a size.
pub fn end_of(size: usize, at: usize, len: usize) -> Result<usize, Refusal>
    ensures { MatchResult result (λ end. (end ≡ at + len) × (end ≤ size)) (λ e. (size < at + len) × (e ≡ PastEnd)) }
{
    at.checked_add(len)
        .filter(|end| *end <= size)
        .ok_or(Refusal::PastEnd)
}

/// The `len` bytes from `at` on. 1 when they pass the end.
pub fn bytes_at(bytes: &[u8], at: usize, len: usize) -> Result<&[u8], Refusal>
    ensures { MatchResult result (λ r. (at + len ≤ length bytes.now) × (r.now ≡ run bytes.now at len)) (λ e. (length bytes.now < at + len) × (e ≡ PastEnd)) }
{
    let end = end_of(bytes.len(), at, len)?;
    Ok(&bytes[at..end])
}

/// The N bytes from `at` on. 1 when they pass the end.
pub fn array_at<const N: usize>(bytes: &[u8], at: usize) -> Result<[u8; N], Refusal>
    ensures { Field bytes.now at N (run bytes.now at N) result }
{
    let mut array = [0u8; N];
    array.copy_from_slice(bytes_at(bytes, at, N)?);
    Ok(array)
}

/// Puts the given bytes in the place of those from `at` on. 1 when they pass the end, and then nothing is changed.
pub fn put_bytes(bytes: &mut [u8], at: usize, from: &[u8]) -> Result<(), Refusal>
    ensures { Written bytes.old at from.now bytes.new result }
{
    let end = end_of(bytes.len(), at, from.len())?;
    bytes[at..end].copy_from_slice(from);
    Ok(())
}
