ghost use Rattle.std.specs.Prelude.{◌≡◌, ℕ, ◌+◌, ◌≤◌, true, length, from_bits};
ghost use Rattle.std.specs.Float.{float_is_finite, binary64};
ghost use Rattle.editions.specs.Numbers.{Field, number_at};
ghost use Rattle.boxes.specs.Doubles.{double_at, StoredDouble};

use media::runs::{array_at, end_of, put_bytes};
use refusal::Refusal;
use std::num::f64_from_bits_with_nan;

// The bits of the double that stands at a place.
pub(crate) fn bits_at(bytes: &[u8], at: usize) -> u64
    requires { at + 8 ≤ length bytes.now }
    ensures { result ≡ number_at 8 bytes.now at }
{
    let mut raw = [0u8; 8];
    raw.copy_from_slice(&bytes[at..at + 8]);
    u64::from_le_bytes(raw)
}

// Whether bits are those of a finite double: the exponent's field is not all ones.
#[tactic(auto, using(crate::proofs::Finite::of_bits_finite))]
pub(crate) fn finite_bits(bits: u64) -> bool
    ensures { result ≡ float_is_finite (from_bits binary64 bits) }
{
    bits % 0x8000_0000_0000_0000 / 0x10_0000_0000_0000 != 2047
}

// The finite double with these bits.
pub(crate) fn finite_double(bits: u64) -> f64
    requires { float_is_finite (from_bits binary64 bits) ≡ true }
    ensures { result ≡ from_bits binary64 bits }
{
    f64::from_bits(bits)
}

/// The double that stands at a place, finite or not. 1 when it passes the end.
pub fn read_double(bytes: &[u8], at: usize) -> Result<f64, Refusal>
    ensures { Field bytes.now at 8 (double_at bytes.now at) result }
{
    let raw = array_at(bytes, at)?;
    Ok(f64_from_bits_with_nan(u64::from_le_bytes(raw)))
}

/// Stores a finite double at a place, where it is read back, in the very bytes that it was read from.
/// 1 when it passes the end, then 9 when it is not finite; the bytes are then as they were.
pub fn store_double(bytes: &mut [u8], at: usize, x: f64) -> Result<(), Refusal>
    ensures { StoredDouble bytes.old at x bytes.new result }
{
    end_of(bytes.len(), at, 8)?;
    if !x.is_finite() {
        return Err(Refusal::NotFinite);
    }
    put_bytes(bytes, at, &x.to_bits().to_le_bytes())
}
