ghost use Rattle.std.specs.Prelude.{◌≡◌, ℕ, ◌+◌, ◌^◌, ◌≤◌, refl};
ghost use Rattle.std.proofs.Common.{lit≤};
ghost use Rattle.editions.specs.Numbers.{number_at, Field, Stored};
ghost use Rattle.kinds.specs.declared.sizes.Sizes.{Sizes};
ghost use Rattle.kinds.specs.Sizes.{sizes};

use kinds::sizes::Sizes;
use media::runs::{bytes_at, end_of, put_bytes};
use refusal::Refusal;

/// An edition of the format: its sizes, and its own way to store a number.
pub trait Edition {
    // how many bytes a number has
    ghost width: { ℕ };

    ghost BYTES: { Sizes };

    const BYTES: Sizes;

    ghost LARGEST_NUMBER: { ℕ };

    const LARGEST_NUMBER: u64;

    /// The edition's sizes.
    fn sizes() -> Sizes
        ensures { result ≡ sizes width }
    {
        Self::BYTES
    }

    /// The largest number that the edition stores.
    fn largest() -> u64
        ensures { result + 1 ≡ 256 ^ width }
    {
        Self::LARGEST_NUMBER
    }

    /// The number that stands at a place. 1 when it passes the end.
    fn number(bytes: &[u8], at: usize) -> Result<u64, Refusal>
        ensures { Field bytes.now at width (number_at width bytes.now at) result }
    {
        let width = Self::BYTES.number;
        let mut raw = [0u8; 8];
        raw[..width].copy_from_slice(bytes_at(bytes, at, width)?);
        Ok(u64::from_le_bytes(raw))
    }

    /// Stores a number at a place, where it is read back. 1 when it passes the end, then 31 when it is above the largest; the bytes are then as they were.
    fn store(bytes: &mut [u8], at: usize, n: u64) -> Result<(), Refusal>
        ensures { Stored width bytes.old at n bytes.new result }
    {
        let width = Self::BYTES.number;
        end_of(bytes.len(), at, width)?;
        if n > Self::LARGEST_NUMBER {
            return Err(Refusal::DoesNotFit);
        }
        let raw = n.to_le_bytes();
        put_bytes(bytes, at, &raw[..width])
    }

    ghost sized: { BYTES ≡ sizes width };

    ghost whole: { LARGEST_NUMBER + 1 ≡ 256 ^ width };

    ghost narrow: { width ≤ 8 };
}

/// Edition 1.1: numbers of 32 bits.
pub struct Edition11;

impl Edition for Edition11 {
    ghost width = { 4 };

    ghost BYTES = { sizes 4 };

    const BYTES: Sizes = Sizes {
        number: 4,
        header: 48,
        sides: 8,
        point: 16,
        arc: 56,
        node: 8,
        polygon: 64,
        vertex: 16,
        entry: 5,
    };

    ghost LARGEST_NUMBER = { 0xffff_ffff };

    const LARGEST_NUMBER: u64 = 0xffff_ffff;

    ghost sized = { refl };

    ghost whole = { refl };

    ghost narrow = { lit≤ tt };
}

/// Edition 2.0: numbers of 64 bits.
pub struct Edition20;

impl Edition for Edition20 {
    ghost width = { 8 };

    ghost BYTES = { sizes 8 };

    const BYTES: Sizes = Sizes {
        number: 8,
        header: 56,
        sides: 16,
        point: 16,
        arc: 72,
        node: 12,
        polygon: 80,
        vertex: 16,
        entry: 9,
    };

    ghost LARGEST_NUMBER = { 0xffff_ffff_ffff_ffff };

    const LARGEST_NUMBER: u64 = 0xffff_ffff_ffff_ffff;

    ghost sized = { refl };

    ghost whole = { refl };

    ghost narrow = { lit≤ tt };
}
