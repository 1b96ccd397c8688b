ghost use Rattle.std.specs.Prelude.{◌≡◌, ◌+◌, ◌^◌, ok_or, slice_index, Some};
ghost use Rattle.refusal.specs.declared.Refusal.TheVariants.{OtherVersion};
ghost use Rattle.editions.specs.Numbers.{number_at, Field, Stored};
ghost use Rattle.kinds.specs.Sizes.{sizes};
ghost use Rattle.layout.specs.Versions.{width, version_of, version_text};

use super::version::Version;
use editions::edition::{Edition, Edition11, Edition20};
use kinds::sizes::Sizes;
use refusal::Refusal;
use std::fmt;

/// The version that four letters of a header name. A '0' may stand for the space before it. 5 when they name none.
impl TryFrom<[u8; 4]> for Version {
    type Error = Refusal;

    ghost try_from_gives = { λ letters r. r ≡ ok_or (version_of (slice_index letters 0) (slice_index letters 1) (slice_index letters 2) (slice_index letters 3)) OtherVersion };

    fn try_from(letters: [u8; 4]) -> Result<Version, Refusal> {
        match &letters {
            b" 1.1" | b"01.1" => Ok(Version::V11),
            b" 2.0" | b"02.0" => Ok(Version::V20),
            _ => Err(Refusal::OtherVersion),
        }
    }
}

/// An edition by its number.
impl fmt::Display for Version {
    ghost output = { λ version. Some (version_text version) };

    fn fmt<W: fmt::Write>(&self, f: &mut fmt::Formatter<W>) -> fmt::Result {
        f.write_str(self.name())
    }
}

impl Version {
    /// The number of an edition.
    pub fn name(self) -> &'static str
        ensures { result.now ≡ version_text self }
    {
        match self {
            Version::V11 => "1.1",
            Version::V20 => "2.0",
        }
    }
}

// Stays: four matches choose between the types of the two editions. One match could choose a width and a largest number, and the rest be functions over these, but such a function can keep what it promises only where the width is at most 8 and the number is the largest of that width. No public function has a condition, so the two would need a type that holds these facts, which the trait `Edition` states already, and it is no plainer.
impl Version {
    /// The sizes of this edition.
    pub fn sizes(self) -> Sizes
        ensures { result ≡ sizes (width self) }
    {
        match self {
            Version::V11 => Edition11::sizes(),
            Version::V20 => Edition20::sizes(),
        }
    }

    /// The largest number that this edition stores.
    pub fn largest(self) -> u64
        ensures { result + 1 ≡ 256 ^ width self }
    {
        match self {
            Version::V11 => Edition11::largest(),
            Version::V20 => Edition20::largest(),
        }
    }

    /// The number that stands at a place. 1 when it passes the end.
    pub fn number(self, bytes: &[u8], at: usize) -> Result<u64, Refusal>
        ensures { Field bytes.now at (width self) (number_at (width self) bytes.now at) result }
    {
        match self {
            Version::V11 => Edition11::number(bytes, at),
            Version::V20 => Edition20::number(bytes, at),
        }
    }

    /// Stores a number at a place, where it is read back. 1 when it passes the end, then 31 when it is above the largest; the bytes are then as they were.
    pub fn store(self, bytes: &mut [u8], at: usize, n: u64) -> Result<(), Refusal>
        ensures { Stored (width self) bytes.old at n bytes.new result }
    {
        match self {
            Version::V11 => Edition11::store(bytes, at, n),
            Version::V20 => Edition20::store(bytes, at, n),
        }
    }
}
