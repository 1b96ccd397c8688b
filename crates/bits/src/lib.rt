// Single bits of the flag byte of a header and of the VFG byte of an entry.
#![tactic(auto)]

ghost use Rattle.std.specs.Prelude.{◌≡◌, ◌<◌};
ghost use Rattle.bits.specs.Bits.{bit, vfg_byte};

// Whether a bit of a byte is set.
fn is_set(byte: u8, k: u8) -> bool
    requires { k < 8 }
    ensures { result ≡ bit byte k }
{
    (byte >> k) % 2 == 1
}

/// The flag byte of a file's header.
#[derive(Clone, Copy)]
pub struct Flags {
    pub byte: u8,
}

impl Flags {
    const VERIFIED: u8 = 0;

    const THREE_DIMENSIONAL: u8 = 4;

    const EXPLICIT: u8 = 5;

    /// Bit 0: the topology has been verified.
    pub fn verified(self) -> bool
        ensures { result ≡ bit self.byte 0 }
    {
        is_set(self.byte, Self::VERIFIED)
    }

    /// Bit 4: a PNT or ARC file has altitudes.
    pub fn three_dimensional(self) -> bool
        ensures { result ≡ bit self.byte 4 }
    {
        is_set(self.byte, Self::THREE_DIMENSIONAL)
    }

    /// Bit 5: a POL file has explicit polygons, which use each arc once.
    pub fn explicit(self) -> bool
        ensures { result ≡ bit self.byte 5 }
    {
        is_set(self.byte, Self::EXPLICIT)
    }
}

/// The VFG byte of an entry of a polygon's list.
#[derive(Clone, Copy)]
pub struct Vfg {
    pub byte: u8,
}

impl Vfg {
    const EXTERNAL: u8 = 0;

    const RING_END: u8 = 1;

    const TURNED: u8 = 2;

    /// The byte with these three bits, and no other.
    pub fn new(external: bool, ring_end: bool, turned: bool) -> Vfg
        ensures byte { result.byte ≡ vfg_byte external ring_end turned }
        ensures bits { (bit result.byte 0 ≡ external) × (bit result.byte 1 ≡ ring_end) × (bit result.byte 2 ≡ turned) }
    {
        Vfg {
            byte: u8::from(external) << Self::EXTERNAL
                | u8::from(ring_end) << Self::RING_END
                | u8::from(turned) << Self::TURNED,
        }
    }

    /// Bit 0: the arc is an edge of an external ring.
    pub fn external(self) -> bool
        ensures { result ≡ bit self.byte 0 }
    {
        is_set(self.byte, Self::EXTERNAL)
    }

    /// Bit 1: the ring ends with this entry.
    pub fn ring_end(self) -> bool
        ensures { result ≡ bit self.byte 1 }
    {
        is_set(self.byte, Self::RING_END)
    }

    /// Bit 2: the entry is the arc's turned side.
    pub fn turned(self) -> bool
        ensures { result ≡ bit self.byte 2 }
    {
        is_set(self.byte, Self::TURNED)
    }
}
