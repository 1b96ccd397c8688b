// Text put into a buffer as far as it reaches: into none, it is only measured.
ghost use Rattle.std.specs.Prelude.{◌≡◌, ℕ, ◌+◌, ◌^◌, ◌<◌, [], ◌∷◌, length, decimal};
ghost use Rattle.listing.specs.Puts.{PutsAt, Puts, two, four};
ghost use Rattle.listing.specs.Texts.{count_text, counts_line, side_text};

use topology::map::Map;

// How many digits a number has.
fn digit_count(n: usize) -> usize
    ensures { result ≡ length (decimal n) }
{
    n.checked_ilog10().map_or(1, |power| power as usize + 1)
}

// Puts a byte at a place, and says where the next one goes. Past the end of the buffer it is only counted, and the count stays at the largest number.
// Stays: here and in the functions on digits the place is handed on, so that a listing takes at most 1.1 times as long as with the older form. As methods of `Lister`, which read and write the place for each byte, they made it take 1.3 to 1.4 times as long.
fn put_byte(out: &mut [u8], at: usize, byte: u8) -> usize
    ensures { PutsAt out.old at (byte ∷ []) out.new result }
{
    if at < out.len() {
        out[at] = byte;
        at + 1
    } else {
        at.saturating_add(1)
    }
}

// The two digits of a number below 100.
fn put_two(out: &mut [u8], at: usize, n: usize) -> usize
    requires { n < 100 }
    ensures { PutsAt out.old at (two n) out.new result }
{
    let last = put_byte(out, at, b'0' + (n / 10) as u8);
    put_byte(out, last, b'0' + (n % 10) as u8)
}

// A number of one or two digits.
fn put_short(out: &mut [u8], at: usize, n: usize) -> usize
    requires { n < 100 }
    ensures { PutsAt out.old at (decimal n) out.new result }
{
    if n < 10 {
        return put_byte(out, at, b'0' + n as u8);
    }
    put_two(out, at, n)
}

// The four digits of a number below 10,000.
fn put_four(out: &mut [u8], at: usize, n: usize) -> usize
    requires { n < 10000 }
    ensures { PutsAt out.old at (four n) out.new result }
{
    let last = put_two(out, at, n / 100);
    put_two(out, last, n % 100)
}

// The digits of a number, four by four from the last. Only a number of more than six calls again.
fn put_digits(out: &mut [u8], at: usize, n: usize) -> usize
    ensures { PutsAt out.old at (decimal n) out.new result }
{
    if n < 100 {
        return put_short(out, at, n);
    }
    if n < 10000 {
        let last = put_short(out, at, n / 100);
        return put_two(out, last, n % 100);
    }
    if n < 1000000 {
        let last = put_short(out, at, n / 10000);
        return put_four(out, last, n % 10000);
    }
    let last = put_digits(out, at, n / 10000);
    put_four(out, last, n % 10000)
}

// A map as it is listed: the map, the buffer that the caller lends, and where the next byte goes.
#[derive(Drop)]
pub(crate) struct Lister<'a, 'm, 'o> {
    pub(crate) map: &'a Map<'m>,
    pub(crate) out: &'o mut [u8],
    pub(crate) at: usize,
}

impl Lister<'_, '_, '_> {
    // Puts a byte.
    pub(crate) fn put_byte(&mut self, byte: u8)
        ensures { Puts self.old self.new (byte ∷ []) }
    {
        self.at = put_byte(self.out, self.at, byte);
    }

    // The bytes of a word.
    fn put_bytes(&mut self, bytes: &[u8])
        ensures { Puts self.old self.new bytes.now }
    {
        for byte in bytes {
            self.put_byte(*byte);
        }
    }

    // A number in decimal. Past the end of the buffer its digits are only counted.
    pub(crate) fn put_number(&mut self, n: usize)
        ensures { Puts self.old self.new (decimal n) }
    {
        if self.at < self.out.len() {
            self.at = put_digits(self.out, self.at, n);
        } else {
            self.at = self.at.saturating_add(digit_count(n));
        }
    }

    // A word and a number.
    fn put_count(&mut self, word: &[u8], n: usize)
        ensures { Puts self.old self.new (count_text word.now n) }
    {
        self.put_bytes(word);
        self.put_number(n);
    }

    // The line of the counts.
    pub(crate) fn put_counts(&mut self, arcs: usize, nodes: usize, polygons: usize, rings: usize)
        ensures { Puts self.old self.new (counts_line arcs nodes polygons rings) }
    {
        self.put_count(b"arcs ", arcs);
        self.put_count(b" nodes ", nodes);
        self.put_count(b" polygons ", polygons);
        self.put_count(b" rings ", rings);
        self.put_byte(b'\n');
    }

    // A side of a ring. Past the end of the buffer its bytes are only counted.
    pub(crate) fn put_side(&mut self, side: usize)
        ensures { Puts self.old self.new (side_text side) }
    {
        let arc = side / 2;
        if self.at < self.out.len() {
            let number = put_byte(self.out, self.at, b' ');
            let sign = put_digits(self.out, number, arc);
            self.at = put_byte(self.out, sign, if side % 2 == 0 { b'+' } else { b'-' });
        } else {
            self.at = self.at.saturating_add(digit_count(arc) + 2);
        }
    }
}
