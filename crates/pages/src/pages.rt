ghost use Rattle.std.specs.Prelude.{◌≡◌, ℕ, ◌+◌, ◌*◌, ◌<◌, ◌≤◌, [], ◌∷◌, length, slice_index_or};
ghost use Rattle.media.specs.Runs.{run, overwrite};
ghost use Rattle.pages.specs.Paging.{content, stored};

use super::page_list::PageList;
use media::medium::Medium;
use media::runs::end_of;
use refusal::Refusal;

/// 128 pages of 512 bytes, of which a list says which are the medium's, in its order.
#[derive(Drop)]
pub struct Pages<'a> {
    pages: &'a mut [[u8; 512]; 128],
    list: PageList,
}

impl<'a> Pages<'a> {
    /// The medium whose bytes are those of the listed pages, one page after the other.
    pub fn new(pages: &'a mut [[u8; 512]; 128], list: PageList) -> Pages<'a>
        ensures lent { result.pages.ghost_name ≡ pages.entry.ghost_name }
        ensures value { (result.pages.now ≡ pages.old) × (result.list ≡ list) }
    {
        Pages { pages, list }
    }
}

// Stores a byte in a page, and tells that there are 128 pages and that this one has 512 bytes.
fn put(pages: &mut [[u8; 512]; 128], page: usize, at: usize, b: u8)
    requires page { page < 128 }
    requires place { at < 512 }
    ensures after { pages.new ≡ stored pages.old page at b }
    ensures all { length pages.old ≡ 128 }
    ensures whole { length (slice_index_or pages.old page []) ≡ 512 }
{
    let bytes: &mut [u8] = &mut pages[page];
    bytes[at] = b;
}

impl Pages<'_> {
    // Fills the buffer with the bytes from `at` on.
    fn fetch(&self, at: usize, into: &mut [u8])
        requires listed { at + length into.old ≤ 512 * self.now.list.len }
        ensures { into.new ≡ run (content self.now.pages.now self.now.list.list self.now.list.len) at (length into.old) }
    {
        let pages: &[[u8; 512]; 128] = self.pages;
        for (i, byte) in into.iter_mut().enumerate() {
            let a = at + i;
            *byte = pages[self.list.page(a)][a % 512];
        }
    }

    // Puts the given bytes in the place of those from `at` on.
    fn store(&mut self, at: usize, from: &[u8])
        requires listed { at + length from.now ≤ 512 * self.old.list.len }
        ensures after { content self.new.pages.now self.old.list.list self.old.list.len ≡ overwrite (content self.old.pages.now self.old.list.list self.old.list.len) at from.now }
        ensures lent { self.new.pages.ghost_name ≡ self.old.pages.ghost_name }
        ensures list { self.new.list ≡ self.old.list }
    {
        for (i, byte) in from.iter().enumerate() {
            let a = at + i;
            put(self.pages, self.list.page(a), a % 512, *byte);
        }
    }
}

#[tactic(auto, using(crate::proofs::Contents::length_content))]
impl<'a> Medium for Pages<'a> {
    ghost bytes = { λ p. content p.pages.now p.list.list p.list.len };

    ghost lies = { λ p. p.pages.ghost_name ∷ [] };

    fn size(&self) -> usize {
        self.list.len() * 512
    }

    fn read(&self, at: usize, into: &mut [u8]) -> Result<(), Refusal> {
        end_of(self.size(), at, into.len())?;
        self.fetch(at, into);
        Ok(())
    }

    fn write(&mut self, at: usize, from: &[u8]) -> Result<(), Refusal> {
        end_of(self.size(), at, from.len())?;
        self.store(at, from);
        Ok(())
    }
}
