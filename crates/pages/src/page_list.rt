ghost use Rattle.std.specs.Prelude.{◌≡◌, ℕ, ◌*◌, ◌/◌, ◌<◌, ◌≤◌, take, MatchResult, slice_index};
ghost use Rattle.pages.specs.Paging.{Below, Apart, Unfit};

use media::runs::put_bytes;
use refusal::Refusal;

/// The numbers of some of the 128 pages, none above 127 and none twice.
#[derive(Clone, Copy)]
pub struct PageList {
    // Stays: an array and how much of it is used, since the library has no heap, and the kit's list in an array, `ArrayVec`, is not `Copy`, which a page list is.
    list: [u8; 128],
    len: usize,
    ghost few: { len ≤ 128 },
    ghost below: { Below list len },
    ghost apart: { Apart list len },
}

impl PageList {
    /// The list of the given numbers. 2 when one is above 127, else 3 when one stands twice.
    #[tactic(auto, using(crate::proofs::Pigeons::few))]
    pub fn new(numbers: &[u8]) -> Result<PageList, Refusal>
        ensures { MatchResult result (λ p. take p.len p.list ≡ numbers.now) (λ e. Unfit numbers.now e) }
    {
        if numbers.iter().any(|page| *page > 127) {
            return Err(Refusal::NoSuchPage);
        }
        for (j, page) in numbers.iter().enumerate() {
            if numbers[..j].contains(page) {
                return Err(Refusal::PageTwice);
            }
        }
        let mut list = [0u8; 128];
        // Numbers below 128 that all differ are at most 128, so there is room for them.
        put_bytes(&mut list, 0, numbers)?;
        Ok(PageList {
            list,
            len: numbers.len(),
        })
    }

    /// How many pages are listed.
    pub fn len(&self) -> usize
        ensures { result ≡ self.now.len }
    {
        self.len
    }

    // The page that holds byte a.
    // Stays: that the bytes lie in the listed pages, which `read` and `write` have just judged, is a condition here, of `fetch` and of `store`. A type of places would hold for one list, and is no plainer.
    pub(crate) fn page(&self, a: usize) -> usize
        requires listed { a < 512 * self.now.len }
        ensures value { result ≡ slice_index self.now.list (a / 512) }
        ensures below { result < 128 }
    {
        self.list[a / 512] as usize
    }
}
