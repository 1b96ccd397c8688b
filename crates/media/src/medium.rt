ghost use Rattle.std.specs.Prelude.{◌≡◌, ℕ, List, length};
ghost use Rattle.std.specs.Borrow.{GName};
ghost use Rattle.media.specs.Posts.{Read, Written};

use refusal::Refusal;

/// A fixed number of bytes. What a medium means is the list of them, `bytes`.
pub trait Medium {
    ghost bytes: { Self → List ℕ };

    // the memory that the medium borrows: what its lender gets back when the medium is gone
    ghost lies: { Self → List GName };

    /// How many bytes there are.
    fn size(&self) -> usize
        ensures { result ≡ length (bytes self.now) };

    /// Fills the buffer with the bytes from `at` on. 1 when they pass the end, and then the buffer is as it was.
    fn read(&self, at: usize, into: &mut [u8]) -> Result<(), Refusal>
        ensures { Read (bytes self.now) at into.old into.new result };

    /// Puts the given bytes in the place of those from `at` on. 1 when they pass the end, and then nothing is changed.
    fn write(&mut self, at: usize, from: &[u8]) -> Result<(), Refusal>
        ensures written { Written (bytes self.old) at from.now (bytes self.new) result }
        ensures same { lies self.new ≡ lies self.old };
}
