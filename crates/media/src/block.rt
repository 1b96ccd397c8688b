ghost use Rattle.std.specs.Prelude.{◌≡◌, [], ◌∷◌};

use super::medium::Medium;
use super::runs::{bytes_at, put_bytes};
use refusal::Refusal;

/// A block of the caller's memory as a medium.
#[derive(Drop)]
pub struct Block<'a> {
    block: &'a mut [u8],
}

impl<'a> Block<'a> {
    /// The medium whose bytes are those of `block`.
    pub fn new(block: &'a mut [u8]) -> Block<'a>
        ensures lent { result.block.ghost_name ≡ block.entry.ghost_name }
        ensures value { result.block.now ≡ block.old }
    {
        Block { block }
    }
}

impl<'a> Medium for Block<'a> {
    ghost bytes = { λ b. b.block.now };

    ghost lies = { λ b. b.block.ghost_name ∷ [] };

    fn size(&self) -> usize {
        self.block.len()
    }

    fn read(&self, at: usize, into: &mut [u8]) -> Result<(), Refusal> {
        into.copy_from_slice(bytes_at(self.block, at, into.len())?);
        Ok(())
    }

    fn write(&mut self, at: usize, from: &[u8]) -> Result<(), Refusal> {
        put_bytes(self.block, at, from)
    }
}
