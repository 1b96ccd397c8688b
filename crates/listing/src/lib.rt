// A map as text, in a buffer that the caller lends.
#![tactic(auto)]

ghost use Rattle.std.specs.Prelude.{◌≡◌, length};
ghost use Rattle.topology.specs.States.{state_of};
ghost use Rattle.topology.specs.Questions.{rings_of};
ghost use Rattle.std.proofs.lemmas.List.Edits.{sets};
ghost use Rattle.listing.specs.Texts.{listing, text_outcome, text_leaves};

mod lines;
mod puts;

use puts::Lister;
use refusal::Refusal;
use topology::map::Map;

// The listing from the first byte on, as far as the buffer reaches, given how many rings there are.
fn put_listing(map: &Map<'_>, rings: usize, out: &mut [u8]) -> usize
    requires { rings ≡ length (rings_of (state_of map.now)) }
    ensures count { result ≡ length (listing (state_of map.now)) }
    ensures after { out.new ≡ sets out.old 0 (listing (state_of map.now)) }
{
    let mut listing = Lister { map, out, at: 0 };
    listing.put_head(rings);
    listing.put_rings();
    listing.at
}

/// How many bytes the listing of a map has.
pub fn listing_size(map: &Map<'_>) -> usize
    ensures { result ≡ length (listing (state_of map.now)) }
{
    put_listing(map, map.ring_count(), &mut [])
}

/// Lists a map into the caller's buffer and says how many bytes that took: a line of counts, and a line for each ring, rising by lowest side.
/// 31 when the buffer is shorter than the listing; then no byte of it is written. What stands in the buffer after the listing stays.
pub fn list(map: &Map<'_>, out: &mut [u8]) -> Result<usize, Refusal>
    ensures answer { result ≡ text_outcome (listing (state_of map.now)) (length out.old) }
    ensures leaves { out.new ≡ text_leaves (listing (state_of map.now)) out.old }
{
    let rings = map.ring_count();
    if put_listing(map, rings, &mut []) > out.len() {
        return Err(Refusal::DoesNotFit);
    }
    Ok(put_listing(map, rings, out))
}
