ghost use Rattle.std.specs.Prelude.{◌≡◌, ℕ, [], slice_index_or};
ghost use Rattle.onetime.specs.Signatures.{leads_to};
ghost use Rattle.onetime.specs.Trees.{climb};

use crate::chains::{END, walked};
use crate::digits::digits_of;
use crate::parts::{CHAINS, HASH_LEN, Hash, LEVELS, SIGNATURE_LEN, leaf, node, whole};
use schemes::DIGEST_LEN;

// Up the Merkle path of a signature, from the leaf of its turn.
#[tactic(auto, using(crate::proofs::Siblings::above_is), unfolding(crate::specs::Trees::climb))]
fn climb(turn: u8, bottom: Hash, path: &[Hash; LEVELS]) -> Hash
    ensures { result ≡ climb (λ level. slice_index_or path.now level []) turn bottom 5 }
{
    let mut here = bottom;
    for (level, sibling) in path.iter().enumerate() {
        let pair = if (turn >> level) % 2 == 0 {
            [here, *sibling]
        } else {
            [*sibling, here]
        };
        here = node(level as u8, &pair);
    }
    here
}

// The root that a signature leads to.
pub(crate) fn leads_to(turn: u8, digest: &[u8; DIGEST_LEN], signature: &[u8; SIGNATURE_LEN]) -> Hash
    ensures { result ≡ leads_to turn digest.now signature.now }
{
    let (hashes, _) = signature.as_chunks::<HASH_LEN>();
    let (chains, path) = hashes.split_first_chunk::<CHAINS>().unwrap();
    let ends = walked(turn, &digits_of(digest), &[END; CHAINS], chains);
    climb(turn, leaf(turn, &ends), whole(path))
}
