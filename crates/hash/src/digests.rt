ghost use Rattle.std.specs.Prelude.{◌≡◌};
ghost use Rattle.hash.specs.Sha256.{sha_256};

use crate::blocks::{BLOCK, after_blocks};
use crate::closing::finished;
use crate::tables::INITIAL;

#[tactic(auto, using(crate::proofs::Chains::chained_blocks, crate::proofs::Chains::tail_is))]
pub fn sha256(bytes: &[u8]) -> [u8; 32]
    ensures { result ≡ sha_256 bytes.now }
{
    let (blocks, rest) = bytes.as_chunks::<BLOCK>();
    finished(after_blocks(INITIAL, blocks), rest, bytes.len() as u64)
}
