ghost use Rattle.std.specs.Prelude.{◌≡◌, ℕ, ◌%◌, ◌^◌, List, length};
ghost use Rattle.hash.specs.Sha256.{chained, digest, sha_256, start};
ghost use Rattle.hash.specs.Streaming.{tail};

use crate::blocks::{BLOCK, after_blocks};

// How many bytes the length field has.
const LENGTH: usize = 8;

fn digest_of(value: [u32; 8]) -> [u8; 32]
    ensures { result ≡ digest value }
{
    let bytes = value.map(u32::to_be_bytes);
    *bytes.as_flattened().as_array().unwrap()
}

// The digest of a message of `count` bytes, from the hash value after its whole blocks and from the rest.
// Its last bytes are one block or two, so there is room for two and an `end` beside it: fixed memory.
pub(crate) fn finished(value: [u32; 8], rest: &[u8], count: u64) -> [u8; 32]
    requires { length rest.now ≡ count % 64 }
    ensures { (m : List ℕ) → value ≡ chained start m → rest.now ≡ tail m → count ≡ length m % 2 ^ 64 → result ≡ sha_256 m }
{
    let mut last = [0; 2 * BLOCK];
    last[..rest.len()].copy_from_slice(rest);
    last[rest.len()] = 0x80;
    let end = (rest.len() + 1 + LENGTH).next_multiple_of(BLOCK);
    last[end - LENGTH..end].copy_from_slice(&count.wrapping_mul(8).to_be_bytes());
    let (blocks, _) = last[..end].as_chunks::<BLOCK>();
    digest_of(after_blocks(value, blocks))
}
