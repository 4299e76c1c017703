ghost use Rattle.std.specs.Prelude.{◌≡◌, ℕ, ◌+◌, ◌<◌, ◌^◌, ◌++◌, [], length, slice_index_or};
ghost use Rattle.std.specs.List.{flat_map};
ghost use Rattle.hash.specs.Sha256.{sha_256};
ghost use Rattle.onetime.specs.Hashes.{leaf, node};

use hash::sha256;

pub(crate) const HASH_LEN: usize = 32;

pub(crate) type Hash = [u8; HASH_LEN];

pub(crate) const CHAINS: usize = 67;

pub(crate) const CHAINS_LEN: usize = CHAINS * HASH_LEN;

pub(crate) const LEVELS: usize = 5;

pub(crate) const SIGNATURE_LEN: usize = CHAINS_LEN + LEVELS * HASH_LEN;

const LEAF_LEN: usize = 2 + CHAINS_LEN;

const NODE_LEN: usize = 2 + 2 * HASH_LEN;

// A slice of N elements, as an array.
pub(crate) fn whole<T, const N: usize>(elements: &[T]) -> &[T; N]
    requires { length elements.now ≡ N }
    ensures { result.now ≡ elements.now }
{
    elements.as_array().unwrap()
}

// The hash of N bytes: those of a head, and of a body behind it.
// They are put into one array, since a signing by the streaming `Sha256` takes a tenth longer.
pub(crate) fn hash_of<const N: usize>(head: &[u8], body: &[u8]) -> Hash
    requires exact { length head.now + length body.now ≡ N }
    requires small { N < 2 ^ 63 }
    ensures { result ≡ sha_256 (head.now ++ body.now) }
{
    let mut bytes = [0; N];
    let all = &mut bytes[..];
    all[..head.len()].copy_from_slice(head);
    all[head.len()..].copy_from_slice(body);
    sha256(&bytes)
}

// A leaf over the ends of a turn's chains.
pub(crate) fn leaf(turn: u8, ends: &[Hash; CHAINS]) -> Hash
    ensures { result ≡ leaf turn (flat_map (λ x. x) ends.now) }
{
    hash_of::<LEAF_LEN>(&[2, turn], ends.as_flattened())
}

// A node over two of a level, the left one first.
pub(crate) fn node(level: u8, pair: &[Hash; 2]) -> Hash
    ensures { result ≡ node level (slice_index_or pair.now 0 []) (slice_index_or pair.now 1 []) }
{
    hash_of::<NODE_LEN>(&[3, level], pair.as_flattened())
}
