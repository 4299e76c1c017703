ghost use Rattle.std.specs.Prelude.{◌≡◌, ℕ, ◌-◌, ◌<◌, [], slice_index, slice_index_or};
ghost use Rattle.onetime.specs.Chains.{chain_at, leaf_of, walk};
ghost use Rattle.onetime.specs.Hashes.{chain_start, chain_step};

use crate::parts::{CHAINS, HASH_LEN, Hash, hash_of, leaf};
use std::array;

const START_LEN: usize = 3 + HASH_LEN;

const STEP_LEN: usize = 4 + HASH_LEN;

// The last position of a chain.
pub(crate) const END: u8 = 15;

// A chain of a turn.
#[derive(Clone, Copy)]
struct Chain {
    turn: u8,
    number: u8,
}

impl Chain {
    // Where it starts.
    fn start(self, secret: &Hash) -> Hash
        ensures { result ≡ chain_start secret.now self.turn self.number }
    {
        hash_of::<START_LEN>(&[0, self.turn, self.number], secret)
    }

    // One step, from a position.
    fn step(self, position: u8, value: &Hash) -> Hash
        ensures { result ≡ chain_step self.turn self.number position value.now }
    {
        hash_of::<STEP_LEN>(&[1, self.turn, self.number, position], value)
    }

    // Walks a value on, from a position to another. The position goes into the hash of its step; it indexes nothing.
    #[inline(always)]
    #[tactic(auto, unfolding(crate::specs::Chains::walk))]
    fn walk(self, from: u8, to: u8, start: Hash) -> Hash
        ensures { result ≡ walk self.turn self.number from (to - from) start }
    {
        let mut value = start;
        for position in from..to {
            value = self.step(position, &value);
        }
        value
    }
}

// The chains of a turn, each walked on from a position to another.
pub(crate) fn walked(
    turn: u8,
    from: &[u8; CHAINS],
    to: &[u8; CHAINS],
    values: &[Hash; CHAINS],
) -> [Hash; CHAINS]
    ensures { (i : ℕ) → i < 67 → slice_index_or result i [] ≡ walk turn i (slice_index from.now i) (slice_index to.now i - slice_index from.now i) (slice_index_or values.now i []) }
{
    array::from_fn(
        |i|
            requires { i < 67 }
            ensures { result ≡ walk turn i (slice_index from.entry.now i) (slice_index to.entry.now i - slice_index from.entry.now i) (slice_index_or values.entry.now i []) }
        {
            let number = i as u8;
            Chain { turn, number }.walk(from[i], to[i], values[i])
        },
    )
}

// The chains of a turn, each at its position.
// Not by `walked`: with an array of starts for it a signing takes 11 KiB more of stack.
pub(crate) fn chains_at(turn: u8, positions: &[u8; CHAINS], secret: &Hash) -> [Hash; CHAINS]
    ensures { (i : ℕ) → i < 67 → slice_index_or result i [] ≡ chain_at secret.now turn i (slice_index positions.now i) }
{
    array::from_fn(
        |i|
            requires { i < 67 }
            ensures { result ≡ chain_at secret.entry.now turn i (slice_index positions.entry.now i) }
        {
            let number = i as u8;
            let chain = Chain { turn, number };
            chain.walk(0, positions[i], chain.start(secret))
        },
    )
}

// The leaf of a turn.
pub(crate) fn leaf_of(turn: u8, secret: &Hash) -> Hash
    ensures { result ≡ leaf_of secret.now turn }
{
    leaf(turn, &chains_at(turn, &[END; CHAINS], secret))
}
