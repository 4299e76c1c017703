ghost use Rattle.std.specs.Prelude.{◌≡◌, ℕ, List, ◌+◌, ◌*◌, ◌/◌, ◌<◌, ◌≤◌, ◌^◌, [], map, length, slice_index_or};
ghost use Rattle.onetime.specs.Chains.{leaf_of};
ghost use Rattle.onetime.specs.Hashes.{node};
ghost use Rattle.onetime.specs.Trees.{Grown, beside, sibling};

use crate::chains::leaf_of;
use crate::parts::{Hash, LEVELS, node, whole};
use schemes::{Place, TURNS};
use std::array;

// All nodes of a secret's tree, level by level from the leaves up. Each level has a size of its own, and there is no heap.
#[derive(Drop)]
pub(crate) struct Tree {
    leaves: [Hash; TURNS],
    level_1: [Hash; 16],
    level_2: [Hash; 8],
    level_3: [Hash; 4],
    level_4: [Hash; 2],
    pub(crate) root: Hash,
}

// The nodes over the pairs of a level, which are few, as `map` asks.
fn nodes_over<const N: usize>(level: u8, below: &[[Hash; 2]; N]) -> [Hash; N]
    requires small { N ≤ 16 }
    ensures { result ≡ map (λ pair. node level (slice_index_or pair 0 []) (slice_index_or pair 1 [])) below.now }
{
    below.map(
        |pair|
            ensures { result ≡ node level (slice_index_or pair 0 []) (slice_index_or pair 1 []) }
        { node(level, &pair) },
    )
}

// The other child of the same parent.
fn beside(i: u8) -> usize
    ensures is { result ≡ beside i }
    ensures near { result / 2 ≡ i / 2 }
{
    usize::from(if i % 2 == 0 { i + 1 } else { i - 1 })
}

impl Tree {
    pub(crate) fn of(secret: &Hash) -> Tree
        ensures { Grown secret.now result }
    {
        let leaves = array::from_fn(
            |turn|
                requires { turn < 32 }
                ensures { result ≡ leaf_of secret.entry.now turn }
            { leaf_of(turn as u8, secret) },
        );
        let level_1 = nodes_over(0, whole(leaves.as_chunks().0));
        let level_2 = nodes_over(1, whole(level_1.as_chunks().0));
        let level_3 = nodes_over(2, whole(level_2.as_chunks().0));
        let level_4 = nodes_over(3, whole(level_3.as_chunks().0));
        let root = node(4, &level_4);
        Tree {
            leaves,
            level_1,
            level_2,
            level_3,
            level_4,
            root,
        }
    }

    // The siblings of a turn's leaf and of the nodes above it, from the leaf upward.
    pub(crate) fn path(&self, place: Place) -> [Hash; LEVELS]
        ensures { (secret : List ℕ) → Grown secret self.now → (level : ℕ) → level < 5 → slice_index_or result level [] ≡ sibling secret place.turn level }
    {
        let turn = place.turn;
        [
            self.leaves[beside(turn)],
            self.level_1[beside(turn / 2)],
            self.level_2[beside(turn / 4)],
            self.level_3[beside(turn / 8)],
            self.level_4[beside(turn / 16)],
        ]
    }
}
