ghost use Rattle.std.specs.Prelude.{◌≡◌, ◌<◌, take, fold};
ghost use Rattle.std.specs.List.{zip};
ghost use Rattle.hash.specs.Sha256.{add, compress, words, schedule, sigma_0, sigma_1, round, sums};

use crate::tables::ROUND_CONSTANTS;
use crate::words::*;
use std::array;

// How many bytes a block has.
pub(crate) const BLOCK: usize = 64;

// The sixteen words of a block, with room for the rest of the schedule.
// In a loop: `map` over an array of sixteen is not unrolled, and hashing takes a quarter longer.
fn first_words(block: &[u8; BLOCK]) -> [u32; 64]
    ensures { take 16 result ≡ words 16 block.now }
{
    let mut w = [0; 64];
    let (quads, _) = block.as_chunks::<4>();
    for (t, quad) in quads.iter().enumerate() {
        w[t] = u32::from_be_bytes(*quad);
    }
    w
}

// The word that follows, from those that stand 2, 7, 15 and 16 places before it.
#[tactic(auto, unfolding(crate::specs::Sha256::sigma_0, crate::specs::Sha256::sigma_1))]
fn next_word(w2: u32, w7: u32, w15: u32, w16: u32) -> u32
    ensures { result ≡ add (add (add (sigma_1 w2) w7) (sigma_0 w15)) w16 }
{
    small_sigma::<17, 19, 10>(w2)
        .wrapping_add(w7)
        .wrapping_add(small_sigma::<7, 18, 3>(w15))
        .wrapping_add(w16)
}

// By index, since each word is made of earlier ones, and in rows of eight: a loop of eight is unrolled,
// and one of 48 is not and takes up to 5 % longer.
fn schedule(block: &[u8; BLOCK]) -> [u32; 64]
    ensures { result ≡ schedule block.now }
{
    let mut w = first_words(block);
    for row in 2..8 {
        for col in 0..8 {
            let t = 8 * row + col;
            w[t] = next_word(w[t - 2], w[t - 7], w[t - 15], w[t - 16]);
        }
    }
    w
}

// One round, given its constant and its word.
#[tactic(auto, unfolding(crate::specs::Sha256::round, crate::specs::Sha256::big_sigma_0, crate::specs::Sha256::big_sigma_1))]
fn one_round(v: [u32; 8], given: (&u32, &u32)) -> [u32; 8]
    ensures { result ≡ round given.entry.0.now given.entry.1.now v }
{
    let (&k, &w) = given;
    let [a, b, c, d, e, f, g, h] = v;
    let t1 = h
        .wrapping_add(big_sigma::<6, 11, 25>(e))
        .wrapping_add(choose(e, f, g))
        .wrapping_add(k)
        .wrapping_add(w);
    let t2 = big_sigma::<2, 13, 22>(a).wrapping_add(majority(a, b, c));
    [t1.wrapping_add(t2), a, b, c, d.wrapping_add(t1), e, f, g]
}

// Eight rounds, given their constants and their words.
fn eight_rounds(v: [u32; 8], given: (&[u32; 8], &[u32; 8])) -> [u32; 8]
    ensures { result ≡ fold (λ v p. round p.0 p.1 v) v (zip given.entry.0.now given.entry.1.now) }
{
    let (ks, ws) = given;
    ks.iter().zip(ws).fold(v, one_round)
}

// All rounds, eight at a time: a loop of eight is unrolled, and one of 64 is not and takes a fifth longer.
fn all_rounds(v: [u32; 8], ks: &[u32; 64], ws: &[u32; 64]) -> [u32; 8]
    ensures { result ≡ fold (λ v p. round p.0 p.1 v) v (zip ks.now ws.now) }
{
    let (ks, _) = ks.as_chunks::<8>();
    let (ws, _) = ws.as_chunks::<8>();
    ks.iter().zip(ws).fold(v, eight_rounds)
}

fn added(u: [u32; 8], v: [u32; 8]) -> [u32; 8]
    ensures { result ≡ sums u v }
{
    array::from_fn(|i| u[i].wrapping_add(v[i]))
}

// The hash value after one block.
#[tactic(auto, using(crate::proofs::Steps::rounds_in_pairs), unfolding(crate::specs::Sha256::compress))]
pub(crate) fn after_block(value: [u32; 8], block: &[u8; BLOCK]) -> [u32; 8]
    ensures { result ≡ compress value block.now }
{
    added(value, all_rounds(value, &ROUND_CONSTANTS, &schedule(block)))
}

// The hash value after some blocks.
pub(crate) fn after_blocks(value: [u32; 8], blocks: &[[u8; BLOCK]]) -> [u32; 8]
    ensures { result ≡ fold compress value blocks.now }
{
    blocks.iter().fold(value, after_block)
}
