ghost use Rattle.std.specs.Prelude.{◌≡◌, ◌<◌, bit_xor};
ghost use Rattle.hash.specs.Sha256.{ch, maj, rotr, shr};

#[tactic(auto, unfolding(crate::specs::Sha256::ch))]
pub(crate) fn choose(x: u32, y: u32, z: u32) -> u32
    ensures { result ≡ ch x y z }
{
    (x & y) ^ (!x & z)
}

#[tactic(auto, unfolding(crate::specs::Sha256::maj))]
pub(crate) fn majority(x: u32, y: u32, z: u32) -> u32
    ensures { result ≡ maj x y z }
{
    (x & y) ^ (x & z) ^ (y & z)
}

// Three rotations.
pub(crate) fn big_sigma<const A: u32, const B: u32, const C: u32>(x: u32) -> u32
    requires { (0 < A) × (A < 32) × (0 < B) × (B < 32) × (0 < C) × (C < 32) }
    ensures { result ≡ bit_xor (bit_xor (rotr A x) (rotr B x)) (rotr C x) }
{
    x.rotate_right(A) ^ x.rotate_right(B) ^ x.rotate_right(C)
}

// Two rotations and a shift.
pub(crate) fn small_sigma<const A: u32, const B: u32, const C: u32>(x: u32) -> u32
    requires { (0 < A) × (A < 32) × (0 < B) × (B < 32) × (C < 32) }
    ensures { result ≡ bit_xor (bit_xor (rotr A x) (rotr B x)) (shr C x) }
{
    x.rotate_right(A) ^ x.rotate_right(B) ^ (x >> C)
}
