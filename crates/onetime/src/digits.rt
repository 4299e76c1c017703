ghost use Rattle.std.specs.Prelude.{◌≡◌, ℕ, [], ◌∷◌, drop, length, replicate, All, ◌≤◌, ◌/◌, ◌%◌};
ghost use Rattle.std.specs.List.{flat_map};
ghost use Rattle.onetime.specs.Digits.{digit_sum, digits_of, last_digits, nibbles};

use crate::parts::CHAINS;
use schemes::DIGEST_LEN;

// How many digits the bytes of a digest have.
const NIBBLES: usize = 2 * DIGEST_LEN;

// The four-bit digits of a digest's bytes, the high half of each byte first.
fn nibbles_of(digest: &[u8; DIGEST_LEN]) -> [[u8; 2]; DIGEST_LEN]
    ensures { flat_map (λ x. x) result ≡ nibbles digest.now }
{
    digest.map(
        |byte|
            ensures { result ≡ byte / 16 ∷ (byte % 16 ∷ []) }
        { [byte / 16, byte % 16] },
    )
}

// How far digits are from the last position of their chains, in all.
fn digit_sum(digits: &[u8]) -> u16
    requires small { All (λ d. d ≤ 15) digits.now }
    requires few { length digits.now ≤ 64 }
    ensures { result ≡ digit_sum digits.now }
{
    digits.iter().map(|digit| u16::from(15 - *digit)).sum()
}

// Three four-bit digits of a number, highest first.
fn last_digits(n: u16) -> [u8; 3]
    ensures { result ≡ last_digits n }
{
    [(n / 256 % 16) as u8, (n / 16 % 16) as u8, (n % 16) as u8]
}

// The digits of a digest, one for each chain: two of each byte, and three of what those leave open in all.
#[tactic(auto, using(crate::proofs::Nibbles::nibbles_small, crate::proofs::Nibbles::digits_written))]
pub(crate) fn digits_of(digest: &[u8; DIGEST_LEN]) -> [u8; CHAINS]
    ensures { result ≡ digits_of digest.now }
{
    let pairs = nibbles_of(digest);
    let nibbles = pairs.as_flattened();
    let mut digits = [0; CHAINS];
    digits[..NIBBLES].copy_from_slice(nibbles);
    digits[NIBBLES..].copy_from_slice(&last_digits(digit_sum(nibbles)));
    digits
}

// A worked example: the digest of 32 zero bytes has digit sum 960, and so the last digits 3, 12 and 0.
#[tactic(auto, unfolding(crate::specs::Digits::digits_of))]
pub fn last_digits_of_zeros() -> [u8; 3]
    ensures digits { result ≡ 3 ∷ (12 ∷ (0 ∷ [])) }
    ensures sum { digit_sum (nibbles (replicate 32 0)) ≡ 960 }
    ensures last { drop 64 (digits_of (replicate 32 0)) ≡ 3 ∷ (12 ∷ (0 ∷ [])) }
{
    let [.., a, b, c] = digits_of(&[0; DIGEST_LEN]);
    [a, b, c]
}
