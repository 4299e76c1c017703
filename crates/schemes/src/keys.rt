ghost use Rattle.std.specs.Prelude.{◌≡◌};
ghost use Rattle.std.specs.Str.{bytes_eq};
ghost use Rattle.schemes.specs.Calls.{late_refusal, refuse_key};
ghost use Rattle.turns.specs.Refusals.{answer};

use crate::place::{DIGEST_LEN, KEYS, Place};
use turns::{Layer, NONE, Reason, Refusal};

pub const PUBLIC_LEN: usize = 32;

pub const SECRET_LEN: usize = 32;

// A refusal of a call about a key: of its match, or of none, which is 255 in a refusal.
pub fn refusal(reason: Reason, key: u8) -> Refusal
    ensures { result ≡ refuse_key reason key }
{
    let at_match = if key as usize >= KEYS { NONE } else { key / 2 };
    Refusal::new(reason, Layer::Scheme, at_match)
}

// A signing against which nothing but its secret or a spent turn can speak: its place, digest and secret, and the
// public key of its key.
#[derive(Clone, Copy)]
pub struct Ready<'d, 's> {
    pub place: Place,
    pub digest: &'d [u8; DIGEST_LEN],
    pub secret: &'s [u8; SECRET_LEN],
    pub public: [u8; PUBLIC_LEN],
}

impl Ready<'_, '_> {
    // What is asked last: whether the secret makes the public key, and whether the turn is spent.
    pub fn clear(&self, made: &[u8; PUBLIC_LEN], is_spent: bool) -> Result<(), Refusal>
        ensures { result ≡ answer (late_refusal self.now.place.key (bytes_eq made.now self.now.public) is_spent) tt }
    {
        if *made != self.public {
            return Err(refusal(Reason::Secret, self.place.key));
        }
        if is_spent {
            return Err(refusal(Reason::TurnSpent, self.place.key));
        }
        Ok(())
    }
}
