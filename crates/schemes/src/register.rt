ghost use Rattle.std.specs.Prelude.{◌≡◌, ◌∷◌};
ghost use Rattle.schemes.specs.Meaning.{Fresh};
ghost use Rattle.hash.specs.Sha256.{sha_256};
ghost use Rattle.schemes.specs.Registers.{Cleared, fits_register, public_key, register_means};
ghost use Rattle.std.proofs.Common.{rules};

use crate::keys::{PUBLIC_LEN, Ready, SECRET_LEN};
use crate::pages::Pages;
use crate::place::{DIGEST_LEN, Message};
use crate::scheme::Scheme;
use turns::Refusal;

const SIGNATURE_LEN: usize = 0;

// The register scheme: to sign is to enter a digest, and signatures are empty.
#[derive(Drop)]
pub struct Register {
    pages: Pages<Option<[u8; DIGEST_LEN]>>,
}

// What a secret is committed to by.
// The one hash of this crate: a function of any parts, as the one-time scheme has for four, would be no plainer.
fn commitment(secret: &[u8; SECRET_LEN]) -> [u8; PUBLIC_LEN]
    ensures { result ≡ sha_256 (4 ∷ secret.now) }
{
    let mut bytes = [4; 1 + SECRET_LEN];
    bytes[1..].copy_from_slice(secret);
    hash::sha256(&bytes)
}

impl Register {
    pub fn new() -> Register
        ensures { Fresh (register_means result) }
    {
        Register {
            pages: Pages::new(None),
        }
    }

    // The public key of a secret of 32 bytes.
    pub fn public_key(secret: &[u8]) -> Option<[u8; PUBLIC_LEN]>
        ensures { result ≡ public_key secret.now }
    {
        secret.as_array().map(commitment)
    }

    // What a signing enters, if nothing speaks against it.
    // Not one function for both schemes: the other makes its tree between the halves of the ladder, and needs it after.
    fn clear_to_sign<'d, 's>(
        &self,
        message: &Message<'d>,
        secret: &'s [u8],
        room: usize,
    ) -> Result<Ready<'d, 's>, Refusal>
        ensures { Cleared self.now message.now.key message.now.turn message.now.digest.now secret.now room result }
    {
        let ready = self.pages.signer(message, secret, SIGNATURE_LEN, room)?;
        let is_spent = self.pages.at(ready.place).is_some();
        ready.clear(&commitment(ready.secret), is_spent)?;
        Ok(ready)
    }
}

impl Scheme for Register {
    const L: usize = SIGNATURE_LEN;

    const P: usize = PUBLIC_LEN;

    const Q: usize = SECRET_LEN;

    ghost L = { 0 };

    ghost P = { 32 };

    ghost Q = { 32 };

    ghost means = { register_means };

    ghost fits = { fits_register };

    ghost few = { Prim.search rules };

    ghost proper = { Prim.search rules };

    // As in the one-time scheme, a line over the pages: a trait of schemes with pages would be longer than both.
    fn enrolled(&self, key: u8) -> bool {
        self.pages.get(key).is_some()
    }

    fn enrol(&mut self, key: u8, public: &[u8]) -> Result<(), Refusal> {
        self.pages.enrol(key, public, None)
    }

    #[tactic(auto, using(crate::proofs::Entries::entry_keeps))]
    fn sign(
        &mut self,
        message: &Message<'_>,
        secret: &[u8],
        signature: &mut [u8],
    ) -> Result<(), Refusal> {
        let ready = self.clear_to_sign(message, secret, signature.len())?;
        self.pages.put(ready.place, Some(*ready.digest));
        Ok(())
    }

    fn check(&self, message: &Message<'_>, signature: &[u8]) -> bool {
        let Some((place, digest)) = message.parts() else {
            return false;
        };
        self.enrolled(message.key) && signature.is_empty() && self.pages.at(place) == Some(*digest)
    }
}
