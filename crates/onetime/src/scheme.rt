ghost use Rattle.std.specs.Prelude.{◌≡◌, ◌≤◌, length, take, drop};
ghost use Rattle.onetime.specs.Meanings.{Cleared, SignatureWritten, fits_onetime, onetime_means, public_key};
ghost use Rattle.onetime.specs.Signatures.{ChainsMeet, PathsLeadUp, SignaturesAccepted, signature};
ghost use Rattle.onetime.specs.Trees.{Grown};
ghost use Rattle.schemes.specs.Calls.{Signs};
ghost use Rattle.schemes.specs.Meaning.{Fresh};
ghost use Rattle.std.proofs.Common.{rules};

use crate::chains::chains_at;
use crate::digits::digits_of;
use crate::parts::{CHAINS_LEN, Hash, SIGNATURE_LEN};
use crate::paths::leads_to;
use crate::tree::Tree;
use schemes::{DIGEST_LEN, Message, PUBLIC_LEN, Pages, Ready, SECRET_LEN, Scheme};
use turns::Refusal;

// The one-time scheme: each turn of a key has a leaf of Winternitz chains, and the public key is the root over them.
// Of each turn it keeps whether it is spent.
#[derive(Drop)]
pub struct OneTime {
    pages: Pages<bool>,
}

// What holds of the scheme.
fn laws()
    ensures chains { ChainsMeet }
    ensures paths { PathsLeadUp }
    ensures accepted { SignaturesAccepted }
{}

// The root of a secret's tree.
fn root_of(secret: &[u8]) -> Option<[u8; PUBLIC_LEN]>
    ensures { result ≡ public_key secret.now }
{
    let secret = secret.as_array()?;
    Some(Tree::of(secret).root)
}

// Writes a signature into the front of a lent buffer, with the tree of the secret.
fn write_signature(tree: &Tree, ready: &Ready<'_, '_>, out: &mut [u8])
    requires room { 2304 ≤ length out.old }
    requires grown { Grown ready.now.secret.now tree.now }
    ensures front { take 2304 out.new ≡ signature ready.now.secret.now ready.now.place.turn ready.now.digest.now }
    ensures rest { drop 2304 out.new ≡ drop 2304 out.old }
{
    let Ready {
        place,
        digest,
        secret,
        ..
    } = *ready;
    let chains = chains_at(place.turn, &digits_of(digest), secret);
    let path = tree.path(place);
    out[..CHAINS_LEN].copy_from_slice(chains.as_flattened());
    out[CHAINS_LEN..SIGNATURE_LEN].copy_from_slice(path.as_flattened());
}

impl OneTime {
    pub fn new() -> OneTime
        ensures { Fresh (onetime_means result) }
    {
        OneTime {
            pages: Pages::new(false),
        }
    }

    // The public key of a secret of 32 bytes. Every signature that the secret makes is accepted under it.
    pub fn public_key(secret: &[u8]) -> Option<[u8; PUBLIC_LEN]>
        ensures answer { result ≡ public_key secret.now }
        ensures chains { ChainsMeet }
        ensures paths { PathsLeadUp }
        ensures accepted { SignaturesAccepted }
    {
        laws();
        root_of(secret)
    }

    // What a signing is about and the secret's tree, if nothing speaks against it.
    // Not one function for both schemes: here the tree is made between the halves of the ladder, and is needed after.
    fn clear_to_sign<'d, 's>(
        &self,
        message: &Message<'d>,
        secret: &'s [u8],
        room: usize,
    ) -> Result<(Ready<'d, 's>, Tree), Refusal>
        ensures { Cleared self.now message.now.key message.now.turn message.now.digest.now secret.now room result }
    {
        let ready = self.pages.signer(message, secret, SIGNATURE_LEN, room)?;
        let tree = Tree::of(ready.secret);
        ready.clear(&tree.root, self.pages.at(ready.place))?;
        Ok((ready, tree))
    }
}

impl Scheme for OneTime {
    const L: usize = SIGNATURE_LEN;

    const P: usize = PUBLIC_LEN;

    const Q: usize = SECRET_LEN;

    ghost L = { 2304 };

    ghost P = { 32 };

    ghost Q = { 32 };

    ghost means = { onetime_means };

    ghost fits = { fits_onetime };

    ghost few = { Prim.search rules };

    ghost proper = { Prim.search rules };

    // As in the register scheme, a line over the pages: a trait of schemes with pages would be longer than both.
    fn enrolled(&self, key: u8) -> bool {
        self.pages.get(key).is_some()
    }

    fn enrol(&mut self, key: u8, public: &[u8]) -> Result<(), Refusal> {
        self.pages.enrol(key, public, false)
    }

    #[tactic(auto, using(crate::proofs::States::spent_keeps))]
    fn sign(
        &mut self,
        message: &Message<'_>,
        secret: &[u8],
        signature: &mut [u8],
    ) -> Result<(), Refusal>
        ensures signing { Signs 2304 32 fits_onetime (onetime_means self.old) (onetime_means self.new) message.now.key message.now.turn message.now.digest.now secret.now signature.old signature.new tt result }
        ensures bytes { SignatureWritten result secret.now message.now.turn message.now.digest.now signature.new }
    {
        let (ready, tree) = self.clear_to_sign(message, secret, signature.len())?;
        write_signature(&tree, &ready, signature);
        self.pages.put(ready.place, true);
        Ok(())
    }

    fn check(&self, message: &Message<'_>, signature: &[u8]) -> bool {
        let (Some(public), Some((_, digest)), Some(signature)) = (
            self.pages.get(message.key),
            message.parts(),
            signature.as_array(),
        ) else {
            return false;
        };
        leads_to(message.turn, digest, signature) == public
    }
}
