ghost use Rattle.std.specs.Prelude.{◌≡◌, ℕ, ◌≤◌, Bool, true, List, is_some};
ghost use Rattle.schemes.specs.Calls.{Enrols, Signs};
ghost use Rattle.schemes.specs.Meaning.{Meaning, Proper};

use crate::place::Message;
use turns::Refusal;

// A signature scheme over 16 keys, each of which signs a turn, 0 to 31, once. What it means is, for each key, its
// public key or none, its spent turns and what it accepts; and which secret fits which public key. A signature has L
// bytes, a public key P and a secret Q.
pub trait Scheme {
    const L: usize;

    const P: usize;

    const Q: usize;

    ghost L: { ℕ };

    ghost P: { ℕ };

    ghost Q: { ℕ };

    ghost means: { Self → Meaning };

    ghost fits: { List ℕ → List ℕ → Bool };

    // Whether the key has a public key.
    fn enrolled(&self, key: u8) -> bool
        ensures { result ≡ is_some ((means self.now).public key) };

    // Gives a key its public key.
    fn enrol(&mut self, key: u8, public: &[u8]) -> Result<(), Refusal>
        ensures { Enrols P (means self.old) (means self.new) key public.now tt result };

    // Spends a turn of a key on a digest, and writes the signature into the front of the lent buffer.
    // The clause has a message's parts one by one: what a scheme means is said of numbers and bytes, and a `Message` would
    // bring a borrow into it.
    fn sign(
        &mut self,
        message: &Message<'_>,
        secret: &[u8],
        signature: &mut [u8],
    ) -> Result<(), Refusal>
        ensures { Signs L Q fits (means self.old) (means self.new) message.now.key message.now.turn message.now.digest.now secret.now signature.old signature.new tt result };

    // Whether the scheme accepts a signature.
    fn check(&self, message: &Message<'_>, signature: &[u8]) -> bool
        ensures { result ≡ (means self.now).accepts message.now.key message.now.turn message.now.digest.now signature.now };

    // There are 16 keys.
    ghost few: { (s : Self) (key : ℕ) → is_some ((means s).public key) ≡ true → key ≤ 15 };

    // What is accepted has its lengths right, and an enrolled key.
    ghost proper: { (s : Self) (key turn : ℕ) (digest signature : List ℕ) → (means s).accepts key turn digest signature ≡ true → Proper L (means s) key turn digest signature };
}
