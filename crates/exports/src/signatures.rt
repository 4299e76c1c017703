ghost use Rattle.std.specs.Prelude.{◌≡◌, false, length, MatchResult, ◌==◌};
ghost use Rattle.exports.specs.Answers.{Holds, as_key, can_root, can_sign, rooted, signed};
ghost use Rattle.onetime.specs.Signatures.{accepted_by};

use onetime::OneTime;
use schemes::{Message, PUBLIC_LEN, Scheme};
use turns::Refusal;

const KEY: u8 = 0;

// Writes the public key of a secret into 32 lent bytes. A bool beside lent bytes: C has no Option.
#[unsafe(no_mangle)]
pub extern "C" fn kofnasig_onetime_root(secret: &[u8], public: &mut [u8]) -> bool
    ensures answer { result ≡ can_root secret.now public.old }
    ensures after { public.new ≡ rooted secret.now public.old }
{
    if public.len() != PUBLIC_LEN {
        return false;
    }
    let Some(root) = OneTime::public_key(secret) else {
        return false;
    };
    public.copy_from_slice(&root);
    true
}

// A scheme in which key 0 has this public key.
fn with_key(public: &[u8]) -> Result<OneTime, Refusal>
    ensures { MatchResult result (λ s. Holds public.now s) (λ _. (length public.now == 32) ≡ false) }
{
    let mut scheme = OneTime::new();
    scheme.enrol(KEY, public)?;
    Ok(scheme)
}

// Writes the signature of a digest at a turn into the first 2304 of the lent bytes, if the secret fits the public key.
// A bool beside lent bytes: C has no Result.
#[tactic(auto, using(crate::proofs::Signing::accepted, crate::proofs::Signing::left))]
#[unsafe(no_mangle)]
pub extern "C" fn kofnasig_onetime_sign(
    public: &[u8],
    secret: &[u8],
    turn: u8,
    digest: &[u8],
    signature: &mut [u8],
) -> bool
    ensures answer { result ≡ can_sign public.now secret.now turn digest.now signature.old }
    ensures after { signature.new ≡ signed public.now secret.now turn digest.now signature.old }
{
    let Ok(mut scheme) = with_key(public) else {
        return false;
    };
    let message = Message {
        key: KEY,
        turn,
        digest,
    };
    scheme.sign(&message, secret, signature).is_ok()
}

// Whether a signature of a digest at a turn is accepted under a public key.
#[unsafe(no_mangle)]
pub extern "C" fn kofnasig_onetime_check(
    public: &[u8],
    turn: u8,
    digest: &[u8],
    signature: &[u8],
) -> bool
    ensures { result ≡ accepted_by (as_key public.now) turn digest.now signature.now }
{
    let Ok(scheme) = with_key(public) else {
        return false;
    };
    let message = Message {
        key: KEY,
        turn,
        digest,
    };
    scheme.check(&message, signature)
}
