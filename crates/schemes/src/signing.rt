ghost use Rattle.std.specs.Prelude.{◌≡◌, ◌≤◌, true, Ok, Err, ◌≢◌};
ghost use Rattle.schemes.specs.Calls.{Enrols, Signs};

use crate::place::Message;
use crate::scheme::Scheme;
use turns::Refusal;

// Enrols a key, and asks for it: where the enrolment is accepted the answer is yes, at every scheme.
pub fn enrol_and_ask<S: Scheme>(scheme: &mut S, key: u8, public: &[u8]) -> Result<bool, Refusal>
    ensures { Enrols S.Scheme.P (S.Scheme.means scheme.old) (S.Scheme.means scheme.new) key public.now true result }
{
    scheme.enrol(key, public)?;
    Ok(scheme.enrolled(key))
}

// Signs, and checks the signature: where the signing is accepted the check says yes, at every scheme.
pub fn sign_and_check<S: Scheme>(
    scheme: &mut S,
    message: &Message<'_>,
    secret: &[u8],
    signature: &mut [u8],
) -> Result<bool, Refusal>
    ensures { Signs S.Scheme.L S.Scheme.Q S.Scheme.fits (S.Scheme.means scheme.old) (S.Scheme.means scheme.new) message.now.key message.now.turn message.now.digest.now secret.now signature.old signature.new true result }
{
    scheme.sign(message, secret, signature)?;
    Ok(scheme.check(message, &signature[0..S::L]))
}

// Checks one signature before and after another is made. What was accepted stays so, and nothing else comes to be
// accepted where the other key is another one, or the signing was refused.
pub fn sign_between_checks<S: Scheme>(
    scheme: &mut S,
    message: &Message<'_>,
    signature: &[u8],
    other: &Message<'_>,
    secret: &[u8],
    buffer: &mut [u8],
) -> (bool, Result<(), Refusal>, bool)
    ensures signing { Signs S.Scheme.L S.Scheme.Q S.Scheme.fits (S.Scheme.means scheme.old) (S.Scheme.means scheme.new) other.now.key other.now.turn other.now.digest.now secret.now buffer.old buffer.new tt result.1 }
    ensures before { result.0 ≡ (S.Scheme.means scheme.old).accepts message.now.key message.now.turn message.now.digest.now signature.now }
    ensures after { result.2 ≡ (S.Scheme.means scheme.new).accepts message.now.key message.now.turn message.now.digest.now signature.now }
    ensures stays { result.0 ≡ true → result.2 ≡ true }
    ensures apart { (message.now.key ≢ other.now.key) → result.2 ≡ result.0 }
    ensures refused { elim result.1 [ Ok u ↦ Unit {0} | Err e ↦ result.2 ≡ result.0 ] }
    ensures known { ((result.0 ≡ true → message.now.key ≤ 15)) × ((result.0 ≡ true → message.now.turn ≤ 31)) }
{
    let before = scheme.check(message, signature);
    let signed = scheme.sign(other, secret, buffer);
    let after = scheme.check(message, signature);
    (before, signed, after)
}
