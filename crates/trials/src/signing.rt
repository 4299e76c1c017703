// Both schemes: vectors of the one-time scheme from another implementation, and the order of the refusals.
use crate::bytes::flipped;
use crate::digits::spelled;
use crate::refusals;
use crate::signatures::{FIRST, LAST, MIDDLE, Vector};
use hash::sha256;
use onetime::OneTime;
use schemes::{Message, Register, Scheme};
use std::process::Abort;
use std::test::Fail;
use turns::{Layer, Refusal};

const KEY: u8 = 5;

fn public_of(secret: &[u8; 32]) -> [u8; 32] {
    OneTime::public_key(secret).unwrap_or([0; 32])
}

// Public key and signature are those of the vector, byte for byte.
fn is_made(rt: &impl Abort, vector: &Vector) -> Result<(), Fail> {
    let secret = spelled(vector.secret)?;
    let public = spelled(vector.public)?;
    assert!(rt; public_of(&secret) == public);
    let mut scheme = OneTime::new();
    assert!(rt; scheme.enrol(KEY, &public).is_ok());
    let mut signature = [0; 2304];
    let digest = spelled(vector.digest)?;
    let message = Message {
        key: KEY,
        turn: vector.turn,
        digest: &digest,
    };
    assert!(rt; scheme.sign(&message, &secret, &mut signature).is_ok());
    let (parts, _) = signature.as_chunks::<32>();
    assert!(rt; parts.len() == vector.signature.len());
    for (made, part) in parts.iter().zip(vector.signature) {
        assert!(rt; *made == spelled(part)?);
    }
    assert!(rt; scheme.check(&message, &signature));
    is_changed(rt, &scheme, vector.turn, &digest, signature);
    Ok(())
}

// No single byte may be changed: at every 61st place, so that each part is met.
fn is_changed(
    rt: &impl Abort,
    scheme: &OneTime,
    turn: u8,
    digest: &[u8; 32],
    signature: [u8; 2304],
) {
    let message = Message {
        key: KEY,
        turn,
        digest,
    };
    assert!(rt; !(0..38usize).any(|k| scheme.check(&message, &flipped(signature, 61 * k))));
    assert!(rt; !scheme.check(&message, &flipped(signature, 2303)));
    let digest = &flipped(*digest, 31);
    assert!(rt; !scheme.check(&Message { digest, ..message }, &signature));
    let turn = turn ^ 1;
    assert!(rt; !scheme.check(&Message { turn, ..message }, &signature));
    let key = KEY ^ 1;
    assert!(rt; !scheme.check(&Message { key, ..message }, &signature));
    assert!(rt; !scheme.check(&message, &signature[0..2303]));
}

#[test]
fn first_vector(rt: HostRuntime) -> Result<(), Fail> {
    is_made(&rt, &FIRST)
}

#[test]
fn middle_vector(rt: HostRuntime) -> Result<(), Fail> {
    is_made(&rt, &MIDDLE)
}

#[test]
fn last_vector(rt: HostRuntime) -> Result<(), Fail> {
    is_made(&rt, &LAST)
}

// A scheme's refusal blames no state.
fn says(
    rt: &impl Abort,
    answer: Result<(), Refusal>,
    number: u8,
    at_match: u8,
) -> Result<(), Fail> {
    refusals::says(rt, answer, (number, Layer::Scheme, at_match, 255, 255))
}

// A key is enrolled once, with a public key of 32 bytes.
fn enrols<S: Scheme>(rt: &impl Abort, scheme: &mut S, public: &[u8; 32]) -> Result<(), Fail> {
    says(rt, scheme.enrol(16, public), 12, 255)?;
    says(rt, scheme.enrol(3, &public[0..31]), 12, 1)?;
    assert!(rt; !scheme.enrolled(3));
    assert!(rt; scheme.enrol(3, public).is_ok());
    assert!(rt; scheme.enrolled(3) && !scheme.enrolled(2) && !scheme.enrolled(16));
    says(rt, scheme.enrol(3, public), 32, 1)
}

// One signing by key 3 or another, into a longer buffer of sevens.
fn signs<S: Scheme>(
    scheme: &mut S,
    key: u8,
    turn: u8,
    digest: &[u8],
    secret: &[u8],
) -> Result<(), Refusal> {
    let mut room = [7; 2400];
    scheme.sign(&Message { key, turn, digest }, secret, &mut room)
}

fn refuses_arguments<S: Scheme>(
    rt: &impl Abort,
    scheme: &mut S,
    secret: &[u8; 32],
) -> Result<(), Fail> {
    let digest = [1; 32];
    says(rt, signs(scheme, 16, 0, &digest, secret), 12, 255)?;
    says(rt, signs(scheme, 3, 32, &digest, secret), 12, 1)?;
    says(rt, signs(scheme, 3, 0, &digest[0..31], secret), 12, 1)?;
    says(rt, signs(scheme, 3, 0, &digest, &secret[0..31]), 12, 1)?;
    says(rt, signs(scheme, 2, 0, &digest, secret), 33, 1)
}

fn refuses_signings<S: Scheme>(
    rt: &impl Abort,
    scheme: &mut S,
    secret: &[u8; 32],
) -> Result<(), Fail> {
    let digest = [1; 32];
    let wrong = [99; 32];
    says(rt, signs(scheme, 3, 0, &digest, &wrong), 14, 1)?;
    assert!(rt; signs(scheme, 3, 0, &digest, secret).is_ok());
    // a spent turn with a wrong secret is a wrong secret
    says(rt, signs(scheme, 3, 0, &digest, &wrong), 14, 1)?;
    says(rt, signs(scheme, 3, 0, &digest, secret), 31, 1)?;
    assert!(rt; signs(scheme, 3, 1, &digest, secret).is_ok());
    Ok(())
}

fn refuses<S: Scheme>(
    rt: &impl Abort,
    scheme: &mut S,
    public: &[u8; 32],
    secret: &[u8; 32],
) -> Result<(), Fail> {
    enrols(rt, scheme, public)?;
    refuses_arguments(rt, scheme, secret)?;
    refuses_signings(rt, scheme, secret)
}

// A refused signing leaves the buffer, and an accepted one what lies behind the signature.
#[test]
fn a_buffer_is_kept(rt: HostRuntime) -> Result<(), Fail> {
    let secret = [11; 32];
    let mut scheme = OneTime::new();
    assert!(rt; scheme.enrol(0, &public_of(&secret)).is_ok());
    let message = Message {
        key: 0,
        turn: 0,
        digest: &[1; 32],
    };
    let mut room = [7; 2306];
    says(&rt, scheme.sign(&message, &[99; 32], &mut room), 14, 0)?;
    assert!(rt; room == [7; 2306]);
    assert!(rt; scheme.sign(&message, &secret, &mut room).is_ok());
    assert!(rt; room[2304] == 7 && room[2305] == 7);
    Ok(())
}

#[test]
fn a_register_refuses_in_order(rt: HostRuntime) -> Result<(), Fail> {
    let secret = [11; 32];
    let public = Register::public_key(&secret).unwrap_or([0; 32]);
    refuses(&rt, &mut Register::new(), &public, &secret)
}

#[test]
fn one_time_refuses_in_order(rt: HostRuntime) -> Result<(), Fail> {
    let secret = [11; 32];
    refuses(&rt, &mut OneTime::new(), &public_of(&secret), &secret)
}

#[test]
fn a_short_buffer_is_refused(rt: HostRuntime) -> Result<(), Fail> {
    let secret = [11; 32];
    let mut scheme = OneTime::new();
    let mut room = [0; 2303];
    let message = Message {
        key: 3,
        turn: 0,
        digest: &[0; 32],
    };
    // too short a buffer comes before an unknown key
    says(&rt, scheme.sign(&message, &secret, &mut room), 13, 1)
}

#[test]
fn a_register_accepts_what_was_entered(rt: HostRuntime) -> Result<(), Fail> {
    let secret = [11; 32];
    let digest = sha256(b"a state");
    // SHA-256 of byte 4 and 32 bytes of 11, by Python's hashlib
    let public = spelled("1897350f311cb41970d69bd38018555b44522be3800d6e1a7994871e192d0534")?;
    assert!(rt; Register::public_key(&secret) == Some(public));
    let mut scheme = Register::new();
    assert!(rt; scheme.enrol(KEY, &public).is_ok());
    let message = Message {
        key: KEY,
        turn: 7,
        digest: &digest,
    };
    assert!(rt; !scheme.check(&message, &[]));
    assert!(rt; scheme.sign(&message, &secret, &mut []).is_ok());
    assert!(rt; scheme.check(&message, &[]));
    let another = sha256(b"another");
    let digest = &another;
    assert!(rt; !scheme.check(&Message { digest, ..message }, &[]));
    assert!(rt; !scheme.check(&Message { turn: 8, ..message }, &[]));
    assert!(rt; !scheme.check(&message, &[0]));
    assert!(rt;
        !scheme.check(
            &Message {
                turn: 32,
                ..message
            },
            &[]
        )
    );
    assert!(rt; !scheme.check(&Message { key: 6, ..message }, &[]));
    Ok(())
}
