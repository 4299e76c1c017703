// Takes the recorded matches through a signature scheme, and tells what it does in words.
use crate::judge::head;
use schemes::{Message, PUBLIC_LEN, SECRET_LEN, Scheme, sign_and_check};
use std::io;
use turns::{STATE_LEN, Seat, State, digest};

// Room for the longest signature that the program shows.
const ROOM: usize = 2304;

const UNKNOWN_KEY: u8 = 9;

const FREE_TURN: u8 = 31;

// The key of the seat that moves at a turn.
fn key_of(state: &State) -> u8 {
    state
        .at_match
        .saturating_mul(2)
        .saturating_add(u8::from(Seat::moving(state.turn)))
}

// What the keeper of a key keeps to itself, in this story.
pub(crate) fn secret(key: u8) -> [u8; SECRET_LEN] {
    [key.saturating_add(1); SECRET_LEN]
}

// A scheme at work, and where it is told.
#[derive(Drop)]
pub(crate) struct Signing<'a, S> {
    pub(crate) rt: &'a HostRuntime,
    pub(crate) scheme: &'a mut S,
}

impl<S: Scheme> Signing<'_, S> {
    fn enrol(&mut self, key: u8, public: Option<[u8; PUBLIC_LEN]>) -> io::Result<()> {
        let Some(public) = public else {
            return println!(self.rt; "  key {key} has no public key");
        };
        match self.scheme.enrol(key, &public) {
            Ok(()) => println!(self.rt; "  key {key} is enrolled"),
            Err(refusal) => println!(self.rt; "  key {key} again: {refusal}"),
        }
    }

    // Gives each seat's key its public key, and the first one again.
    pub(crate) fn enrol_seats(&mut self, publics: [Option<[u8; PUBLIC_LEN]>; 4]) -> io::Result<()> {
        for (key, public) in (0u8..).zip(publics) {
            self.enrol(key, public)?;
        }
        self.enrol(0, publics[0])
    }

    // Signs one state and checks what was signed; answers whether it checks.
    fn sign_state(&mut self, state: &State) -> io::Result<bool> {
        let mut signature = [0; ROOM];
        let turn = state.turn;
        let key = key_of(state);
        let digest = digest(&state.write());
        let message = Message {
            key,
            turn,
            digest: &digest,
        };
        match sign_and_check(self.scheme, &message, &secret(key), &mut signature) {
            Ok(good) => {
                let said = if good { "checks" } else { "does not check" };
                let len = S::L;
                let head = head(&digest);
                println!(self.rt;
                    "  turn {turn:>2}  key {key}  digest {head:08x}  signed in {len} bytes, and it {said}"
                )?;
                Ok(good)
            }
            Err(refusal) => {
                println!(self.rt; "  turn {turn:>2}  key {key}: {refusal}")?;
                Ok(false)
            }
        }
    }

    // Signs every state of a match; answers whether every signature checks.
    pub(crate) fn sign_match(&mut self, states: &[State]) -> io::Result<bool> {
        let mut good = true;
        for state in states {
            good &= self.sign_state(state)?;
        }
        Ok(good)
    }

    fn say_check(&self, what: &str, message: &Message<'_>, signature: &[u8]) -> io::Result<()> {
        let yes = self.scheme.check(message, signature);
        let said = if yes { "yes" } else { "no" };
        println!(self.rt; "  {what}: the check says {said}")
    }

    fn say_sign(&mut self, what: &str, key: u8, turn: u8, keeper: u8) -> io::Result<()> {
        let mut signature = [0; ROOM];
        let digest = digest(&[0; STATE_LEN]);
        let message = Message {
            key,
            turn,
            digest: &digest,
        };
        match self.scheme.sign(&message, &secret(keeper), &mut signature) {
            Ok(()) => println!(self.rt; "  {what}: signed"),
            Err(refusal) => println!(self.rt; "  {what}: {refusal}"),
        }
    }

    // A signature at a free turn, and what a changed byte in the state or in the signature gets.
    fn change_bytes(&mut self, state: &State) -> io::Result<()> {
        let key = key_of(state);
        let mut bytes = state.write();
        let mut signature = [0; ROOM];
        let signed = digest(&bytes);
        let message = Message {
            key,
            turn: FREE_TURN,
            digest: &signed,
        };
        if let Err(refusal) = self.scheme.sign(&message, &secret(key), &mut signature) {
            return println!(self.rt; "  {refusal}");
        }
        let Some(made) = signature.get(0..S::L) else {
            return println!(self.rt; "  the signature is too long for this story");
        };
        self.say_check("a state as it was signed", &message, made)?;
        bytes[20] ^= 1;
        let changed = digest(&bytes);
        let other = Message {
            digest: &changed,
            ..message
        };
        self.say_check("the state with a changed byte", &other, made)?;
        let unknown = Message {
            key: UNKNOWN_KEY,
            ..message
        };
        self.say_check("an unknown key", &unknown, made)?;
        signature[0] ^= 1;
        let changed = signature.get(0..S::L.max(1)).unwrap_or(&[]);
        self.say_check(
            "a signature with a changed or an added byte",
            &message,
            changed,
        )
    }

    // What a scheme refuses, once key 0 has signed a match.
    pub(crate) fn refuse_signings(&mut self, state: &State) -> io::Result<()> {
        self.change_bytes(state)?;
        self.say_sign("a wrong secret", 0, 30, 1)?;
        self.say_sign("a spent turn", 0, 0, 0)?;
        self.say_sign("an unknown key that signs", UNKNOWN_KEY, 0, UNKNOWN_KEY)?;
        self.say_sign("a turn that is too late", 0, 32, 0)
    }
}
