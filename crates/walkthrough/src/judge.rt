// Judges a recorded match state by state, and tells it in words.
use crate::played::Played;
use std::io;
use turns::{Game, Refusal, Seat, State, Terms, digest};

// Who judges a match by the rules of a game, and tells what comes of it.
#[derive(Drop)]
pub(crate) struct Judge<'a, G> {
    pub(crate) rt: &'a HostRuntime,
    pub(crate) game: &'a G,
    pub(crate) terms: &'a Terms,
}

// The digest's first four bytes, as one number.
pub(crate) fn head(digest: &[u8; 32]) -> u32 {
    let [a, b, c, d, ..] = *digest;
    u32::from_be_bytes([a, b, c, d])
}

impl<G: Game> Judge<'_, G> {
    // Reads a proper state that follows another by a lawful step.
    fn follow(&self, before: &State, bytes: &[u8]) -> Result<State, Refusal> {
        let after = self.terms.read(bytes)?;
        self.terms.step(self.game, before, &after)?;
        Ok(after)
    }

    // One line for a state that was judged to be good.
    fn tell(&self, before: &State, after: &State, verdict: &str) -> io::Result<()> {
        let turn = after.turn;
        let seat = u8::from(Seat::moving(turn));
        let kind = after.kind;
        let seat0 = after.position.amounts.seat0;
        let seat1 = after.position.amounts.seat1;
        let words = Played::between(before, after);
        let head = head(&digest(&after.write()));
        println!(self.rt;
            "  turn {turn:>2}  seat {seat}  {kind:<8}  {seat0}:{seat1}  {head:08x}  {verdict}  {words}"
        )
    }

    // Judges a match from its first state on; answers whether all of it was good.
    pub(crate) fn judge(&self, states: &[State]) -> io::Result<bool> {
        let mut last: Option<State> = None;
        for recorded in states {
            let bytes = recorded.write();
            let verdict = match last {
                None => self.terms.read(&bytes),
                Some(before) => self.follow(&before, &bytes),
            };
            match verdict {
                Ok(state) => {
                    let before = last.unwrap_or(state);
                    let word = if last.is_some() { "lawful" } else { "proper" };
                    self.tell(&before, &state, word)?;
                    last = Some(state);
                }
                Err(refusal) => {
                    println!(self.rt; "  {refusal}")?;
                    return Ok(false);
                }
            }
        }
        Ok(true)
    }

    // Judges one more move, and tells why it is refused.
    pub(crate) fn refuse(&self, what: &str, before: &State, bytes: &[u8]) -> io::Result<()> {
        match self.follow(before, bytes) {
            Ok(_) => println!(self.rt; "  {what}: let through"),
            Err(refusal) => println!(self.rt; "  {what}: {refusal}"),
        }
    }
}
