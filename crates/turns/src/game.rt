ghost use Rattle.std.specs.Prelude.{◌≡◌, ℕ, Bool};
ghost use Rattle.turns.specs.declared.game.Step.{Step};

use crate::state::Position;

// What a game is asked about: the match's code and stake, the later turn, and the positions before and after.
#[derive(Clone, Copy, PartialEq, Eq)]
pub struct Step {
    pub code: u8,
    pub stake: u64,
    pub turn: u8,
    pub before: Position,
    pub after: Position,
}

// The rules of one or more games. What they mean is a set of codes, and one yes-or-no function of a step.
// The two questions always answer that meaning.
pub trait Game {
    ghost codes: { Self → ℕ → Bool };

    ghost lawful: { Self → Step → Bool };

    fn knows(&self, code: u8) -> bool
        ensures { result ≡ codes self.now code };

    fn allows(&self, step: &Step) -> bool
        ensures { result ≡ lawful self.now step.now };
}
