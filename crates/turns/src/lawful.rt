ghost use Rattle.std.specs.Prelude.{◌≡◌};
ghost use Rattle.turns.specs.Lawful.{asked, next_refusal, lawful_refusal, step_refusal};
ghost use Rattle.turns.specs.Refusals.{blame, answer};

use crate::game::{Game, Step};
use crate::layer::Layer;
use crate::refusal::{Reason, Refusal};
use crate::state::{Kind, State, Terms};

impl Terms {
    // A refusal that blames a state by its turn.
    pub fn blame(&self, reason: Reason, layer: Layer, turn: u8) -> Refusal
        ensures { result ≡ blame reason layer self.now.at_match turn }
    {
        Refusal::blaming(reason, layer, self.at_match, turn)
    }

    // Whether the later turn is one more.
    pub fn next(&self, before: &State, after: &State) -> Result<(), Refusal>
        ensures { result ≡ answer (next_refusal self.now before.now after.now) tt }
    {
        if before.turn.checked_add(1) != Some(after.turn) {
            return Err(self.blame(Reason::NotNext, Layer::Turns, after.turn));
        }
        Ok(())
    }

    // Whether the game allows the step from one state to another.
    // In a function of its own: room for a `Step` is paid for at the entry of the function that makes it, and steps of
    // funding and to a Conclude are not the game's to decide.
    fn game_allows<G: Game>(&self, game: &G, before: &State, after: &State) -> bool
        ensures { result ≡ G.Game.lawful game.now (asked self.now before.now after.now) }
    {
        game.allows(&Step {
            code: self.code,
            stake: self.stake,
            turn: after.turn,
            before: before.position,
            after: after.position,
        })
    }

    // Whether a step is lawful whose later turn is one more.
    pub fn lawful<G: Game>(&self, game: &G, before: &State, after: &State) -> Result<(), Refusal>
        ensures { result ≡ answer (lawful_refusal (G.Game.lawful game.now) self.now before.now after.now) tt }
    {
        match (before.kind, after.kind) {
            (_, Kind::Conclude) if before.position == after.position => Ok(()),
            (Kind::PreFund, Kind::PreFund | Kind::PostFund) => Ok(()),
            (Kind::PostFund, Kind::PostFund) => Ok(()),
            (Kind::PostFund | Kind::Game, Kind::Game) => {
                if self.game_allows(game, before, after) {
                    Ok(())
                } else {
                    Err(self.blame(Reason::Unlawful, Layer::Game, after.turn))
                }
            }
            _ => Err(self.blame(Reason::Unlawful, Layer::Turns, after.turn)),
        }
    }

    // Whether one state follows another by a lawful step.
    pub fn step<G: Game>(&self, game: &G, before: &State, after: &State) -> Result<(), Refusal>
        ensures { result ≡ answer (step_refusal (G.Game.lawful game.now) self.now before.now after.now) tt }
    {
        self.next(before, after)?;
        self.lawful(game, before, after)
    }
}
