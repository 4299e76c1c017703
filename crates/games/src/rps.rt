ghost use Rattle.std.specs.Prelude.{◌≡◌, ◌<◌, false, MatchResult, ◌==◌};
ghost use Rattle.games.specs.Reading.{ReadIf};
ghost use Rattle.games.specs.Throws.{phase, phase_number, clean, commitment, keeps_word, throw_number, winnings, result as result_of, is_throw, throws_shape, throws_stakes, throws_lawful};

use crate::rounds::{NoPhase, Rounds, allows, may_begin};
use hash::sha256;
use turns::{DATA_LEN, Game, Step, all_zero};

const CODE: u8 = 1;

// where the parts lie in a state's data
const PHASE: usize = 0;

const COMMITMENT: usize = 1;

const SECOND: usize = 33;

const FIRST: usize = 34;

// How far a round of throws has come.
#[derive(Clone, Copy)]
enum Phase {
    Nothing,
    Committed,
    Answered,
    Shown,
}

impl TryFrom<u8> for Phase {
    type Error = NoPhase;

    ghost try_from_gives = { λ byte r. MatchResult r (λ x. phase_number x ≡ byte) (λ _. 3 < byte) };

    fn try_from(byte: u8) -> Result<Phase, NoPhase> {
        match byte {
            0 => Ok(Phase::Nothing),
            1 => Ok(Phase::Committed),
            2 => Ok(Phase::Answered),
            3 => Ok(Phase::Shown),
            _ => Err(NoPhase),
        }
    }
}

#[derive(Clone, Copy, PartialEq, Eq)]
enum Throw {
    Rock,
    Paper,
    Scissors,
}

// A byte that names no throw.
#[derive(Clone, Copy)]
struct NoThrow;

impl TryFrom<u8> for Throw {
    type Error = NoThrow;

    ghost try_from_gives = { λ byte r. MatchResult r (λ x. throw_number x ≡ byte) (λ _. is_throw byte ≡ false) };

    fn try_from(byte: u8) -> Result<Throw, NoThrow> {
        match byte {
            1 => Ok(Throw::Rock),
            2 => Ok(Throw::Paper),
            3 => Ok(Throw::Scissors),
            _ => Err(NoThrow),
        }
    }
}

impl Throw {
    // How many stakes the first thrower gets over a second throw: its own back at a tie, both if it wins.
    fn winnings(self, second: Throw) -> u8
        ensures { result ≡ winnings (result_of (throw_number self) (throw_number second)) }
    {
        if self == second {
            return 1;
        }
        match (self, second) {
            (Throw::Rock, Throw::Scissors)
            | (Throw::Paper, Throw::Rock)
            | (Throw::Scissors, Throw::Paper) => 2,
            _ => 0,
        }
    }
}

// The phase of data whose unused bytes are zero.
// Each range begins at a constant: from a place that varies the bytes are tested one by one, in twice the time.
// Not one generic function with that of boards: the trait of phases, with its ghost members, is longer than both.
// The throws stay bytes: from phase 3 the rules do not judge them, so reading typed ones would refuse lawful steps.
#[tactic(auto, unfolding(crate::specs::Throws::clean))]
fn phase_of(data: &[u8; DATA_LEN]) -> Option<Phase>
    ensures { ReadIf (clean «data».now) result (λ x. phase «data».now ≡ phase_number x) }
{
    let phase = Phase::try_from(data[PHASE]).ok()?;
    let clean = match phase {
        Phase::Nothing => all_zero(&data[COMMITMENT..]),
        Phase::Committed => all_zero(&data[SECOND..]),
        Phase::Answered => all_zero(&data[FIRST..]),
        Phase::Shown => true,
    };
    clean.then_some(phase)
}

#[tactic(auto, unfolding(crate::specs::Throws::commitment))]
fn commitment(data: &[u8; DATA_LEN]) -> &[u8; 32]
    ensures { result.now ≡ commitment «data».now }
{
    data[COMMITMENT..SECOND].as_array().unwrap()
}

// Whether the first throw and its salt are what was committed to.
#[tactic(auto, using(std::proofs::lemmas::List::drop_more), unfolding(crate::specs::Throws::keeps_word))]
fn keeps_word(data: &[u8; DATA_LEN]) -> bool
    ensures { result ≡ keeps_word «data».now }
{
    sha256(&data[FIRST..]) == *commitment(data)
}

#[derive(Clone, Copy)]
pub struct RockPaperScissors;

impl Rounds for RockPaperScissors {
    ghost shape = { throws_shape };

    ghost stakes = { throws_stakes };

    fn has_shape(step: &Step) -> bool {
        let before = &step.before.data;
        let after = &step.after.data;
        let (Some(old), Some(new)) = (phase_of(before), phase_of(after)) else {
            return false;
        };
        match (old, new) {
            (Phase::Nothing, Phase::Committed) => may_begin(step),
            (Phase::Committed, Phase::Answered) => {
                commitment(after) == commitment(before) && Throw::try_from(after[SECOND]).is_ok()
            }
            (Phase::Answered, Phase::Shown) => {
                commitment(after) == commitment(before)
                    && after[SECOND] == before[SECOND]
                    && Throw::try_from(after[SECOND]).is_ok()
                    && Throw::try_from(after[FIRST]).is_ok()
                    && keeps_word(after)
            }
            (Phase::Shown, Phase::Nothing) => true,
            _ => false,
        }
    }

    // The last arm of the inner match is of no step of the right shape: both bytes are throws there.
    #[tactic(auto, using(crate::proofs::Thrown::both_thrown))]
    fn stakes(step: &Step) -> u8 {
        let (before, after) = (&step.before.data, &step.after.data);
        match Phase::try_from(before[PHASE]) {
            Ok(Phase::Committed) => 1,
            Ok(Phase::Answered) => {
                match (
                    Throw::try_from(after[FIRST]),
                    Throw::try_from(after[SECOND]),
                ) {
                    (Ok(first), Ok(second)) => first.winnings(second),
                    _ => 1,
                }
            }
            Ok(Phase::Nothing | Phase::Shown) | Err(NoPhase) => 0,
        }
    }
}

impl Game for RockPaperScissors {
    ghost codes = { λ _ code. (code == 1) };

    ghost lawful = { λ _. throws_lawful };

    fn knows(&self, code: u8) -> bool {
        code == CODE
    }

    fn allows(&self, step: &Step) -> bool {
        self.knows(step.code) && allows::<Self>(step)
    }
}
