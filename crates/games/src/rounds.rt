ghost use Rattle.std.specs.Prelude.{◌≡◌, ℕ, ◌*◌, Bool, true};
ghost use Rattle.games.specs.Stakes.{may_begin, mover_first, moves, rounds_lawful};
ghost use Rattle.turns.specs.declared.game.Step.{Step};

use turns::{Amounts, Seat, Step};

// The last turn at which a round may begin.
const LAST_BEGIN: u8 = 16;

// A byte that names no phase of a game.
#[derive(Clone, Copy)]
pub(crate) struct NoPhase;

// A game of rounds. Its rule has two halves, apart: the data that a step has, and what it moves.
// Each writes its own short `impl Game`: that trait is of another crate, so the language refuses one impl for all of `Rounds`.
pub(crate) trait Rounds {
    ghost shape: { Step → Bool };

    ghost stakes: { Step → ℕ };

    // Whether a step has the right data, apart from what it moves.
    fn has_shape(step: &Step) -> bool
        ensures { result ≡ shape step.now };

    // How many stakes a step moves to its mover, where it has the right data.
    fn stakes(step: &Step) -> u8
        requires { shape step.now ≡ true }
        ensures { result ≡ stakes step.now };
}

// Whether a game of rounds allows a step of its code.
pub(crate) fn allows<R: Rounds>(step: &Step) -> bool
    ensures { result ≡ rounds_lawful step.now.code R.shape R.stakes step.now }
{
    R::has_shape(step) && moves(step, R::stakes(step))
}

// Whether a round may leave phase 0 with this step.
pub(crate) fn may_begin(step: &Step) -> bool
    ensures { result ≡ may_begin step.now.turn step.now.stake step.now.before.amounts }
{
    let have = step.before.amounts;
    step.turn <= LAST_BEGIN && step.stake <= have.seat0 && step.stake <= have.seat1
}

// What the mover of a turn has, and what the other seat has.
fn mover_first(turn: u8, amounts: &Amounts) -> (u64, u64)
    ensures { result ≡ mover_first turn amounts.now }
{
    match Seat::moving(turn) {
        Seat::Zero => (amounts.seat0, amounts.seat1),
        Seat::One => (amounts.seat1, amounts.seat0),
    }
}

// Whether so many stakes move from the other seat, which must have them, to the mover.
fn moves(step: &Step, stakes: u8) -> bool
    ensures { result ≡ moves step.now.turn (stakes * step.now.stake) step.now.before.amounts step.now.after.amounts }
{
    let moved = u128::from(stakes) * u128::from(step.stake);
    let (mover, other) = mover_first(step.turn, &step.before.amounts);
    let (mover_after, other_after) = mover_first(step.turn, &step.after.amounts);
    u128::from(mover_after) == u128::from(mover) + moved
        && u128::from(other) == u128::from(other_after) + moved
}
