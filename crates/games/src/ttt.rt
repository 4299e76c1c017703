ghost use Rattle.std.specs.Prelude.{◌≡◌, ◌<◌, ◌&&◌, MatchResult, ◌==◌};
ghost use Rattle.games.specs.Boards.{phase, phase_number, board_of, clean, legal_board, board_shape, board_stakes, board_lawful};
ghost use Rattle.games.specs.Reading.{ReadIf};

use crate::board::Board;
use crate::rounds::{NoPhase, Rounds, allows, may_begin};
use turns::{DATA_LEN, Game, Step, all_zero};

const CODE: u8 = 2;

// where the parts lie in a state's data
const PHASE: usize = 0;

const CROSSES: usize = 1;

const NOUGHTS: usize = 3;

const UNUSED: usize = 5;

// How far a round has come.
#[derive(Clone, Copy, PartialEq, Eq)]
enum Phase {
    Nothing,
    GoesOn,
    Ended,
}

impl TryFrom<u8> for Phase {
    type Error = NoPhase;

    ghost try_from_gives = { λ byte r. MatchResult r (λ x. phase_number x ≡ byte) (λ _. 2 < byte) };

    fn try_from(byte: u8) -> Result<Phase, NoPhase> {
        match byte {
            0 => Ok(Phase::Nothing),
            1 => Ok(Phase::GoesOn),
            2 => Ok(Phase::Ended),
            _ => Err(NoPhase),
        }
    }
}

// The phase of data whose unused bytes are zero.
// Each range begins at a constant: from a place that varies the bytes are tested one by one, in twice the time.
// Not one generic function with that of throws: the trait of phases, with its ghost members, is longer than both.
#[tactic(auto, unfolding(crate::specs::Boards::clean))]
fn phase_of(data: &[u8; DATA_LEN]) -> Option<Phase>
    ensures { ReadIf (clean «data».now) result (λ x. phase «data».now ≡ phase_number x) }
{
    let phase = Phase::try_from(data[PHASE]).ok()?;
    let clean = match phase {
        Phase::Nothing => all_zero(&data[CROSSES..]),
        Phase::GoesOn | Phase::Ended => all_zero(&data[UNUSED..]),
    };
    clean.then_some(phase)
}

#[tactic(auto, unfolding(crate::specs::Boards::board_of))]
fn read_board(data: &[u8; DATA_LEN]) -> Board
    ensures { result ≡ board_of «data».now }
{
    Board {
        crosses: u16::from_be_bytes([data[CROSSES], data[CROSSES + 1]]),
        noughts: u16::from_be_bytes([data[NOUGHTS], data[NOUGHTS + 1]]),
    }
}

#[derive(Clone, Copy)]
struct Round {
    phase: Phase,
    board: Board,
}

impl Round {
    // The round that a state's data hold, if they are clean and the board is legal.
    fn read(data: &[u8; DATA_LEN]) -> Option<Round>
        ensures { ReadIf (clean «data».now && legal_board (board_of «data».now)) result
            (λ x. (phase «data».now ≡ phase_number x.phase) × (board_of «data».now ≡ x.board)) }
    {
        let phase = phase_of(data)?;
        let board = read_board(data);
        board.is_legal().then_some(Round { phase, board })
    }
}

#[derive(Clone, Copy)]
pub struct TicTacToe;

impl Rounds for TicTacToe {
    ghost shape = { board_shape };

    ghost stakes = { board_stakes };

    fn has_shape(step: &Step) -> bool {
        let (Some(before), Some(after)) = (
            Round::read(&step.before.data),
            Round::read(&step.after.data),
        ) else {
            return false;
        };
        let marked = before.board.marks_one(&after.board);
        match (before.phase, after.phase) {
            (Phase::Nothing, Phase::GoesOn) => marked && may_begin(step),
            (Phase::GoesOn, phase) => {
                let right = if before.board.outcome(&after.board).ends() {
                    Phase::Ended
                } else {
                    Phase::GoesOn
                };
                marked && phase == right
            }
            (Phase::Ended, Phase::Nothing) => true,
            _ => false,
        }
    }

    fn stakes(step: &Step) -> u8 {
        let (before, after) = (&step.before.data, &step.after.data);
        match Phase::try_from(before[PHASE]) {
            Ok(Phase::Nothing) => 1,
            Ok(Phase::GoesOn) => read_board(before).outcome(&read_board(after)).stakes(),
            Ok(Phase::Ended) | Err(NoPhase) => 0,
        }
    }
}

impl Game for TicTacToe {
    ghost codes = { λ _ code. (code == 2) };

    ghost lawful = { λ _. board_lawful };

    fn knows(&self, code: u8) -> bool {
        code == CODE
    }

    fn allows(&self, step: &Step) -> bool {
        self.knows(step.code) && allows::<Self>(step)
    }
}
