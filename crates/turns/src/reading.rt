ghost use Rattle.std.specs.Prelude.{◌≡◌};
ghost use Rattle.hash.specs.Sha256.{sha_256};
ghost use Rattle.turns.specs.Layout.{parts_of, position_of, state_of};
ghost use Rattle.turns.specs.Proper.{proper_refusal, amounts_fit, total};
ghost use Rattle.turns.specs.Refusals.{refuse, answer};

use crate::bytes::all_zero;
use crate::layer::Layer;
use crate::layout::{MARK, MARK_LEN, POSITION, STATE_LEN};
use crate::refusal::{Reason, Refusal};
use crate::state::{Amounts, DATA_LEN, Kind, Position, State, Terms};
use hash::sha256;

// The digest of a state is that of its bytes.
pub fn digest(state: &[u8]) -> [u8; 32]
    ensures { result ≡ sha_256 state.now }
{
    sha256(state)
}

// What a state's bytes say of it between the mark and the position, in their order.
#[derive(Clone, Copy)]
struct Parts {
    docket: u32,
    at_match: u8,
    code: u8,
    turn: u8,
    kind: u8,
}

impl Parts {
    fn of(bytes: &[u8; STATE_LEN]) -> Parts
        ensures { result ≡ parts_of bytes.now }
    {
        let (_, rest) = bytes.split_first_chunk::<MARK_LEN>().unwrap();
        let (docket, rest) = rest.split_first_chunk().unwrap();
        let ([at_match, code, turn, kind], _) = rest.split_first_chunk::<4>().unwrap();
        Parts {
            docket: u32::from_be_bytes(*docket),
            at_match: *at_match,
            code: *code,
            turn: *turn,
            kind: *kind,
        }
    }
}

// The position that stands last in a state's bytes. Apart from the parts before it, so that no refusal but the last copies it.
fn read_position(bytes: &[u8; STATE_LEN]) -> Position
    ensures { result ≡ position_of bytes.now }
{
    let (_, rest) = bytes.split_first_chunk::<POSITION>().unwrap();
    let (seat0, rest) = rest.split_first_chunk().unwrap();
    let (seat1, rest) = rest.split_first_chunk().unwrap();
    Position {
        amounts: Amounts {
            seat0: u64::from_be_bytes(*seat0),
            seat1: u64::from_be_bytes(*seat1),
        },
        data: *rest.as_array::<DATA_LEN>().unwrap(),
    }
}

impl Amounts {
    // What both seats have together, which never wraps.
    pub fn sum(&self) -> u128
        ensures { result ≡ total self.now }
    {
        u128::from(self.seat0) + u128::from(self.seat1)
    }
}

impl Terms {
    // Whether amounts and data are such as a state of this kind may have.
    #[tactic(auto, unfolding(crate::specs::Proper::amounts_fit))]
    fn amounts_fit(&self, kind: Kind, position: &Position) -> bool
        ensures { result ≡ amounts_fit self.now kind position.now }
    {
        position.amounts.sum() == self.dues.sum()
            && match kind {
                Kind::PreFund | Kind::PostFund => {
                    position.amounts == self.dues && all_zero(&position.data)
                }
                Kind::Game | Kind::Conclude => true,
            }
    }

    // A refusal that blames no state.
    fn refuse(&self, reason: Reason) -> Refusal
        ensures { result ≡ refuse reason Layer.Turns self.now.at_match }
    {
        Refusal::new(reason, Layer::Turns, self.at_match)
    }

    // Reads a proper state of this match: one to which no refusal applies.
    #[tactic(auto, unfolding(crate::specs::Layout::marked))]
    pub fn read(&self, bytes: &[u8]) -> Result<State, Refusal>
        ensures { result ≡ answer (proper_refusal self.now bytes.now) (state_of bytes.now) }
    {
        let Some(bytes) = bytes.as_array::<STATE_LEN>() else {
            return Err(self.refuse(Reason::Length));
        };
        if bytes[..MARK_LEN] != MARK[..] {
            return Err(self.refuse(Reason::Mark));
        }
        let parts = Parts::of(bytes);
        if parts.docket != self.docket
            || parts.at_match != self.at_match
            || parts.code != self.code
        {
            return Err(self.refuse(Reason::OtherMatch));
        }
        let turn = parts.turn;
        let Some(kind) = Kind::at(turn, parts.kind) else {
            return Err(self.refuse(Reason::Kind));
        };
        let position = read_position(bytes);
        if !self.amounts_fit(kind, &position) {
            return Err(self.blame(Reason::Amounts, Layer::Turns, turn));
        }
        Ok(State {
            docket: self.docket,
            at_match: self.at_match,
            code: self.code,
            turn,
            kind,
            position,
        })
    }
}
