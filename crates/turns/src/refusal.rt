ghost use Rattle.std.specs.Prelude.{◌≡◌, Some};
ghost use Rattle.turns.specs.Refusals.{reason_number, refuse, blame};
ghost use Rattle.turns.specs.Words.{reason_words, refusal_words};

use crate::layer::Layer;
use crate::state::Seat;
use std::fmt;

// Why a call is refused. The number of each is the one that people quote.
#[derive(Clone, Copy, PartialEq, Eq)]
pub enum Reason {
    Length = 1,
    Mark = 2,
    OtherMatch = 3,
    Kind = 4,
    Amounts = 5,
    NotNext = 7,
    Unlawful = 8,
    Signature = 9,
    NotConclude = 10,
    MatchNumber = 11,
    Argument = 12,
    Memory = 13,
    Secret = 14,
    AlreadyOpened = 20,
    Unopened = 21,
    ChallengeStands = 22,
    NoChallenge = 23,
    Finalised = 24,
    NotFinalised = 25,
    Paid = 26,
    AboveDue = 27,
    WrongTurn = 28,
    OutOfTurn = 29,
    DepositsShort = 30,
    TurnSpent = 31,
    AlreadyEnrolled = 32,
    NotEnrolled = 33,
    ClockBack = 34,
    BeyondKeeper = 35,
}

impl From<Reason> for u8 {
    ghost from_gives = { λ reason n. n ≡ reason_number reason };

    fn from(reason: Reason) -> u8 {
        reason as u8
    }
}

impl fmt::Display for Reason {
    ghost output = { λ x. Some (reason_words x) };

    fn fmt<W: fmt::Write>(&self, f: &mut fmt::Formatter<W>) -> fmt::Result {
        f.write_str(match self {
            Reason::Length => "the state has a wrong length",
            Reason::Mark => "the mark or the version is not that of a state",
            Reason::OtherMatch => "the state is of another docket, match or game",
            Reason::Kind => "the kind does not fit the turn",
            Reason::Amounts => "the amounts or the data are not what the match allows",
            Reason::NotNext => "the later turn is not one more",
            Reason::Unlawful => "the step is not lawful",
            Reason::Signature => "the signature does not check",
            Reason::NotConclude => "the state is not a Conclude",
            Reason::MatchNumber => "there is no such match",
            Reason::Argument => "an argument is outside its limits",
            Reason::Memory => "the memory is too short",
            Reason::Secret => "the secret does not fit the key",
            Reason::AlreadyOpened => "the match is opened already",
            Reason::Unopened => "the match is not opened",
            Reason::ChallengeStands => "a challenge stands",
            Reason::NoChallenge => "no challenge stands",
            Reason::Finalised => "the match is finalised or paid",
            Reason::NotFinalised => "the match is not finalised",
            Reason::Paid => "the match is paid already",
            Reason::AboveDue => "the deposit is above the due",
            Reason::WrongTurn => "the turn or the mover does not answer the challenge",
            Reason::OutOfTurn => "it is not the turn of this state",
            Reason::DepositsShort => "the deposits are short of the total",
            Reason::TurnSpent => "the turn is spent",
            Reason::AlreadyEnrolled => "the key is enrolled already",
            Reason::NotEnrolled => "the key is not enrolled",
            Reason::ClockBack => "the clock does not go back",
            Reason::BeyondKeeper => "the standing state is beyond what the keeper holds",
        })
    }
}

// A refusal in full: the match that the call was about, and the seat and the turn of the state that is blamed.
// 255 stands for none. Numbers, with no `Option`: people quote them, and a rule of the product names them so (docs/RULES.md).
#[derive(Clone, Copy, PartialEq, Eq)]
pub struct Refusal {
    pub reason: Reason,
    pub layer: Layer,
    pub at_match: u8,
    pub seat: u8,
    pub turn: u8,
}

pub const NONE: u8 = 255;

impl Refusal {
    // A refusal that blames no state.
    pub fn new(reason: Reason, layer: Layer, at_match: u8) -> Refusal
        ensures { result ≡ refuse reason layer at_match }
    {
        Refusal {
            reason,
            layer,
            at_match,
            seat: NONE,
            turn: NONE,
        }
    }

    // A refusal that blames a state by its turn, and so its mover.
    pub fn blaming(reason: Reason, layer: Layer, at_match: u8, turn: u8) -> Refusal
        ensures { result ≡ blame reason layer at_match turn }
    {
        Refusal {
            reason,
            layer,
            at_match,
            seat: u8::from(Seat::moving(turn)),
            turn,
        }
    }
}

impl fmt::Display for Refusal {
    ghost output = { λ x. Some (refusal_words x) };

    fn fmt<W: fmt::Write>(&self, f: &mut fmt::Formatter<W>) -> fmt::Result {
        let number = u8::from(self.reason);
        let Refusal {
            reason,
            layer,
            at_match,
            seat,
            turn,
        } = *self;
        write!(f, "refused {number}: {reason} ({layer}")?;
        if at_match != NONE {
            write!(f, ", match {at_match}")?;
        }
        if turn != NONE {
            write!(f, ", seat {seat}, turn {turn}")?;
        }
        f.write_str(")")
    }
}
