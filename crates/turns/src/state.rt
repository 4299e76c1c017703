ghost use Rattle.std.specs.Prelude.{◌≡◌, Some};
ghost use Rattle.turns.specs.Kinds.{kind_at, kind_number, seat_at, seat_number};
ghost use Rattle.turns.specs.Words.{kind_words};

use std::fmt;

// One of the two places at a match.
#[derive(Clone, Copy, PartialEq, Eq)]
pub enum Seat {
    Zero = 0,
    One = 1,
}

impl Seat {
    // The seat that moves at a turn.
    pub fn moving(turn: u8) -> Seat
        ensures { result ≡ seat_at turn }
    {
        if turn % 2 == 0 { Seat::Zero } else { Seat::One }
    }
}

impl From<Seat> for u8 {
    ghost from_gives = { λ seat n. n ≡ seat_number seat };

    fn from(seat: Seat) -> u8 {
        seat as u8
    }
}

// What each seat is to have.
#[derive(Clone, Copy, PartialEq, Eq)]
pub struct Amounts {
    pub seat0: u64,
    pub seat1: u64,
}

pub const DATA_LEN: usize = 67;

// What a game looks at in a state: the amounts and the game's own data.
#[derive(Clone, Copy, PartialEq, Eq)]
pub struct Position {
    pub amounts: Amounts,
    pub data: [u8; DATA_LEN],
}

// What a state is about: the funding, the game, or its end.
#[derive(Clone, Copy, PartialEq, Eq)]
pub enum Kind {
    PreFund = 0,
    PostFund = 1,
    Game = 2,
    Conclude = 3,
}

impl Kind {
    // The kind that a byte names at a turn, if it fits that turn.
    // No `TryFrom<u8>`: with a test of the turn beside it, this one table would be two.
    pub fn at(turn: u8, byte: u8) -> Option<Kind>
        ensures { result ≡ kind_at turn byte }
    {
        match (byte, turn) {
            (0, 0..=1) => Some(Kind::PreFund),
            (1, 2..=3) => Some(Kind::PostFund),
            (2, 4..=25) => Some(Kind::Game),
            (3, 1..=31) => Some(Kind::Conclude),
            _ => None,
        }
    }
}

impl From<Kind> for u8 {
    ghost from_gives = { λ kind n. n ≡ kind_number kind };

    fn from(kind: Kind) -> u8 {
        kind as u8
    }
}

impl fmt::Display for Kind {
    ghost output = { λ x. Some (kind_words x) };

    fn fmt<W: fmt::Write>(&self, f: &mut fmt::Formatter<W>) -> fmt::Result {
        f.pad(match self {
            Kind::PreFund => "PreFund",
            Kind::PostFund => "PostFund",
            Kind::Game => "Game",
            Kind::Conclude => "Conclude",
        })
    }
}

// A state of a match, as its 96 bytes say.
#[derive(Clone, Copy, PartialEq, Eq)]
pub struct State {
    pub docket: u32,
    pub at_match: u8,
    pub code: u8,
    pub turn: u8,
    pub kind: Kind,
    pub position: Position,
}

// What a match fixes at its opening. Docket, match and code stand one by one, as in a state's bytes: no function takes the three.
#[derive(Clone, Copy, PartialEq, Eq)]
pub struct Terms {
    pub docket: u32,
    pub at_match: u8,
    pub code: u8,
    pub dues: Amounts,
    pub stake: u64,
}
