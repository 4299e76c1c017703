// What lies on the table of a game, and the bytes that say it.
use games::RockPaperScissors;
use std::fmt;
use turns::{DATA_LEN, Game, State};

// Seat 0 committed to paper with this salt. Python's hashlib gave the digest.
const SALT: [u8; 32] = *b"the salt of seat 0, thirty-two b";

const COMMITMENT: [u8; 32] = [
    188, 254, 250, 0, 58, 62, 165, 77, 172, 55, 156, 17, 186, 4, 99, 176, 77, 65, 240, 44, 60, 49,
    5, 153, 224, 141, 64, 104, 43, 30, 159, 215,
];

// Behind the phase and the commitment lie the second throw and the first.
const SECOND: usize = 33;

const FIRST: usize = 34;

// Bytes that say nothing in a game.
#[derive(Clone, Copy)]
pub(crate) struct Meaningless;

// Not that of the games: it would be a public type with promises of its own, and the places of its bytes too, for the words of
// one program, which is no plainer.
#[derive(Clone, Copy)]
pub(crate) enum Throw {
    Rock = 1,
    Paper = 2,
    Scissors = 3,
}

impl TryFrom<u8> for Throw {
    type Error = Meaningless;

    fn try_from(byte: u8) -> Result<Throw, Meaningless> {
        match byte {
            1 => Ok(Throw::Rock),
            2 => Ok(Throw::Paper),
            3 => Ok(Throw::Scissors),
            _ => Err(Meaningless),
        }
    }
}

impl fmt::Display for Throw {
    fn fmt<W: fmt::Write>(&self, f: &mut fmt::Formatter<W>) -> fmt::Result {
        f.write_str(match self {
            Throw::Rock => "rock",
            Throw::Paper => "paper",
            Throw::Scissors => "scissors",
        })
    }
}

// How far a round has come, and what it shows. A board has a mask of crosses and one of noughts: bit i is cell i.
#[derive(Clone, Copy)]
pub(crate) enum Table {
    Empty,
    Committed,
    Answered(Throw),
    Shown { second: Throw, first: Throw },
    Marked(u16, u16),
    Ended(u16, u16),
}

impl From<Table> for [u8; DATA_LEN] {
    fn from(table: Table) -> [u8; DATA_LEN] {
        match table {
            Table::Empty => [0; DATA_LEN],
            Table::Committed => joined(&[&[1], &COMMITMENT]),
            Table::Answered(second) => joined(&[&[2], &COMMITMENT, &[second as u8]]),
            Table::Shown { second, first } => {
                joined(&[&[3], &COMMITMENT, &[second as u8, first as u8], &SALT])
            }
            Table::Marked(crosses, noughts) => {
                joined(&[&[1], &crosses.to_be_bytes(), &noughts.to_be_bytes()])
            }
            Table::Ended(crosses, noughts) => {
                joined(&[&[2], &crosses.to_be_bytes(), &noughts.to_be_bytes()])
            }
        }
    }
}

// One part behind another, and zeros behind them.
fn joined(parts: &[&[u8]]) -> [u8; DATA_LEN] {
    let mut data = [0; DATA_LEN];
    for (place, byte) in data.iter_mut().zip(parts.iter().copied().flatten()) {
        *place = *byte;
    }
    data
}

impl TryFrom<&State> for Table {
    type Error = Meaningless;

    fn try_from(state: &State) -> Result<Table, Meaningless> {
        let data = &state.position.data;
        if RockPaperScissors.knows(state.code) {
            Table::of_throws(data)
        } else {
            Table::of_marks(data)
        }
    }
}

impl Table {
    fn of_throws(data: &[u8; DATA_LEN]) -> Result<Table, Meaningless> {
        match data[0] {
            0 => Ok(Table::Empty),
            1 => Ok(Table::Committed),
            2 => Ok(Table::Answered(Throw::try_from(data[SECOND])?)),
            3 => Ok(Table::Shown {
                second: Throw::try_from(data[SECOND])?,
                first: Throw::try_from(data[FIRST])?,
            }),
            _ => Err(Meaningless),
        }
    }

    fn of_marks(data: &[u8; DATA_LEN]) -> Result<Table, Meaningless> {
        let [phase, crosses0, crosses1, noughts0, noughts1, ..] = *data;
        let crosses = u16::from_be_bytes([crosses0, crosses1]);
        let noughts = u16::from_be_bytes([noughts0, noughts1]);
        match phase {
            0 => Ok(Table::Empty),
            1 => Ok(Table::Marked(crosses, noughts)),
            2 => Ok(Table::Ended(crosses, noughts)),
            _ => Err(Meaningless),
        }
    }

    // The crosses and the noughts on it.
    pub(crate) fn marks(self) -> (u16, u16) {
        match self {
            Table::Marked(crosses, noughts) | Table::Ended(crosses, noughts) => (crosses, noughts),
            Table::Empty | Table::Committed | Table::Answered(_) | Table::Shown { .. } => (0, 0),
        }
    }
}
