// Two recorded matches.
use crate::table::{Table, Throw};
use turns::{Amounts, Kind, Position, State, Terms};

const DOCKET: u32 = 1;

pub(crate) fn terms(at_match: u8, code: u8) -> Terms {
    Terms {
        docket: DOCKET,
        at_match,
        code,
        dues: Amounts { seat0: 6, seat1: 4 },
        stake: 2,
    }
}

// Amounts as a pair: states are rows of a table, and with named fields each would take several lines.
pub(crate) fn state(
    terms: &Terms,
    turn: u8,
    kind: Kind,
    (seat0, seat1): (u64, u64),
    table: Table,
) -> State {
    State {
        docket: terms.docket,
        at_match: terms.at_match,
        code: terms.code,
        turn,
        kind,
        position: Position {
            amounts: Amounts { seat0, seat1 },
            data: table.into(),
        },
    }
}

pub(crate) fn shown(first: Throw) -> Table {
    let second = Throw::Rock;
    Table::Shown { second, first }
}

pub(crate) const ANSWERED: Table = Table::Answered(Throw::Rock);

// Paper beats rock: seat 0 wins one stake.
pub(crate) fn rock_paper_scissors(t: &Terms) -> [State; 10] {
    [
        state(t, 0, Kind::PreFund, (6, 4), Table::Empty),
        state(t, 1, Kind::PreFund, (6, 4), Table::Empty),
        state(t, 2, Kind::PostFund, (6, 4), Table::Empty),
        state(t, 3, Kind::PostFund, (6, 4), Table::Empty),
        state(t, 4, Kind::Game, (6, 4), Table::Committed),
        state(t, 5, Kind::Game, (4, 6), ANSWERED),
        state(t, 6, Kind::Game, (8, 2), shown(Throw::Paper)),
        state(t, 7, Kind::Game, (8, 2), Table::Empty),
        state(t, 8, Kind::Conclude, (8, 2), Table::Empty),
        state(t, 9, Kind::Conclude, (8, 2), Table::Empty),
    ]
}

// Crosses take the diagonal of cells 2, 4 and 6.
pub(crate) fn tic_tac_toe(t: &Terms) -> [State; 12] {
    [
        state(t, 0, Kind::PreFund, (6, 4), Table::Empty),
        state(t, 1, Kind::PreFund, (6, 4), Table::Empty),
        state(t, 2, Kind::PostFund, (6, 4), Table::Empty),
        state(t, 3, Kind::PostFund, (6, 4), Table::Empty),
        state(t, 4, Kind::Game, (8, 2), Table::Marked(16, 0)),
        state(t, 5, Kind::Game, (4, 6), Table::Marked(16, 1)),
        state(t, 6, Kind::Game, (8, 2), Table::Marked(20, 1)),
        state(t, 7, Kind::Game, (4, 6), Table::Marked(20, 3)),
        state(t, 8, Kind::Game, (8, 2), Table::Ended(84, 3)),
        state(t, 9, Kind::Game, (8, 2), Table::Empty),
        state(t, 10, Kind::Conclude, (8, 2), Table::Empty),
        state(t, 11, Kind::Conclude, (8, 2), Table::Empty),
    ]
}
