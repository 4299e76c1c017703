// Tables of steps with the answers that the rules of the games give. The stake is 2.
use crate::bytes::with;
use games::{RockPaperScissors, Shelf, TicTacToe};
use hash::sha256;
use std::process::Abort;
use turns::{Amounts, DATA_LEN, Game, Position, Step};

const STAKE: u64 = 2;

const EMPTY: [u8; DATA_LEN] = [0; DATA_LEN];

const SALT: u8 = 77;

fn position((seat0, seat1): (u64, u64), data: [u8; DATA_LEN]) -> Position {
    Position {
        amounts: Amounts { seat0, seat1 },
        data,
    }
}

// Phases and throws are numbers here: some rows have ones that no game knows.
fn board(phase: u8, crosses: u16, noughts: u16) -> [u8; DATA_LEN] {
    let mut data = EMPTY;
    data[0] = phase;
    data[1..3].copy_from_slice(&crosses.to_be_bytes());
    data[3..5].copy_from_slice(&noughts.to_be_bytes());
    data
}

// A round of throws in which `word` is committed to, with a salt of 32 equal bytes.
fn throws(phase: u8, word: u8, second: u8, first: u8) -> [u8; DATA_LEN] {
    let mut message = [SALT; 33];
    message[0] = word;
    let mut data = if phase == 3 { [SALT; DATA_LEN] } else { EMPTY };
    data[0] = phase;
    data[1..33].copy_from_slice(&sha256(&message));
    data[33] = second;
    data[34] = first;
    data
}

// One row: the later turn, amounts and data before and behind the step, and whether it is lawful.
// A tuple: with named fields each of the 66 rows would take eight lines.
type Row = (
    u8,
    (u64, u64),
    [u8; DATA_LEN],
    (u64, u64),
    [u8; DATA_LEN],
    bool,
);

fn hold<G: Game>(rt: &impl Abort, game: &G, code: u8, rows: &[Row]) {
    for (turn, had, old, have, new, lawful) in rows {
        let step = Step {
            code,
            stake: STAKE,
            turn: *turn,
            before: position(*had, *old),
            after: position(*have, *new),
        };
        assert!(rt; game.allows(&step) == *lawful);
    }
}

// Phases 0 to 1 and 1 to 2. Even turns are seat 0's.
fn opening_throws() -> [Row; 15] {
    let one = throws(1, 2, 0, 0);
    [
        (4, (6, 4), EMPTY, (6, 4), one, true),
        (16, (6, 4), EMPTY, (6, 4), one, true),
        // a round begins at turn 16 at the latest
        (17, (6, 4), EMPTY, (6, 4), one, false),
        // both have the stake
        (4, (2, 2), EMPTY, (2, 2), one, true),
        (4, (1, 9), EMPTY, (1, 9), one, false),
        (4, (9, 1), EMPTY, (9, 1), one, false),
        // the amounts are kept
        (4, (6, 4), EMPTY, (8, 2), one, false),
        // no phase is left out, and none is unknown
        (4, (6, 4), EMPTY, (8, 2), throws(2, 2, 1, 0), false),
        (4, (6, 4), EMPTY, (6, 4), with(one, 0, 4), false),
        // phase 0 has no data, phase 1 none but the commitment
        (4, (6, 4), with(EMPTY, 5, 1), (6, 4), one, false),
        (4, (6, 4), EMPTY, (6, 4), with(one, 33, 1), false),
        // the second throw is one of three, and moves one stake to its mover
        (5, (6, 4), one, (4, 6), throws(2, 2, 1, 0), true),
        (5, (6, 4), one, (4, 6), throws(2, 2, 0, 0), false),
        (5, (6, 4), one, (4, 6), throws(2, 2, 4, 0), false),
        (5, (6, 4), one, (6, 4), throws(2, 2, 1, 0), false),
    ]
}

// The second throw, and the clearing of the table.
fn other_throws() -> [Row; 9] {
    let two = throws(2, 2, 1, 0);
    let three = throws(3, 2, 1, 2);
    [
        // the other seat has the stake that is moved
        (5, (2, 8), throws(1, 2, 0, 0), (0, 10), two, true),
        (5, (1, 9), throws(1, 2, 0, 0), (0, 10), two, false),
        // the commitment is kept
        (5, (6, 4), throws(1, 3, 0, 0), (4, 6), two, false),
        // the throw that is shown is the one that was committed to
        (6, (4, 6), two, (4, 6), throws(3, 2, 1, 3), false),
        // the second throw and the commitment are kept
        (6, (4, 6), two, (8, 2), throws(3, 2, 3, 2), false),
        (6, (4, 6), throws(2, 3, 1, 0), (8, 2), three, false),
        // then the table is cleared, and the amounts are kept
        (7, (8, 2), three, (8, 2), EMPTY, true),
        (7, (8, 2), three, (6, 4), EMPTY, false),
        (7, (8, 2), three, (8, 2), throws(1, 2, 0, 0), false),
    ]
}

// The throw that is shown over the second: what seat 0 has from (4, 6).
fn shown_throws() -> [Row; 9] {
    let on_rock = [throws(2, 2, 1, 0), throws(3, 2, 1, 2)];
    let tied = [throws(2, 2, 2, 0), throws(3, 2, 2, 2)];
    let on_paper = [throws(2, 1, 2, 0), throws(3, 1, 2, 1)];
    let rock = [throws(2, 1, 3, 0), throws(3, 1, 3, 1)];
    let scissors = [throws(2, 3, 1, 0), throws(3, 3, 1, 3)];
    [
        // paper on rock wins both stakes
        (6, (4, 6), on_rock[0], (8, 2), on_rock[1], true),
        (6, (4, 6), on_rock[0], (6, 4), on_rock[1], false),
        (6, (4, 6), on_rock[0], (4, 6), on_rock[1], false),
        // a tie gives the own stake back
        (6, (4, 6), tied[0], (6, 4), tied[1], true),
        (6, (4, 6), tied[0], (8, 2), tied[1], false),
        // rock on paper moves nothing
        (6, (4, 6), on_paper[0], (4, 6), on_paper[1], true),
        // rock on scissors wins, scissors on rock does not
        (6, (4, 6), rock[0], (8, 2), rock[1], true),
        (6, (4, 6), scissors[0], (4, 6), scissors[1], true),
        (6, (4, 6), scissors[0], (8, 2), scissors[1], false),
    ]
}

// First marks, and what a mark may add.
fn opening_marks() -> [Row; 15] {
    [
        (4, (6, 4), EMPTY, (8, 2), board(1, 16, 0), true),
        (4, (6, 4), EMPTY, (6, 4), board(1, 16, 0), false),
        (16, (6, 4), EMPTY, (8, 2), board(1, 256, 0), true),
        (17, (6, 4), EMPTY, (4, 6), board(1, 256, 0), false),
        (4, (1, 9), EMPTY, (3, 7), board(1, 1, 0), false),
        // one cell, of nine, for the crosses
        (4, (6, 4), EMPTY, (8, 2), board(1, 17, 0), false),
        (4, (6, 4), EMPTY, (8, 2), board(1, 512, 0), false),
        (4, (6, 4), EMPTY, (8, 2), board(1, 0, 16), false),
        (4, (6, 4), EMPTY, (8, 2), board(2, 16, 0), false),
        (
            4,
            (6, 4),
            EMPTY,
            (8, 2),
            with(board(1, 16, 0), 66, 1),
            false,
        ),
        // then the noughts, in a free cell, for two stakes
        (5, (8, 2), board(1, 16, 0), (4, 6), board(1, 16, 1), true),
        (5, (8, 2), board(1, 16, 0), (6, 4), board(1, 16, 1), false),
        (5, (8, 2), board(1, 16, 0), (4, 6), board(1, 16, 16), false),
        (5, (8, 2), board(1, 16, 0), (4, 6), board(1, 17, 0), false),
        // a mark is not taken away
        (6, (4, 6), board(1, 16, 1), (8, 2), board(1, 6, 1), false),
    ]
}

// Lines, and the clearing of the board.
fn lines() -> [Row; 11] {
    let three = board(1, 20, 3);
    let won = board(2, 84, 3);
    [
        // a line ends the round for two stakes
        (8, (4, 6), three, (8, 2), won, true),
        (8, (4, 6), three, (8, 2), board(1, 84, 3), false),
        (8, (4, 6), three, (6, 4), won, false),
        // without one it goes on
        (8, (4, 6), three, (8, 2), board(1, 52, 3), true),
        (8, (4, 6), three, (8, 2), board(2, 52, 3), false),
        // a line of the noughts
        (9, (8, 2), board(1, 52, 3), (4, 6), board(1, 52, 11), true),
        (9, (8, 2), board(1, 336, 3), (4, 6), board(2, 336, 7), true),
        // from phase 1 even a mark on an empty board is a later one
        (4, (6, 4), board(1, 0, 0), (10, 0), board(1, 16, 0), true),
        // then the board is cleared
        (9, (8, 2), won, (8, 2), EMPTY, true),
        (9, (8, 2), won, (6, 4), EMPTY, false),
        (9, (8, 2), board(3, 84, 3), (8, 2), EMPTY, false),
    ]
}

// The ninth mark.
fn full_boards() -> [Row; 5] {
    let eight = board(1, 99, 156);
    let full = board(2, 355, 156);
    let lined = board(1, 51, 204);
    let line = board(2, 307, 204);
    [
        // without a line it is a draw: the mover gets one stake
        (12, (4, 6), eight, (6, 4), full, true),
        (12, (4, 6), eight, (8, 2), full, false),
        (12, (4, 6), eight, (6, 4), board(1, 355, 156), false),
        // with a line it wins
        (12, (4, 6), lined, (8, 2), line, true),
        (12, (4, 6), lined, (6, 4), line, false),
    ]
}

#[test]
fn rounds_of_throws_open(rt: HostRuntime) {
    hold(&rt, &RockPaperScissors, 1, &opening_throws());
}

#[test]
fn rounds_of_throws_close(rt: HostRuntime) {
    hold(&rt, &RockPaperScissors, 1, &other_throws());
    hold(&rt, &RockPaperScissors, 1, &shown_throws());
}

#[test]
fn rounds_of_marks_open(rt: HostRuntime) {
    hold(&rt, &TicTacToe, 2, &opening_marks());
}

#[test]
fn rounds_of_marks_close(rt: HostRuntime) {
    hold(&rt, &TicTacToe, 2, &lines());
    hold(&rt, &TicTacToe, 2, &full_boards());
}

#[test]
fn a_shelf_asks_the_game_of_the_code(rt: HostRuntime) {
    let shelf = Shelf {
        first: RockPaperScissors,
        second: TicTacToe,
    };
    assert!(rt; shelf.knows(1) && shelf.knows(2) && !shelf.knows(0) && !shelf.knows(3));
    hold(&rt, &shelf, 1, &shown_throws());
    hold(&rt, &shelf, 2, &lines());
    let first_mark = [(4, (6, 4), EMPTY, (8, 2), board(1, 16, 0), false)];
    hold(&rt, &shelf, 1, &first_mark);
    hold(&rt, &shelf, 3, &first_mark);
}

// Amounts near the end of 64 bits do not wrap.
#[test]
fn amounts_do_not_wrap(rt: HostRuntime) {
    let top = u64::MAX;
    let rows: [Row; 2] = [
        (4, (top, 2), EMPTY, (1, 0), board(1, 16, 0), false),
        (4, (top - 2, 2), EMPTY, (top, 0), board(1, 16, 0), true),
    ];
    hold(&rt, &TicTacToe, 2, &rows);
}
