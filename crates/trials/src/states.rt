// States are read in the order of their refusals; kinds fit turns; kinds follow kinds.
ghost use Rattle.std.specs.Prelude.{◌<◌};

use crate::bytes::with;
use crate::refusals::says;
use games::TicTacToe;
use std::process::Abort;
use std::test::Fail;
use turns::{Amounts, DATA_LEN, Kind, Layer, Position, State, Terms};

const TERMS: Terms = Terms {
    docket: 7,
    at_match: 3,
    code: 2,
    dues: Amounts { seat0: 6, seat1: 4 },
    stake: 2,
};

// Amounts as a pair: states are rows of a table, and with named fields each would take several lines.
fn state(turn: u8, kind: Kind, (seat0, seat1): (u64, u64)) -> State {
    State {
        docket: TERMS.docket,
        at_match: TERMS.at_match,
        code: TERMS.code,
        turn,
        kind,
        position: Position {
            amounts: Amounts { seat0, seat1 },
            data: [0; DATA_LEN],
        },
    }
}

// One byte is changed in the bytes of a good state.
fn refused(rt: &impl Abort, at: usize, byte: u8, number: u8, seat: u8, turn: u8) -> Result<(), Fail>
    requires { at < 96 }
{
    let bytes = with(state(3, Kind::PostFund, (6, 4)).write(), at, byte);
    says(
        rt,
        TERMS.read(&bytes),
        (number, Layer::Turns, 3, seat, turn),
    )
}

#[test]
fn a_changed_byte_is_refused(rt: HostRuntime) -> Result<(), Fail> {
    refused(&rt, 0, 71, 2, 255, 255)?;
    refused(&rt, 4, 2, 2, 255, 255)?;
    refused(&rt, 5, 1, 3, 255, 255)?;
    refused(&rt, 8, 8, 3, 255, 255)?;
    refused(&rt, 9, 2, 3, 255, 255)?;
    refused(&rt, 10, 1, 3, 255, 255)?;
    refused(&rt, 11, 4, 4, 255, 255)?;
    refused(&rt, 12, 2, 4, 255, 255)?;
    refused(&rt, 12, 9, 4, 255, 255)?;
    refused(&rt, 20, 7, 5, 1, 3)?;
    refused(&rt, 13, 255, 5, 1, 3)?;
    refused(&rt, 29, 1, 5, 1, 3)?;
    refused(&rt, 95, 1, 5, 1, 3)
}

#[test]
fn a_wrong_length_is_refused(rt: HostRuntime) -> Result<(), Fail> {
    let bytes = state(3, Kind::PostFund, (6, 4)).write();
    says(
        &rt,
        TERMS.read(&bytes[0..95]),
        (1, Layer::Turns, 3, 255, 255),
    )
}

#[test]
fn amounts_that_would_wrap_are_refused(rt: HostRuntime) -> Result<(), Fail> {
    // 2^64 - 1 and 11 add up to 10 only if the sum wraps
    let bytes = state(4, Kind::Game, (u64::MAX, 11)).write();
    says(&rt, TERMS.read(&bytes), (5, Layer::Turns, 3, 0, 4))
}

// Turn 0 takes kind 0; turn 1 takes 0 or 3; 2 and 3 take 1 or 3; 4 to 25 take 2 or 3; 26 to 31 take 3.
fn taken(turn: u8) -> &'static [u8] {
    match turn {
        0 => &[0],
        1 => &[0, 3],
        2..=3 => &[1, 3],
        4..=25 => &[2, 3],
        26..=31 => &[3],
        _ => &[],
    }
}

#[test]
fn kinds_fit_turns(rt: HostRuntime) {
    for turn in 0..=255u8 {
        for byte in 0..=255u8 {
            assert!(rt; Kind::at(turn, byte).is_some() == taken(turn).contains(&byte));
        }
    }
    let fits = |pair: &u16| {
        let [turn, byte] = pair.to_be_bytes();
        Kind::at(turn, byte).is_some()
    };
    assert!(rt; (0..=u16::MAX).filter(fits).count() == 57);
}

// Which kinds may follow each other where nothing is changed; the game says no to that.
fn follows(before: Kind, after: Kind) -> bool {
    matches!(
        (before, after),
        (_, Kind::Conclude)
            | (Kind::PreFund, Kind::PreFund | Kind::PostFund)
            | (Kind::PostFund, Kind::PostFund)
    )
}

#[test]
fn kinds_follow_kinds(rt: HostRuntime) -> Result<(), Fail> {
    let kinds = [Kind::PreFund, Kind::PostFund, Kind::Game, Kind::Conclude];
    for before in kinds {
        for after in kinds {
            let asked = after == Kind::Game && (before == Kind::PostFund || before == Kind::Game);
            let layer = if asked { Layer::Game } else { Layer::Turns };
            let answer = TERMS.step(
                &TicTacToe,
                &state(8, before, (6, 4)),
                &state(9, after, (6, 4)),
            );
            if follows(before, after) {
                assert!(rt; answer.is_ok());
            } else {
                says(&rt, answer, (8, layer, 3, 1, 9))?;
            }
        }
    }
    Ok(())
}

#[test]
fn a_conclude_keeps_the_amounts(rt: HostRuntime) -> Result<(), Fail> {
    let before = state(8, Kind::Game, (6, 4));
    let answer = TERMS.step(&TicTacToe, &before, &state(9, Kind::Conclude, (4, 6)));
    says(&rt, answer, (8, Layer::Turns, 3, 1, 9))
}

#[test]
fn a_turn_is_not_left_out(rt: HostRuntime) -> Result<(), Fail> {
    let before = state(8, Kind::Game, (6, 4));
    for (turn, seat) in [(0, 0), (7, 1), (8, 0), (10, 0), (255, 1)] {
        let answer = TERMS.step(&TicTacToe, &before, &state(turn, Kind::Conclude, (6, 4)));
        says(&rt, answer, (7, Layer::Turns, 3, seat, turn))?;
    }
    Ok(())
}
