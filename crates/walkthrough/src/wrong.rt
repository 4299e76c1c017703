// Moves that the rules do not allow.
use crate::judge::Judge;
use crate::records::{ANSWERED, shown, state};
use crate::table::{Table, Throw};
use std::io;
use turns::{Game, Kind, STATE_LEN, State, Terms};

// A move that is wrong, and the state that it comes upon.
#[derive(Clone, Copy)]
struct Wrong {
    what: &'static str,
    before: State,
    after: State,
}

fn wrong_throws(t: &Terms) -> [Wrong; 3] {
    let thrown = state(t, 5, Kind::Game, (4, 6), ANSWERED);
    [
        Wrong {
            what: "a throw that does not match its commitment",
            before: thrown,
            after: state(t, 6, Kind::Game, (4, 6), shown(Throw::Scissors)),
        },
        Wrong {
            what: "paper on rock for one stake instead of two",
            before: thrown,
            after: state(t, 6, Kind::Game, (6, 4), shown(Throw::Paper)),
        },
        Wrong {
            what: "a Conclude with other amounts",
            before: thrown,
            after: state(t, 6, Kind::Conclude, (6, 4), ANSWERED),
        },
    ]
}

fn wrong_marks(t: &Terms) -> [Wrong; 4] {
    let funded = state(t, 3, Kind::PostFund, (6, 4), Table::Empty);
    let eight = state(t, 11, Kind::Game, (4, 6), Table::Marked(51, 204));
    let late = state(t, 25, Kind::Game, (4, 6), Table::Marked(51, 204));
    [
        Wrong {
            what: "amounts kept at a first mark",
            before: funded,
            after: state(t, 4, Kind::Game, (6, 4), Table::Marked(16, 0)),
        },
        Wrong {
            what: "a full board called a draw over a line",
            before: eight,
            after: state(t, 12, Kind::Game, (6, 4), Table::Ended(307, 204)),
        },
        Wrong {
            what: "a Game state at turn 26",
            before: late,
            after: state(t, 26, Kind::Game, (8, 2), Table::Ended(307, 204)),
        },
        Wrong {
            what: "a move that leaves out a turn",
            before: funded,
            after: state(t, 5, Kind::Game, (4, 6), Table::Marked(16, 0)),
        },
    ]
}

fn refuse_each<G: Game>(judge: &Judge<'_, G>, moves: &[Wrong]) -> io::Result<()> {
    for m in moves {
        judge.refuse(m.what, &m.before, &m.after.write())?;
    }
    Ok(())
}

fn cut_short(bytes: &[u8; STATE_LEN]) -> &[u8] {
    &bytes[..STATE_LEN - 1]
}

// States that are not proper, whatever came earlier.
fn refuse_improper<G: Game>(judge: &Judge<'_, G>, other: &Terms) -> io::Result<()> {
    let t = judge.terms;
    let funded = state(t, 3, Kind::PostFund, (6, 4), Table::Empty);
    let first = state(t, 4, Kind::Game, (8, 2), Table::Marked(16, 0)).write();
    judge.refuse("a state that is cut short", &funded, cut_short(&first))?;
    let mut another_mark = first;
    another_mark[0] = b'G';
    judge.refuse("a state with another mark", &funded, &another_mark)?;
    let elsewhere = state(other, 4, Kind::Game, (8, 2), Table::Marked(16, 0)).write();
    judge.refuse("a state of another match", &funded, &elsewhere)?;
    let rich = state(t, 4, Kind::Game, (9, 2), Table::Marked(16, 0)).write();
    judge.refuse("amounts above the total", &funded, &rich)
}

pub(crate) fn refuse_all<G: Game>(
    throwing: &Judge<'_, G>,
    marking: &Judge<'_, G>,
) -> io::Result<()> {
    refuse_each(throwing, &wrong_throws(throwing.terms))?;
    refuse_each(marking, &wrong_marks(marking.terms))?;
    refuse_improper(marking, throwing.terms)
}
