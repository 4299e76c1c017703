// What a state's mover played, in words.
use crate::table::{Table, Throw};
use std::fmt;
use turns::{Kind, State};

#[derive(Clone, Copy)]
pub(crate) enum Played {
    Agrees,
    Confirms,
    Commits,
    Throws(Throw),
    Shows(Throw),
    Crosses(u32),
    Noughts(u32),
    Clears,
    Concludes,
    Nothing,
}

impl fmt::Display for Played {
    fn fmt<W: fmt::Write>(&self, f: &mut fmt::Formatter<W>) -> fmt::Result {
        match self {
            Played::Agrees => f.write_str("agrees to the dues"),
            Played::Confirms => f.write_str("confirms the deposits"),
            Played::Commits => f.write_str("commits to a throw"),
            Played::Throws(throw) => write!(f, "throws {throw}"),
            Played::Shows(throw) => write!(f, "shows {throw}"),
            Played::Crosses(cell) => write!(f, "sets a cross into cell {cell}"),
            Played::Noughts(cell) => write!(f, "sets a nought into cell {cell}"),
            Played::Clears => f.write_str("clears the table"),
            Played::Concludes => f.write_str("concludes"),
            Played::Nothing => f.write_str("plays nothing that has a meaning"),
        }
    }
}

impl Played {
    // What led from one state to the next.
    pub(crate) fn between(before: &State, after: &State) -> Played {
        match after.kind {
            Kind::PreFund => Played::Agrees,
            Kind::PostFund => Played::Confirms,
            Kind::Conclude => Played::Concludes,
            Kind::Game => match (Table::try_from(before), Table::try_from(after)) {
                (Ok(before), Ok(after)) => Played::on_table(before, after),
                _ => Played::Nothing,
            },
        }
    }

    fn on_table(before: Table, after: Table) -> Played {
        match after {
            Table::Empty => Played::Clears,
            Table::Committed => Played::Commits,
            Table::Answered(second) => Played::Throws(second),
            Table::Shown { first, .. } => Played::Shows(first),
            Table::Marked(..) | Table::Ended(..) => {
                let (crosses, noughts) = before.marks();
                let (more_crosses, more_noughts) = after.marks();
                match crosses ^ more_crosses {
                    0 => Played::Noughts((noughts ^ more_noughts).trailing_zeros()),
                    cross => Played::Crosses(cross.trailing_zeros()),
                }
            }
        }
    }
}
