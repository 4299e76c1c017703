// Judges two recorded matches from their first state to a Conclude, and some moves that are wrong; then has both
// matches signed by each scheme.
#![tactic(auto)]

mod judge;
mod played;
mod records;
mod signed;
mod table;
mod wrong;

use games::{RockPaperScissors, Shelf, TicTacToe, is_house_code};
use judge::Judge;
use onetime::OneTime;
use records::{rock_paper_scissors, terms, tic_tac_toe};
use schemes::{PUBLIC_LEN, Register, Scheme};
use signed::{Signing, secret};
use std::io;
use turns::State;
use wrong::refuse_all;

fn verdict(rt: &HostRuntime, good: bool) -> io::Result<()> {
    let words = if good {
        "Every state is proper and every step lawful: the match is good to its end."
    } else {
        "The match is not good."
    };
    println!(rt; "{words}")?;
    println!(rt)
}

fn tell_house(rt: &HostRuntime) -> io::Result<()> {
    for code in 0..=255u8 {
        if is_house_code(code) {
            println!(rt; "The house has a game of code {code}.")?;
        }
    }
    Ok(())
}

// Both matches under one scheme, from the enrolment to the last state.
fn play_signed<S: Scheme, P: Fn(&[u8]) -> Option<[u8; PUBLIC_LEN]>>(
    rt: &HostRuntime,
    scheme: &mut S,
    public_key: P,
    matches: [&[State]; 2],
) -> io::Result<()>
    requires { P.IsAlwaysCallable public_key }
{
    let mut signing = Signing { rt, scheme };
    signing.enrol_seats([0, 1, 2, 3].map(|key| public_key(&secret(key))))?;
    let mut good = true;
    for (at_match, states) in (0..).zip(matches) {
        println!(rt; "  match {at_match}:")?;
        good &= signing.sign_match(states)?;
    }
    let words = if good {
        "Every state of both matches is signed by its mover, and every signature checks."
    } else {
        "Not every signature checks."
    };
    println!(rt; "{words}")?;
    println!(rt)?;
    println!(rt; "What else this scheme is asked:")?;
    match matches[0] {
        [state, ..] => signing.refuse_signings(state)?,
        [] => println!(rt; "  nothing was signed")?,
    }
    println!(rt)
}

fn sign_both(rt: &HostRuntime, matches: [&[State]; 2]) -> io::Result<()> {
    println!(rt; "Signed by the register scheme:")?;
    play_signed(rt, &mut Register::new(), Register::public_key, matches)?;
    println!(rt; "Signed by the one-time scheme:")?;
    play_signed(rt, &mut OneTime::new(), OneTime::public_key, matches)
}

fn main(rt: HostRuntime) -> io::Result<()> {
    let shelf = Shelf {
        first: RockPaperScissors,
        second: TicTacToe,
    };
    let throwing = Judge {
        rt: &rt,
        game: &shelf,
        terms: &terms(0, 1),
    };
    let marking = Judge {
        terms: &terms(1, 2),
        ..throwing
    };
    let throws = rock_paper_scissors(throwing.terms);
    let marks = tic_tac_toe(marking.terms);
    tell_house(&rt)?;
    println!(rt;
        "Two matches of docket 1 were recorded, each with dues 6 and 4 and a stake of 2."
    )?;
    println!(rt)?;
    println!(rt; "Match 0, Rock-Paper-Scissors:")?;
    let good = throwing.judge(&throws)?;
    verdict(&rt, good)?;
    println!(rt; "Match 1, Tic-Tac-Toe:")?;
    let good = marking.judge(&marks)?;
    verdict(&rt, good)?;
    println!(rt; "Moves that are wrong, and what they get:")?;
    refuse_all(&throwing, &marking)?;
    println!(rt)?;
    sign_both(&rt, [&throws, &marks])
}
