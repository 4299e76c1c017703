ghost use Rattle.std.specs.Prelude.{◌≡◌};
ghost use Rattle.games.specs.Examples.{WorkedExamples};
ghost use Rattle.games.specs.House.{MoneyStays, house_codes};

use crate::rps::RockPaperScissors;
use crate::shelf::Shelf;
use crate::ttt::TicTacToe;
use turns::Game;

// What holds of the house's games.
#[tactic(auto, using(crate::proofs::Money::money_stays, crate::proofs::Worked::worked))]
fn laws()
    ensures examples { WorkedExamples }
    ensures money { MoneyStays }
{}

// Whether the house has a game of this code.
pub fn is_house_code(code: u8) -> bool
    ensures answer { result ≡ house_codes code }
    ensures examples { WorkedExamples }
    ensures money { MoneyStays }
{
    let shelf = Shelf {
        first: RockPaperScissors,
        second: TicTacToe,
    };
    laws();
    shelf.knows(code)
}
