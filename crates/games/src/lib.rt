// The house's games: Rock-Paper-Scissors, Tic-Tac-Toe, and a shelf of two games.
#![tactic(auto)]

mod board;
mod house;
mod rounds;
mod rps;
mod shelf;
mod ttt;

pub use house::is_house_code;
pub use rps::RockPaperScissors;
pub use shelf::Shelf;
pub use ttt::TicTacToe;
