// Refusals, states, turns, and lawful steps over any game.
#![tactic(auto)]

mod bytes;
mod game;
mod lawful;
mod layer;
mod layout;
mod reading;
mod refusal;
mod state;
mod writing;

pub use bytes::{all_zero, same_bytes};
pub use game::{Game, Step};
pub use layer::Layer;
pub use layout::STATE_LEN;
pub use reading::digest;
pub use refusal::{NONE, Reason, Refusal};
pub use state::{Amounts, DATA_LEN, Kind, Position, Seat, State, Terms};
