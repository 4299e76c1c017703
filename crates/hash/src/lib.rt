// SHA-256, as FIPS 180-4 defines it.
#![tactic(auto)]

mod blocks;
mod closing;
mod digests;
mod stream;
mod tables;
mod words;

pub use digests::sha256;
pub use stream::Sha256;
pub use tables::{initial_word, round_constant};
