// The one-time scheme: Winternitz chains under a Merkle tree.
#![tactic(auto)]

mod chains;
mod digits;
mod parts;
mod paths;
mod scheme;
mod tree;

pub use digits::last_digits_of_zeros;
pub use scheme::OneTime;
