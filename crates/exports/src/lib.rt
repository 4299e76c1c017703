// SHA-256 and the one-time scheme for programs in other languages. A slice passes as a pointer and a length. Each
// function answers whether it did what was asked; where it did not, what it was lent is as it was.
#![tactic(auto)]

mod digests;
mod signatures;

pub use digests::kofnasig_sha256;
pub use signatures::{kofnasig_onetime_check, kofnasig_onetime_root, kofnasig_onetime_sign};
