// What a signature scheme is, for code that is written once for every scheme, and the register scheme.
#![tactic(auto)]

mod keys;
mod pages;
mod place;
mod register;
mod scheme;
mod signing;

pub use keys::{PUBLIC_LEN, Ready, SECRET_LEN, refusal};
pub use pages::Pages;
pub use place::{DIGEST_LEN, KEYS, Message, Place, TURNS};
pub use register::Register;
pub use scheme::Scheme;
pub use signing::{enrol_and_ask, sign_and_check, sign_between_checks};
