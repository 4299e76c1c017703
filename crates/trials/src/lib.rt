// Tests of all layers.
#![tactic(auto)]

#[cfg(test)]
mod bytes;
#[cfg(test)]
mod digests;
#[cfg(test)]
mod digits;
#[cfg(test)]
mod hashing;
#[cfg(test)]
mod refusals;
#[cfg(test)]
mod signatures;
#[cfg(test)]
mod signing;
#[cfg(test)]
mod states;
#[cfg(test)]
mod steps;
