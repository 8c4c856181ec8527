//! The tests of the crates of the format.
#![tactic(auto)]

#[cfg(test)]
mod deltas;
#[cfg(test)]
mod records;
#[cfg(test)]
mod text;
