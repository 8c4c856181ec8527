//! The tests of the crates of what a cut and a survey find.
#![tactic(auto)]

#[cfg(test)]
mod additions;
#[cfg(test)]
mod cut;
#[cfg(test)]
mod survey;
#[cfg(test)]
mod warnings;
