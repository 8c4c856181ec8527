//! The tests of the crates of the model of a repository.
#![tactic(auto)]

#[cfg(test)]
mod changes;
#[cfg(test)]
mod expansion;
#[cfg(test)]
mod index;
#[cfg(test)]
mod nodes;
#[cfg(test)]
mod patched_texts;
