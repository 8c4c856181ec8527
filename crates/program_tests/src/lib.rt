//! The tests of the library that the programs share; their own tests are in their crates.
#![tactic(auto)]

#[cfg(test)]
mod support;
