//! The tests of the crates of the filter, but for dump_pipeline, whose tests are in dump_cli.
#![tactic(auto)]

#[cfg(test)]
mod digest;
#[cfg(test)]
mod filter;
#[cfg(test)]
mod lanes;
#[cfg(test)]
mod rules;
#[cfg(test)]
mod writer;
