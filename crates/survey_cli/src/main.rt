//! A survey of Subversion dumps before they are filtered, on standard input and output.
#![tactic(auto)]

mod drive;
pub mod laws;
#[cfg(test)]
mod tests;
mod texts;
mod words;

use cli_support::{Usage, arguments, as_texts, input_size, refuse};
use drive::{PROGRAM, drive};
use std::process::ExitCode;

fn main(rt: HostRuntime) -> ExitCode {
    let status = match run_words(&rt) {
        Ok(status) => status,
        Err(usage) => refuse(&mut rt.stderr(), PROGRAM, usage),
    };
    ExitCode::from(status)
}

/// Runs the whole program with the arguments and the streams of the process.
fn run_words(rt: &HostRuntime) -> Result<u8, Usage> {
    let alloc = rt.alloc();
    let words = arguments(rt)?;
    let texts = as_texts(alloc, &words)?;
    Ok(drive(
        alloc,
        texts.as_slice(),
        input_size(rt),
        &mut rt.reader(),
        &mut rt.stdout(),
        &mut rt.stderr(),
    ))
}
