//! A filter for Subversion dump files, on standard input and output.
#![tactic(auto)]

mod drive;
mod messages;
#[cfg(test)]
mod tests;
mod words;

use cli_support::{Usage, arguments, as_texts, input_size, refuse};
use drive::{PROGRAM, drive_sized};
use std::process::ExitCode;
use std::sync::Wait;
use std::thread::Threads;

fn main(rt: HostRuntime) -> ExitCode {
    let status = match run_words(&rt, &rt) {
        Ok(status) => status,
        Err(usage) => refuse(&mut rt.stderr(), PROGRAM, usage),
    };
    ExitCode::from(status)
}

/// Runs the whole program with the arguments and the streams of the process.
fn run_words<H: Threads + Wait + Sync>(threads: &H, rt: &HostRuntime) -> Result<u8, Usage> {
    let alloc = rt.alloc();
    let words = arguments(rt)?;
    let texts = as_texts(alloc, &words)?;
    Ok(drive_sized(
        threads,
        alloc,
        texts.as_slice(),
        input_size(rt),
        &mut rt.reader(),
        &mut rt.stdout(),
        &mut rt.stderr(),
    ))
}
