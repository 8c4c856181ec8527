//! A program that cuts paths out of a Subversion dump, on standard input and output.
#![tactic(auto)]

use cli_support::{NewFile, Usage, arguments, as_texts, input_size, refuse};
use cut_cli::drive::{PROGRAM, drive};
use cut_cli::{Mistake, write_mistake};
use std::process::ExitCode;
use std::sync::Wait;
use std::thread::Threads;

#[cfg(test)]
mod tests;

fn main(rt: HostRuntime) -> ExitCode {
    let status = match run_words(&rt, &rt) {
        Ok(status) => status,
        Err(usage) => {
            if usage == Usage::Words {
                let _ = write_mistake(&mut rt.stderr(), Mistake::NotText);
            }
            refuse(&mut rt.stderr(), PROGRAM, usage)
        }
    };
    ExitCode::from(status)
}

/// Runs the whole program with the arguments and the streams of the process.
fn run_words<H: Threads + Wait + Sync>(threads: &H, rt: &HostRuntime) -> Result<u8, Usage> {
    let alloc = rt.alloc();
    let words = arguments(rt)?;
    let texts = as_texts(alloc, &words)?;
    Ok(drive(
        threads,
        alloc,
        texts.as_slice(),
        rt,
        input_size(rt),
        &mut rt.reader(),
        &mut rt.stdout(),
        &mut NewFile::new(rt),
        &mut rt.stderr(),
    ))
}
