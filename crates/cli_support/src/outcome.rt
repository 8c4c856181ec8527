//! The lines on standard error with which programs end, and the exit statuses. Errors in writing a line are ignored,
//! because there is nowhere to report them.
ghost use Rattle.std.specs.Prelude.{◌≡◌};
ghost use Rattle.cli_support.specs.Arguments.{refusal_status};

use crate::input::Unread;
use crate::usage::Usage;
use std::io::Write;

/// The name of a program, as its lines have it, and its status after a failure.
#[derive(Clone, Copy, Debug)]
pub struct Program {
    pub name: &'static str,
    /// The status of a failure.
    pub failed: u8,
}

/// Why a program failed. The names are those that users see.
#[derive(Clone, Copy, Debug, PartialEq, Eq)]
pub enum Cause {
    Sink,
    Memory,
    Threads,
    Source,
}

/// The number of a cause, as users see it.
fn code(cause: Cause) -> u8 {
    match cause {
        Cause::Sink => 20,
        Cause::Memory => 21,
        Cause::Threads => 22,
        Cause::Source => 24,
    }
}

/// Writes the line for arguments that a program rejects, and returns the status.
pub fn refuse<E: Write>(errors: &mut E, program: Program, usage: Usage) -> u8
    ensures { result ≡ refusal_status program.failed usage }
{
    match usage {
        Usage::Words | Usage::BothDrops => {
            let name = program.name;
            let _ = writeln!(errors, "usage: {name} include|exclude [OPTIONS] PREFIX...");
            2
        }
        Usage::Memory => fail(errors, program, Cause::Memory, 0),
    }
}

/// Writes the line of a failure after this many bytes of output, and returns the status.
pub fn fail<E: Write>(errors: &mut E, program: Program, cause: Cause, written: u64) -> u8
    ensures { result ≡ program.failed }
{
    let Program { name, failed } = program;
    let code = code(cause);
    let _ = writeln!(
        errors,
        "{name}: failure {code} {cause:?} after {written} bytes"
    );
    failed
}

/// The same if the input couldn't be read, so that nothing was written.
pub fn fail_unread<E: Write>(errors: &mut E, program: Program, unread: Unread) -> u8
    ensures { result ≡ program.failed }
{
    let cause = match unread {
        Unread::Source => Cause::Source,
        Unread::Memory => Cause::Memory,
    };
    fail(errors, program, cause, 0)
}
