//! A call of the filter, as the filter reads its arguments.
ghost use Rattle.std.specs.Prelude.{◌≡◌, ◌≢◌, ◌≤◌, IfOk, Err, map, true};
ghost use Rattle.clap.specs.Words.{found_of, rows_of};
ghost use Rattle.cli_support.specs.Arguments.{Answers};
ghost use Rattle.cli_support.specs.FilterCalls.{call_of_side, filter_call_of};
ghost use Rattle.cli_support.specs.FilterCommand.{filter_command};
ghost use Rattle.cli_support.specs.steps.FilledFlags.{AreFilled};
ghost use Rattle.cli_support.specs.steps.LineReading.{is_line_of, is_line_taken_by};

use crate::flags::filter_command;
use crate::line::{is_set, read_line, read_number, read_options, side_in};
use crate::usage::Usage;
use clap::ArgMatches;
use dump_rules::{Options, Side};
use std::alloc::Global;

/// What a call of the filter asks for.
#[derive(Drop)]
pub struct FilterCall {
    pub options: Options,
    /// How many workers check records.
    pub workers: usize,
    /// The largest number of records that are processed at the same time.
    pub window: usize,
    /// Whether a run without a fault writes no line.
    pub quiet: bool,
}

/// Reads the arguments after the program's name.
pub fn read_filter_call<'a>(alloc: Global, line: &'a [&'a str]) -> Result<FilterCall, Usage>
    ensures meaning { Answers (λ call. call) (filter_call_of (map (λ word. word.now) line.now)) result }
    ensures workers { IfOk result (λ call. (1 ≤ call.workers) × (call.workers ≤ 64)) }
    ensures window { IfOk result (λ call. (1 ≤ call.window) × (call.window ≤ 4096)) }

    // A well-formed call is never rejected as wrong arguments.
    ensures lawful { is_line_of filter_command (map (λ word. word.now) line.now) ≡ true → result ≢ Err Usage.Words }
    ensures takes { is_line_taken_by filter_command (map (λ word. word.now) line.now) ≡ true → result ≢ Err Usage.Words }
{
    let Some(side) = side_in(line) else {
        return Err(Usage::Words);
    };
    let Ok(command) = filter_command(alloc) else {
        return Err(Usage::Memory);
    };
    match read_line(command, line) {
        Ok(matches) => read_call(alloc, side, &matches),
        Err(usage) => Err(usage),
    }
}

/// What a side and the arguments after it ask for.
fn read_call(alloc: Global, side: Side, matches: &ArgMatches<'_>) -> Result<FilterCall, Usage>
    requires { AreFilled (rows_of (found_of matches.now)) }
    ensures meaning { Answers (λ call. call) (call_of_side side (rows_of (found_of matches.now))) result }
    ensures workers { IfOk result (λ call. (1 ≤ call.workers) × (call.workers ≤ 64)) }
    ensures window { IfOk result (λ call. (1 ≤ call.window) × (call.window ≤ 4096)) }
{
    match read_options(alloc, side, matches) {
        Ok(options) => Ok(FilterCall {
            options,
            workers: read_number(matches, "workers"),
            window: read_number(matches, "window"),
            quiet: is_set(matches, "quiet"),
        }),
        Err(usage) => Err(usage),
    }
}
