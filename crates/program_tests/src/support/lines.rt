//! Examples of arguments.

use clap::Command;
use cli_support::{
    FilterCall, Usage, is_set, prefixes, read_filter_call, read_line, read_prefixes, side_in,
    switch,
};
use dump_rules::{Empty, Options, Side};
use std::alloc::{AllocError, Global};
use std::process::Abort;
use std::test::Fail;

/// A command with its own option `--loud`.
fn loud_command<'a>(alloc: Global) -> Result<Command<'a>, AllocError> {
    Command::new(alloc, "svndumptest")
        .disable_help_flag(true)
        .arg(switch(alloc, "loud"))?
        .arg(prefixes(alloc))
}

/// The number of prefixes in a line, and whether `--loud` is set.
fn read<'a>(alloc: Global, line: &'a [&'a str]) -> Result<(usize, bool), Usage> {
    if side_in(line).is_none() {
        return Err(Usage::Words);
    }
    let Ok(command) = loud_command(alloc) else {
        return Err(Usage::Memory);
    };
    let matches = read_line(command, line)?;
    let loud = is_set(&matches, "loud");
    Ok((read_prefixes(alloc, &matches)?.len(), loud))
}

#[test]
fn a_line_of_a_program_is_read(rt: HostRuntime) -> Result<(), Fail> {
    let read = read(rt.alloc(), &["exclude", "a", "--loud", "--", "--b"])?;
    assert!(rt; read == (2, true));
    Ok(())
}

/// Whether a call of the filter asks for new numbers, and its number of workers.
fn read_call<'a>(alloc: Global, line: &'a [&'a str]) -> Result<(bool, usize), Usage> {
    let call = read_filter_call(alloc, line)?;
    Ok((call.options.renumber(), call.workers))
}

fn has_all(options: &Options) -> bool {
    options.side() == Side::Exclude
        && options.empty() == Empty::DropAll
        && options.renumber()
        && options.preserve()
        && options.skip_missing()
        && options.prefix(0) == Some(b"a".as_slice())
        && options.prefix(1) == Some(b"b".as_slice())
        && options.prefix(2).is_none()
}

fn asks_for_all(call: &FilterCall) -> bool {
    has_all(&call.options) && call.workers == 3 && call.window == 64 && call.quiet
}

const ALL: [&str; 11] = [
    "exclude",
    "--drop-all-empty-revs",
    "a",
    "--renumber-revs",
    "--preserve-revprops",
    "--skip-missing-merge-sources",
    "--quiet",
    "--workers",
    "3",
    "--",
    "b",
];

#[test]
fn a_call_of_the_filter_is_read(rt: HostRuntime) -> Result<(), Fail> {
    assert!(rt; asks_for_all(&read_filter_call(rt.alloc(), &ALL)?));
    let read = read_call(rt.alloc(), &["include", "a"])?;
    assert!(rt; read == (false, 4));
    Ok(())
}

fn is_refused<'a>(alloc: Global, line: &'a [&'a str], usage: Usage) -> bool {
    match read_filter_call(alloc, line) {
        Ok(_) => false,
        Err(found) => found == usage,
    }
}

#[test]
fn other_lines_are_refused(rt: HostRuntime) {
    assert!(rt; is_refused(rt.alloc(), &[], Usage::Words));
    assert!(rt; is_refused(rt.alloc(), &["Include", "a"], Usage::Words));
    assert!(rt; is_refused(rt.alloc(), &["include", "--quiet"], Usage::Words));
    assert!(rt; is_refused(rt.alloc(), &["include", "--loud", "a"], Usage::Words));
    let both = ["include", "--drop-empty-revs", "--drop-all-empty-revs", "a"];
    assert!(rt; is_refused(rt.alloc(), &both, Usage::BothDrops));
}

/// Run with each allocation failing in turn: the call returns what is asked for, or the error for memory.
#[test]
fn call_or_no_memory(rt: HostRuntime) {
    let answered = match read_filter_call(rt.alloc(), &ALL) {
        Ok(call) => asks_for_all(&call),
        Err(usage) => usage == Usage::Memory,
    };
    assert!(rt; answered);
}
