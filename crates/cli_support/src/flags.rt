//! The options of the filter, the options for threads, and the prefixes, as clap reads them.
ghost use Rattle.std.specs.Prelude.{◌≡◌, IfOk, false, codes};
ghost use Rattle.clap.specs.Words.{app_of, rule_of};
ghost use Rattle.cli_support.specs.FilterCommand.{any_prefixes, filter_command, number, prefixes, repeated, switch, valued};

use clap::{Arg, ArgAction, Command, value_parser};
use std::alloc::{AllocError, Global};

/// An option without a value.
pub fn switch<'a>(alloc: Global, name: &'a str) -> Arg<'a>
    ensures rule { rule_of result ≡ switch name.entry.now }
    ensures local { result.global ≡ false }
{
    Arg::new(alloc, name).long(name).action(ArgAction::SetTrue)
}

/// The option for the number of workers, with its default.
pub fn workers<'a>(alloc: Global) -> Arg<'a>
    ensures rule { rule_of result ≡ number (codes "workers") 64 (codes "4") }
    ensures local { result.global ≡ false }
{
    Arg::new(alloc, "workers")
        .long("workers")
        .action(ArgAction::Set)
        .value_parser(value_parser!(usize).range(1..=64))
        .default_value("4")
}

/// The option for the width of the window, with its default.
pub fn window<'a>(alloc: Global) -> Arg<'a>
    ensures rule { rule_of result ≡ number (codes "window") 4096 (codes "64") }
    ensures local { result.global ≡ false }
{
    Arg::new(alloc, "window")
        .long("window")
        .action(ArgAction::Set)
        .value_parser(value_parser!(usize).range(1..=4096))
        .default_value("64")
}

/// The prefixes, at least one.
pub fn prefixes<'a>(alloc: Global) -> Arg<'a>
    ensures rule { rule_of result ≡ prefixes }
    ensures local { result.global ≡ false }
{
    Arg::new(alloc, "PREFIX").required(true).num_args(1..)
}

/// The prefixes of a program that also reads prefixes from files; there may be none.
pub fn any_prefixes<'a>(alloc: Global) -> Arg<'a>
    ensures rule { rule_of result ≡ any_prefixes }
    ensures local { result.global ≡ false }
{
    prefixes(alloc).required(false)
}

/// An option with a value, which may occur several times.
pub fn repeated<'a>(alloc: Global, name: &'a str) -> Arg<'a>
    ensures rule { rule_of result ≡ repeated name.entry.now }
    ensures local { result.global ≡ false }
{
    Arg::new(alloc, name).long(name).action(ArgAction::Append)
}

/// An option with a value, which may occur once.
pub fn valued<'a>(alloc: Global, name: &'a str) -> Arg<'a>
    ensures rule { rule_of result ≡ valued name.entry.now }
    ensures local { result.global ≡ false }
{
    Arg::new(alloc, name).long(name).action(ArgAction::Set)
}

/// The filter's command: its options and the prefixes. The side is no argument of it.
pub fn filter_command<'a>(alloc: Global) -> Result<Command<'a>, AllocError>
    ensures { IfOk result (λ c. app_of c ≡ filter_command) }
{
    Command::new(alloc, "svndumpfilter")
        .disable_help_flag(true)
        .arg(switch(alloc, "drop-empty-revs"))?
        .arg(switch(alloc, "drop-all-empty-revs"))?
        .arg(switch(alloc, "renumber-revs"))?
        .arg(switch(alloc, "preserve-revprops"))?
        .arg(switch(alloc, "skip-missing-merge-sources"))?
        .arg(switch(alloc, "quiet"))?
        .arg(workers(alloc))?
        .arg(window(alloc))?
        .arg(prefixes(alloc))
}
