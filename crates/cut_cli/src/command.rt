//! The command that parses the arguments after the side.
ghost use Rattle.std.specs.Prelude.{◌≡◌, IfOk};
ghost use Rattle.clap.specs.Words.{app_of};
ghost use Rattle.cut_cli.specs.CommandLine.{cut_command};

use clap::Command;
use cli_support::{any_prefixes, repeated, switch, valued, window, workers};
use std::alloc::{AllocError, Global};

/// The options and the prefixes. The side is no argument of the command.
pub fn cut_command<'a>(alloc: Global) -> Result<Command<'a>, AllocError>
    ensures { IfOk result (λ c. app_of c ≡ cut_command) }
{
    Command::new(alloc, "svndumpcut")
        .disable_help_flag(true)
        .arg(switch(alloc, "follow-copies"))?
        .arg(switch(alloc, "keep-copies"))?
        .arg(switch(alloc, "drop-empty-revs"))?
        .arg(switch(alloc, "dry-run"))?
        .arg(switch(alloc, "quiet"))?
        .arg(switch(alloc, "verbose"))?
        .arg(workers(alloc))?
        .arg(window(alloc))?
        .arg(repeated(alloc, "targets"))?
        .arg(valued(alloc, "map"))?
        .arg(valued(alloc, "after"))?
        .arg(valued(alloc, "youngest"))?
        .arg(switch(alloc, "allow-missing"))?
        .arg(any_prefixes(alloc))
}
