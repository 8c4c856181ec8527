//! The lines that say what is wrong with the arguments. Errors in writing them are ignored, because there is nowhere
//! to report them.
use crate::lines::write_seen;
use clap::Error;
use clap::error::ErrorKind;
use std::alloc::Global;
use std::io::{self, Write};

/// What is wrong with the arguments.
#[derive(Clone, Copy)]
pub enum Mistake<'a> {
    /// There is no argument.
    NoArgument,
    /// The first argument is no subcommand.
    NoSubcommand(&'a str),
    /// There is no prefix.
    NoPrefix,
    /// The files have no prefix, and the arguments have none.
    NoPrefixInFiles,
    /// A prefix is empty.
    EmptyPrefix,
    /// Two options exclude each other.
    QuietAndVerbose,
    /// `--keep-copies` is for `exclude` alone.
    KeepUnderInclude,
    /// `--follow-copies` and `--keep-copies` exclude each other.
    KeepAndFollow,
    /// The text after `--after` is no number.
    AfterNoRevision(&'a str),
    /// The text after `--youngest` is no number.
    YoungestNoRevision(&'a str),
    /// `--after` and the option that drops revisions exclude each other.
    AfterAndDrop,
    /// An argument is not UTF-8.
    NotText,
}

/// Says that this text of an option is not the number of a revision.
fn write_no_revision<E: Write>(errors: &mut E, option: &str, text: &str) -> io::Result<()> {
    write!(errors, "not the number of a revision: --{option} '")?;
    write_seen(errors, text.as_bytes())?;
    write!(errors, "'")
}

/// Writes what is wrong, after the program's name.
fn write_text<E: Write>(errors: &mut E, mistake: Mistake<'_>) -> io::Result<()> {
    match mistake {
        Mistake::NoArgument => write!(errors, "a subcommand is missing"),
        Mistake::NoSubcommand(word) => {
            write!(errors, "unknown subcommand '")?;
            write_seen(errors, word.as_bytes())?;
            write!(errors, "'")
        }
        Mistake::NoPrefix => write!(errors, "a prefix is missing"),
        Mistake::NoPrefixInFiles => write!(
            errors,
            "a prefix is missing: the files of --targets have none"
        ),
        Mistake::EmptyPrefix => write!(errors, "a prefix is empty; the root is /"),
        Mistake::QuietAndVerbose => write!(errors, "--quiet and --verbose exclude each other"),
        Mistake::KeepUnderInclude => write!(
            errors,
            "--keep-copies is for exclude alone; include always keeps what copies bring to included paths"
        ),
        Mistake::KeepAndFollow => {
            write!(
                errors,
                "--keep-copies and --follow-copies exclude each other"
            )
        }
        Mistake::AfterNoRevision(text) => write_no_revision(errors, "after", text),
        Mistake::YoungestNoRevision(text) => write_no_revision(errors, "youngest", text),
        Mistake::AfterAndDrop => {
            write!(errors, "--after and --drop-empty-revs exclude each other")
        }
        Mistake::NotText => write!(errors, "an argument is not UTF-8"),
    }
}

/// Writes the line of a mistake.
pub fn write_mistake<E: Write>(errors: &mut E, mistake: Mistake<'_>) -> io::Result<()> {
    write!(errors, "svndumpcut: ")?;
    write_text(errors, mistake)?;
    writeln!(errors, "")
}

/// Why this program doesn't have an option of `svndumpfilter`.
fn foreign(word: &str) -> Option<&'static str> {
    let name = match word.split_once('=') {
        Some((name, _)) => name,
        None => word,
    };
    match name {
        "--preserve-revprops" => Some("--preserve-revprops is implied"),
        "--skip-missing-merge-sources" => Some("--skip-missing-merge-sources is implied"),
        "--renumber-revs" => Some("--renumber-revs is implied by --drop-empty-revs"),
        "--drop-all-empty-revs" => Some("there is no --drop-all-empty-revs"),
        "--pattern" => Some("there is no --pattern"),
        _ => None,
    }
}

/// The reason for the first of these options in a line.
fn first_foreign(line: &[&str]) -> Option<&'static str> {
    for word in line {
        if *word == "--" {
            return None;
        }
        if let Some(text) = foreign(word) {
            return Some(text);
        }
    }
    None
}

/// Writes the message of clap for a mistake: its first paragraph, without its first word.
fn write_message<E: Write>(errors: &mut E, alloc: Global, error: &Error) -> io::Result<()> {
    let Ok(message) = format!(in alloc; "{error}") else {
        return write!(errors, "the arguments are wrong");
    };
    let message = message.as_str();
    let message = message.strip_prefix("error: ").unwrap_or(message);
    let first = match message.split_once("\n\n") {
        Some((first, _)) => first,
        None => message.strip_suffix("\n").unwrap_or(message),
    };
    write_seen(errors, first.as_bytes())
}

/// Writes the line for arguments that clap rejects.
pub fn write_refused_line<E: Write>(
    errors: &mut E,
    alloc: Global,
    line: &[&str],
    error: &Error,
) -> io::Result<()> {
    if error.kind() == ErrorKind::OutOfMemory {
        return Ok(());
    }
    write!(errors, "svndumpcut: ")?;
    match first_foreign(line) {
        Some(text) if error.kind() == ErrorKind::UnknownArgument => write!(errors, "{text}")?,
        _ => write_message(errors, alloc, error)?,
    }
    writeln!(errors, "")
}

/// Says which file of prefixes couldn't be read.
pub fn write_no_file<E: Write>(errors: &mut E, names: &[&str], place: usize) -> io::Result<()> {
    let Some(name) = names.get(place) else {
        return Ok(());
    };
    write!(errors, "svndumpcut: cannot read '")?;
    write_seen(errors, name.as_bytes())?;
    writeln!(errors, "'")
}

/// Says that the file of the map can't be created.
pub fn write_no_map<E: Write>(errors: &mut E, name: &str) -> io::Result<()> {
    write!(errors, "svndumpcut: cannot create '")?;
    write_seen(errors, name.as_bytes())?;
    writeln!(errors, "'")
}

/// Says that not all of the map could be written, although the new dump is complete.
pub fn write_cut_map<E: Write>(errors: &mut E, name: &str) -> io::Result<()> {
    write!(errors, "svndumpcut: cannot write '")?;
    write_seen(errors, name.as_bytes())?;
    writeln!(errors, "'; the new dump is whole")
}
