//! Code that the command-line programs share: it reads arguments and input, and writes output and the
//! lines with which a program ends.
//!
//! A program is called with a side, options and prefixes. [`read_filter_call`] reads the arguments of the
//! filter. Another program with the same arguments calls it too:
//!
//! ```
//! let call = read_filter_call(alloc, line)?;
//! Ok((call.options.renumber(), call.workers))
//! ```
//!
//! `support::lines::read_call` of `program_tests` runs this.
//!
//! A program with other options makes a command of its own. A [`switch`] is an option without a value,
//! [`workers`] and [`window`] are the options for threads, and the [`prefixes`] come last. [`side_in`]
//! reads the side with which a line begins, and [`read_line`] parses the line by the command. [`is_set`]
//! says whether a switch is set, and [`read_number`] is the number of an option:
//!
//! ```
//! let matches = read_line(command, line)?;
//! let loud = is_set(&matches, "loud");
//! ```
//!
//! `support::lines::read` of `program_tests` runs this.
//!
//! [`refusal`] says why clap rejects a line, for a program that parses the line itself.
//!
//! [`NamedFiles`] are files that a program reads by their names. [`read_files`] reads the files of
//! prefixes, whose names [`read_values`] finds, and [`with_texts`] adds the prefixes in their texts to
//! others. Such a program uses [`any_prefixes`] in place of [`prefixes`].
//!
//! A [`NamedOutput`] is an output to a file that a program creates by its name, and [`NewFile`] is such
//! an output of the process. [`valued`] is an option with such a name, and [`read_value`] finds it.
//! [`write_text`] writes a whole text.
//!
//! [`info_of`] says whether arguments ask for help or the version, and [`print_text`] prints a text.
//!
//! [`arguments`] returns those of the process, and [`input_size`] is a guess at the size of its input.
//! [`read_all`] reads the input, [`output_buffer`] is the buffer of an `OutMut`, and [`finish`] writes
//! what is in the buffer. [`refuse`] and [`fail`] write the line that says why a [`Program`] ended, and
//! return its status.
#![tactic(auto)]

mod buffered;
mod filter_call;
mod flags;
mod info;
mod input;
mod line;
mod named_output;
mod outcome;
mod process;
mod targets;
mod usage;

pub use buffered::{finish, output_buffer};
pub use filter_call::{FilterCall, read_filter_call};
pub use flags::{any_prefixes, prefixes, repeated, switch, valued, window, workers};
pub use info::{Info, Unwritten, info_of, print_text, write_text};
pub use input::{Unread, read_all};
pub use line::{is_set, read_line, read_number, read_prefixes, read_value, read_values, side_in};
pub use named_output::NamedOutput;
pub use outcome::{Cause, Program, fail, fail_unread, refuse};
pub use process::{NewFile, arguments, as_texts, input_size};
pub use targets::{NamedFiles, UnreadFile, read_files, with_texts};
pub use usage::{Usage, refusal};
