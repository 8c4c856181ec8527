//! The help and the version, which a program prints instead of doing its work.
ghost use Rattle.std.specs.Prelude.{◌≡◌, [], OnErr, OnOk, map};
ghost use Rattle.std.specs.Io.KnownBytes.{Appends};
ghost use Rattle.dump_writer.specs.steps.SinkStates.{loan_of};
ghost use Rattle.cli_support.specs.Info.{Prints, info_in, info_of, named_info};
ghost use Rattle.dump_writer.specs.SinkWords.{TakesPart};

use crate::buffered::{finish, output_buffer};
use crate::outcome::{Cause, Program, fail};
use dump_writer::{Chunk, OutMut, Piece, write_piece};
use std::alloc::Global;
use std::io::Write;

/// What a user can ask for instead of a program's work.
#[derive(Clone, Copy, Debug, PartialEq, Eq)]
pub enum Info {
    Help,
    Version,
}

/// What the arguments ask for instead of the program's work. `words[0]` is the program's name.
pub fn info_of(words: &[&str]) -> Option<Info>
    ensures { result ≡ info_of (map (λ word. word.now) words.now) }
{
    match words.split_first() {
        Some((_, line)) => info_in(line),
        None => None,
    }
}

/// What the first option asks for that asks for a text. After two minus signs there are no options.
fn info_in(line: &[&str]) -> Option<Info>
    ensures { result ≡ info_in (map (λ word. word.now) line.now) }
{
    for word in line {
        if *word == "--" {
            return None;
        }
        let info = named_info(word);
        if info.is_some() {
            return info;
        }
    }
    None
}

/// What this option asks for.
fn named_info(word: &str) -> Option<Info>
    ensures { result ≡ named_info word.now }
{
    match word {
        "--help" => Some(Info::Help),
        "--version" => Some(Info::Version),
        _ => None,
    }
}

/// Prints a text, and returns the status: 0, or that of a failure, for which it writes the line.
pub fn print_text<W: Write, E: Write>(
    alloc: Global,
    text: &str,
    program: Program,
    writer: &mut W,
    errors: &mut E,
) -> u8
    ensures { Prints program.failed text.now (W.contents writer.old) (W.contents writer.new) result }
{
    match write_text(alloc, text.as_bytes(), writer) {
        Ok(()) => 0,
        Err(Unwritten { cause, written }) => fail(errors, program, cause, written),
    }
}

/// Why a text was not completely written.
#[derive(Clone, Copy, Debug, PartialEq, Eq)]
pub struct Unwritten {
    pub cause: Cause,
    /// How many of its bytes were written.
    pub written: u64,
}

/// Writes a text, and flushes it.
pub fn write_text<W: Write>(alloc: Global, text: &[u8], writer: &mut W) -> Result<(), Unwritten>
    ensures whole { OnOk result (Appends (W.contents writer.old) (W.contents writer.new) text.now) }
    ensures part { OnErr result (TakesPart (W.contents writer.old) (W.contents writer.new) text.now) }
{
    let Ok(buffer) = output_buffer(alloc) else {
        return Err(Unwritten {
            cause: Cause::Memory,
            written: 0,
        });
    };
    let mut sink = OutMut::new(writer, buffer);
    let sent = send(alloc, text, &mut sink);
    let written = sink.written();
    let _ = sink.into_inner();
    match sent {
        Ok(()) => Ok(()),
        Err(cause) => Err(Unwritten { cause, written }),
    }
}

/// Writes a text to the sink, and flushes it.
fn send<W: Write>(alloc: Global, text: &[u8], sink: &mut OutMut<'_, W>) -> Result<(), Cause>
    requires waiting { sink.old.waiting ≡ [] }
    requires start { sink.old.out.start ≡ sink.old.out.taken }
    ensures whole { OnOk result (Appends sink.old.out.taken sink.new.out.taken text.now) }
    ensures part { OnErr result (TakesPart sink.old.out.taken sink.new.out.taken text.now) }
    ensures loan { loan_of sink.new ≡ loan_of sink.old }
{
    let mut piece = Piece::new(alloc);
    if piece.push(Chunk::Lent(text)).is_err() {
        return Err(Cause::Memory);
    }
    let is_down = write_piece(sink, &piece).is_err();
    match finish(sink, is_down) {
        Ok(()) => Ok(()),
        Err(_) => Err(Cause::Sink),
    }
}
