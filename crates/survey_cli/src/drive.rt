//! The whole program, with any reader and writers.
ghost use Rattle.std.specs.Prelude.{◌≡◌, [], List, ℕ, map, Ok, IfErr, IfOk, OnErr, OnOk};
ghost use Rattle.std.specs.Io.KnownBytes.{Appends, GrowsBy, Keeps};
ghost use Rattle.dump_writer.specs.steps.SinkStates.{lent_taken, loan_of};
ghost use Rattle.cli_support.specs.Info.{info_of};
ghost use Rattle.survey_cli.specs.Words.{call_of_words};
ghost use Rattle.survey_cli.specs.Drive.{AnswersWords, IsCallText, IsMapAskedFor, IsWholeText, SurveysInput, DrivesSurvey};
ghost use Rattle.survey_cli.specs.steps.Answered.{Arrives, FrontBreaksOff, MapBreaksOff, SurveyBreaksOff, answer_status};

use crate::texts::{HELP, VERSION};
use crate::words::{Call, call_of};
use cli_support::{
    Cause, Info, Program, fail, fail_unread, finish, info_of, output_buffer, print_text, read_all,
    refuse,
};
use dump_rules::Options;
use dump_survey::{SurveyFailure, write_advice, write_map, write_survey};
use dump_writer::OutMut;
use std::alloc::Global;
use std::io::{Read, Write};

/// The name of the program in its lines, and the status of a failure.
pub const PROGRAM: Program = Program {
    name: "svndumpsurvey",
    failed: 3,
};

/// Why a survey wasn't completely written.
#[derive(Clone, Copy)]
struct BrokenOff {
    failure: SurveyFailure,
    /// How many bytes the writer took.
    written: u64,
}

/// Runs the whole program, and returns its exit status. `size` is a guess of the size of the input. A right guess
/// avoids that the buffer grows; it has no other effect.
pub fn drive<'a, R: Read, W: Write, E: Write>(
    alloc: Global,
    words: &'a [&'a str],
    size: u64,
    reader: &mut R,
    writer: &mut W,
    errors: &mut E,
) -> u8
    ensures { AnswersWords (info_of (map (λ word. word.now) words.now)) (call_of_words (map (λ word. word.now) words.now)) (R.remaining reader.old) (W.contents writer.old) (W.contents writer.new) result }
{
    match info_of(words) {
        Some(Info::Help) => print_text(alloc, HELP, PROGRAM, writer, errors),
        Some(Info::Version) => print_text(alloc, VERSION, PROGRAM, writer, errors),
        None => drive_survey(alloc, words, size, reader, writer, errors),
    }
}

/// The same, if the arguments ask neither for help nor for the version.
fn drive_survey<'a, R: Read, W: Write, E: Write>(
    alloc: Global,
    words: &'a [&'a str],
    size: u64,
    reader: &mut R,
    writer: &mut W,
    errors: &mut E,
) -> u8
    ensures { DrivesSurvey (call_of_words (map (λ word. word.now) words.now)) (R.remaining reader.old) (W.contents writer.old) (W.contents writer.new) result }
{
    match call_of(alloc, words) {
        Ok(call) => survey_input(alloc, &call, size, reader, writer, errors),
        Err(usage) => refuse(errors, PROGRAM, usage),
    }
}

/// Surveys the whole input, as the call asks.
fn survey_input<R: Read, W: Write, E: Write>(
    alloc: Global,
    call: &Call,
    size: u64,
    reader: &mut R,
    writer: &mut W,
    errors: &mut E,
) -> u8
    ensures { SurveysInput call.now (R.remaining reader.old) (W.contents writer.old) (W.contents writer.new) result }
{
    let input = match read_all(alloc, reader, size) {
        Ok(input) => input,
        Err(unread) => return fail_unread(errors, PROGRAM, unread),
    };
    let Ok(buffer) = output_buffer(alloc) else {
        return fail(errors, PROGRAM, Cause::Memory, 0);
    };
    let mut sink = OutMut::new(writer, buffer);
    let answer = survey_and_flush(alloc, input.as_slice(), call, &mut sink);
    let _ = sink.into_inner();
    tell(errors, answer)
}

/// Writes the survey with all that follows it, and flushes the sink.
fn survey_and_flush<W: Write>(
    alloc: Global,
    dump: &[u8],
    call: &Call,
    sink: &mut OutMut<'_, W>,
) -> Result<bool, BrokenOff>
    requires waiting { sink.old.waiting ≡ [] }
    requires start { sink.old.out.start ≡ sink.old.out.taken }
    ensures arrives { Arrives call.now dump.now sink.old.out.taken sink.new.out.taken result }
    ensures loan { loan_of sink.new ≡ loan_of sink.old }
{
    let answer = write_text(alloc, dump, call, sink);
    flush_behind(sink, answer)
}

/// Writes all that the call asks for.
fn write_text<W: Write>(
    alloc: Global,
    dump: &[u8],
    call: &Call,
    sink: &mut OutMut<'_, W>,
) -> Result<bool, SurveyFailure>
    ensures whole { IfOk result (λ found. (text : List ℕ) × IsCallText call.now dump.now text found
        × Appends (lent_taken sink.old) (lent_taken sink.new) text) }
    ensures part { OnErr result (SurveyBreaksOff call.now dump.now (lent_taken sink.old) (lent_taken sink.new)) }
    ensures loan { loan_of sink.new ≡ loan_of sink.old }
{
    let found = write_front(alloc, dump, &call.options, sink)?;
    write_asked_map(alloc, dump, call, sink)?;
    Ok(found)
}

/// Writes the survey, and after it how many lines of mergeinfo are dropped, the directories to create and the prefixes
/// to add.
fn write_front<W: Write>(
    alloc: Global,
    dump: &[u8],
    options: &Options,
    sink: &mut OutMut<'_, W>,
) -> Result<bool, SurveyFailure>
    ensures whole { IfOk result (λ found. (text : List ℕ) × IsWholeText options.now dump.now text found
        × Appends (lent_taken sink.old) (lent_taken sink.new) text) }
    ensures part { OnErr result (FrontBreaksOff options.now dump.now (lent_taken sink.old) (lent_taken sink.new)) }
    ensures loan { loan_of sink.new ≡ loan_of sink.old }
{
    let found = write_survey(alloc, dump, options, sink)?;
    write_advice(alloc, dump, options, found, sink)?;
    Ok(found)
}

/// Writes the map of revisions, if the call asks for it.
fn write_asked_map<W: Write>(
    alloc: Global,
    dump: &[u8],
    call: &Call,
    sink: &mut OutMut<'_, W>,
) -> Result<(), SurveyFailure>
    ensures whole { OnOk result ((text : List ℕ) × IsMapAskedFor call.now dump.now text
        × Appends (lent_taken sink.old) (lent_taken sink.new) text) }
    ensures part { OnErr result (MapBreaksOff call.now dump.now (lent_taken sink.old) (lent_taken sink.new)) }
    ensures loan { loan_of sink.new ≡ loan_of sink.old }
{
    if call.map {
        write_map(alloc, dump, &call.options, sink)?;
    }
    Ok(())
}

/// Flushes the sink after a text. If the sink has failed, nothing more is written.
fn flush_behind<W: Write>(
    sink: &mut OutMut<'_, W>,
    answer: Result<bool, SurveyFailure>,
) -> Result<bool, BrokenOff>
    ensures taken { Keeps (lent_taken sink.old) (lent_taken sink.new) }
    ensures told { IfOk result (λ found. (answer ≡ Ok found) × (sink.new.waiting ≡ [])) }
    ensures grown { IfErr result (λ broken. GrowsBy sink.new.out.start sink.new.out.taken broken.written) }
    ensures loan { loan_of sink.new ≡ loan_of sink.old }
{
    let is_down = matches!(answer, Err(SurveyFailure::Sink));
    match (finish(sink, is_down), answer) {
        (Ok(()), Ok(found)) => Ok(found),
        (Ok(()), Err(failure)) => Err(broken_off(sink, failure)),
        (Err(written), _) => Err(BrokenOff {
            failure: SurveyFailure::Sink,
            written,
        }),
    }
}

/// A failure, and the number of bytes that the sink's writer took.
fn broken_off<W: Write>(sink: &OutMut<'_, W>, failure: SurveyFailure) -> BrokenOff
    ensures { GrowsBy sink.now.out.start sink.now.out.taken result.written }
{
    BrokenOff {
        failure,
        written: sink.written(),
    }
}

/// Writes the line of a survey that failed, and returns the status.
fn tell<E: Write>(errors: &mut E, answer: Result<bool, BrokenOff>) -> u8
    ensures { result ≡ answer_status answer }
{
    match answer {
        Ok(false) => 0,
        Ok(true) => 1,
        Err(BrokenOff { failure, written }) => fail(errors, PROGRAM, cause(failure), written),
    }
}

/// The name of a failure in its line.
fn cause(failure: SurveyFailure) -> Cause {
    match failure {
        SurveyFailure::Sink => Cause::Sink,
        SurveyFailure::Memory => Cause::Memory,
    }
}
