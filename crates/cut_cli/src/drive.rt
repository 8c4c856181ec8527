//! The whole program, with any reader and writers.
ghost use Rattle.std.specs.Prelude.{◌≡◌, ◌⊎◌, ◌||◌, [], IfOk, OnErr, OnOk, is_some, map};
ghost use Rattle.std.specs.Io.KnownBytes.{Appends, Keeps};
ghost use Rattle.dump_writer.specs.steps.SinkStates.{lent_taken, loan_of};
ghost use Rattle.cut_cli.specs.Sent.{stop_line, stop_line_of};
ghost use Rattle.cut_cli.specs.steps.Drive.{AnswersCall, AnswersWhole, CutsDump, CutsInput, DrivesCut, RanCut, ReadsTargets, WritesBoth, WritesCut, obstacle_status, cut_status};
ghost use Rattle.cli_support.specs.Info.{info_of};
ghost use Rattle.cut_cli.specs.Headline.{ZeroIsCut, ZeroIsDroppedCut, ZeroIsOfKept, ZeroIsRest, ZeroPromises};
ghost use Rattle.cut_cli.specs.Statuses.{MapIsWritten, NothingIsWritten, PartIsWritten, TextIsPrinted};
ghost use Rattle.cut_cli.specs.Words.{cut_of_words};
ghost use Rattle.cut_cli.specs.steps.Words.{asked_map, cut_meaning};
ghost use Rattle.cut_cli.specs.steps.Cuts.{text_read};
ghost use Rattle.cut_cli.specs.steps.Examined.{expansion_text};
ghost use Rattle.cut_cli.specs.steps.Ended.{FailsFirst, TellsAfter};
ghost use Rattle.dump_writer.specs.SinkWords.{TakesPart};

use crate::examine::{Obstacle, Ready, examine};
use crate::expansion::Expansion;
use crate::faults::write_fault;
use crate::map::{begin_map, end_map};
use crate::memory::run_in_memory;
use crate::mistakes::{Mistake, write_mistake, write_no_file};
use crate::spot::first_revision;
use crate::summary::write_report;
use crate::texts::info_text;
use crate::words::{Call, call_of, with_targets};
use cli_support::{
    Cause, NamedFiles, NamedOutput, Program, UnreadFile, Usage, fail, fail_unread, finish, info_of,
    output_buffer, print_text, read_all, read_files, refuse,
};
use dump_changes::Memory;
use dump_cut::Deletes;
use dump_pipeline::{Answer, Failure, FreeGate, Plan, run};
use dump_rules::Options;
use dump_text::FaultKind;
use dump_writer::{Chunk, OutMut, Piece, Sink, write_piece};
use std::alloc::Global;
use std::io::{self, Read, Write};
use std::sync::Wait;
use std::thread::Threads;

/// The name of the program in its lines, and the status of a failure.
pub const PROGRAM: Program = Program {
    name: "svndumpcut",
    failed: 1,
};

/// Runs the whole program, and returns its exit status. `size` is a guess of the size of the input. A right guess
/// avoids that the buffer grows; it has no other effect.
pub fn drive<
    'a,
    H: Threads + Wait + Sync,
    F: NamedFiles,
    R: Read,
    W: Write,
    M: NamedOutput,
    E: Write,
>(
    rt: &H,
    alloc: Global,
    words: &'a [&'a str],
    files: &F,
    size: u64,
    reader: &mut R,
    writer: &mut W,
    map_file: &mut M,
    errors: &mut E,
) -> u8
    ensures zero { ZeroPromises ZeroIsCut (F.text_of files.now) (info_of (map (λ word. word.now) words.now)) (cut_of_words (map (λ word. word.now) words.now)) (R.remaining reader.old) (W.contents writer.old) (W.contents writer.new) result }
    ensures zero_drops { ZeroPromises ZeroIsDroppedCut (F.text_of files.now) (info_of (map (λ word. word.now) words.now)) (cut_of_words (map (λ word. word.now) words.now)) (R.remaining reader.old) (W.contents writer.old) (W.contents writer.new) result }
    ensures zero_after { ZeroPromises ZeroIsRest (F.text_of files.now) (info_of (map (λ word. word.now) words.now)) (cut_of_words (map (λ word. word.now) words.now)) (R.remaining reader.old) (W.contents writer.old) (W.contents writer.new) result }
    ensures zero_kept { ZeroPromises ZeroIsOfKept (F.text_of files.now) (info_of (map (λ word. word.now) words.now)) (cut_of_words (map (λ word. word.now) words.now)) (R.remaining reader.old) (W.contents writer.old) (W.contents writer.new) result }
    ensures nothing { NothingIsWritten (info_of (map (λ word. word.now) words.now)) (cut_of_words (map (λ word. word.now) words.now)) (R.remaining reader.old) (W.contents writer.old) (W.contents writer.new) result }
    ensures part { PartIsWritten (info_of (map (λ word. word.now) words.now)) (R.remaining reader.old) (W.contents writer.old) (W.contents writer.new) result }
    ensures mapped { MapIsWritten (info_of (map (λ word. word.now) words.now)) (cut_of_words (map (λ word. word.now) words.now)) (R.remaining reader.old) (W.contents writer.old) (W.contents writer.new) (M.contents map_file.old) (M.contents map_file.new) result }
    ensures printed { TextIsPrinted (info_of (map (λ word. word.now) words.now)) (W.contents writer.old) (W.contents writer.new) (M.contents map_file.old) (M.contents map_file.new) result }
{
    match info_of(words) {
        Some(info) => print_text(alloc, info_text(info), PROGRAM, writer, errors),
        None => drive_cut(
            rt, alloc, words, files, size, reader, writer, map_file, errors,
        ),
    }
}

/// The same, if the arguments ask neither for help nor for the version.
fn drive_cut<
    'a,
    H: Threads + Wait + Sync,
    F: NamedFiles,
    R: Read,
    W: Write,
    M: NamedOutput,
    E: Write,
>(
    rt: &H,
    alloc: Global,
    words: &'a [&'a str],
    files: &F,
    size: u64,
    reader: &mut R,
    writer: &mut W,
    map_file: &mut M,
    errors: &mut E,
) -> u8
    ensures { DrivesCut (F.text_of files.now) (cut_of_words (map (λ word. word.now) words.now)) (R.remaining reader.old) (W.contents writer.old) (W.contents writer.new) (M.contents map_file.old) (M.contents map_file.new) result }
{
    match call_of(alloc, words, errors) {
        Ok(call) => answer_files(
            rt, alloc, call, files, size, reader, writer, map_file, errors,
        ),
        Err(usage) => refuse(errors, PROGRAM, usage),
    }
}

/// Makes the cut for which the call asks, with the prefixes in its files.
fn answer_files<
    H: Threads + Wait + Sync,
    F: NamedFiles,
    R: Read,
    W: Write,
    M: NamedOutput,
    E: Write,
>(
    rt: &H,
    alloc: Global,
    call: Call<'_>,
    files: &F,
    size: u64,
    reader: &mut R,
    writer: &mut W,
    map_file: &mut M,
    errors: &mut E,
) -> u8
    ensures { ReadsTargets (F.text_of files.now) (cut_meaning call.entry) (R.remaining reader.old) (W.contents writer.old) (W.contents writer.new) (M.contents map_file.old) (M.contents map_file.new) result }
{
    let texts = match read_files(alloc, files, &call.targets) {
        Ok(texts) => texts,
        Err(UnreadFile { place, unread }) => {
            let _ = write_no_file(errors, &call.targets, place);
            return fail_unread(errors, PROGRAM, unread);
        }
    };
    match with_targets(call, &texts) {
        Ok(whole) => answer_whole(rt, alloc, &whole, size, reader, writer, map_file, errors),
        Err(_) => fail(errors, PROGRAM, Cause::Memory, 0),
    }
}

/// The same, if the call has all its prefixes.
fn answer_whole<H: Threads + Wait + Sync, R: Read, W: Write, M: NamedOutput, E: Write>(
    rt: &H,
    alloc: Global,
    call: &Call<'_>,
    size: u64,
    reader: &mut R,
    writer: &mut W,
    map_file: &mut M,
    errors: &mut E,
) -> u8
    ensures { AnswersWhole (cut_meaning call.now) (R.remaining reader.old) (W.contents writer.old) (W.contents writer.new) (M.contents map_file.old) (M.contents map_file.new) result }
{
    if call.prefixes.is_empty() {
        let _ = write_mistake(errors, Mistake::NoPrefixInFiles);
        return refuse(errors, PROGRAM, Usage::Words);
    }
    answer_call(rt, alloc, call, size, reader, writer, map_file, errors)
}

/// Cuts the whole input, as the call asks.
fn answer_call<H: Threads + Wait + Sync, R: Read, W: Write, M: NamedOutput, E: Write>(
    rt: &H,
    alloc: Global,
    call: &Call<'_>,
    size: u64,
    reader: &mut R,
    writer: &mut W,
    map_file: &mut M,
    errors: &mut E,
) -> u8
    ensures { AnswersCall (cut_meaning call.now) (R.remaining reader.old) (W.contents writer.old) (W.contents writer.new) (M.contents map_file.old) (M.contents map_file.new) result }
{
    if !begin_map(call, map_file, errors) {
        return 1;
    }
    cut_input(rt, alloc, call, size, reader, writer, map_file, errors)
}

/// Cuts the whole input, if the file of the map could be created.
fn cut_input<H: Threads + Wait + Sync, R: Read, W: Write, M: NamedOutput, E: Write>(
    rt: &H,
    alloc: Global,
    call: &Call<'_>,
    size: u64,
    reader: &mut R,
    writer: &mut W,
    map_file: &mut M,
    errors: &mut E,
) -> u8
    ensures { CutsInput (cut_meaning call.now) (R.remaining reader.old) (W.contents writer.old) (W.contents writer.new) (M.contents map_file.old) (M.contents map_file.new) result }
{
    match read_all(alloc, reader, size) {
        Ok(input) => cut(rt, alloc, input.as_slice(), call, writer, map_file, errors),
        Err(unread) => fail_unread(errors, PROGRAM, unread),
    }
}

/// Cuts a dump.
fn cut<H: Threads + Wait + Sync, W: Write, M: NamedOutput, E: Write>(
    rt: &H,
    alloc: Global,
    dump: &[u8],
    call: &Call<'_>,
    writer: &mut W,
    map_file: &mut M,
    errors: &mut E,
) -> u8
    ensures { CutsDump (cut_meaning call.now) dump.now (W.contents writer.old) (W.contents writer.new) (M.contents map_file.old) (M.contents map_file.new) result }
{
    match examine(alloc, dump, call, errors) {
        Ok(Ok(ready)) if call.dry_run => {
            write_cut(
                rt,
                alloc,
                dump,
                call,
                &ready,
                &mut io::sink(),
                map_file,
                errors,
            )
        }
        Ok(Ok(ready)) => write_cut(rt, alloc, dump, call, &ready, writer, map_file, errors),
        Ok(Err(obstacle)) => obstacle_status(obstacle),
        Err(Memory) => fail(errors, PROGRAM, Cause::Memory, 0),
    }
}

/// The exit status if nothing is written.
fn obstacle_status(obstacle: Obstacle) -> u8
    ensures { result ≡ obstacle_status obstacle }
{
    match obstacle {
        Obstacle::Missing | Obstacle::CutsOtherwise | Obstacle::ComesBack => 3,
        _ => 1,
    }
}

/// Filters a dump that is ready, then writes the map, and reports how it ended.
fn write_cut<H: Threads + Wait + Sync, W: Write, M: NamedOutput, E: Write>(
    rt: &H,
    alloc: Global,
    dump: &[u8],
    call: &Call<'_>,
    ready: &Ready,
    writer: &mut W,
    map_file: &mut M,
    errors: &mut E,
) -> u8
    ensures { WritesBoth (asked_map (cut_meaning call.now)) ready.now.options ready.now.deletes call.now.after (text_read (expansion_text ready.now.expansion) dump.now) (W.contents writer.old) (W.contents writer.new) (M.contents map_file.old) (M.contents map_file.new) result }
{
    let text = ready.text(dump);
    let answer = filter_cut(rt, alloc, text, call, ready, writer);
    let Answer::Clean(_) = answer else {
        return tell(errors, dump, answer, call, ready);
    };
    if !end_map(alloc, text, &ready.options, call, map_file, errors) {
        return 1;
    }
    tell(errors, dump, answer, call, ready)
}

/// Filters a dump that is ready.
fn filter_cut<H: Threads + Wait + Sync, W: Write>(
    rt: &H,
    alloc: Global,
    dump: &[u8],
    call: &Call<'_>,
    ready: &Ready,
    writer: &mut W,
) -> Answer
    ensures { WritesCut ready.now.options ready.now.deletes call.now.after dump.now (W.contents writer.old) (W.contents writer.new) (cut_status result) }
{
    let Ok(buffer) = output_buffer(alloc) else {
        return Answer::Failed {
            failure: Failure::Memory,
            written: 0,
        };
    };
    let mut sink = OutMut::new(writer, buffer);
    let answer = run_cut(rt, alloc, dump, call, ready, &mut sink);
    let _ = sink.into_inner();
    answer
}

/// Whether the output of the filter is kept in memory before the cut is written.
fn is_kept_back(deletes: &Option<Deletes>, after: Option<u64>) -> bool
    ensures { result ≡ (is_some deletes.now || is_some after) }
{
    deletes.is_some() || after.is_some()
}

/// Runs the filter, and writes the cut with the deletes after its nodes, or the part of it after a revision.
fn run_cut<H: Threads + Wait + Sync, W: Write>(
    rt: &H,
    alloc: Global,
    dump: &[u8],
    call: &Call<'_>,
    ready: &Ready,
    sink: &mut OutMut<'_, W>,
) -> Answer
    requires waiting { sink.old.waiting ≡ [] }
    requires start { sink.old.out.start ≡ sink.old.out.taken }
    ensures ran { RanCut ready.now.options ready.now.deletes call.now.after dump.now sink.old.out.taken sink.new.out.taken result
        ⊎ (Keeps sink.old.out.taken sink.new.out.taken × FailsFirst result) }
    ensures loan { loan_of sink.new ≡ loan_of sink.old }
{
    let options = &ready.options;
    let deletes = &ready.deletes;
    let after = call.after;
    if is_kept_back(deletes, after) {
        return run_in_memory(rt, alloc, dump, options, deletes, after, call.plan, sink);
    }
    run_and_flush(rt, alloc, dump, options, call.plan, sink)
}

/// Runs the filter, and writes the bytes that are still in the buffer.
fn run_and_flush<H: Threads + Wait + Sync, W: Write>(
    rt: &H,
    alloc: Global,
    dump: &[u8],
    options: &Options,
    plan: Plan,
    sink: &mut OutMut<'_, W>,
) -> Answer
    requires waiting { sink.old.waiting ≡ [] }
    requires start { sink.old.out.start ≡ sink.old.out.taken }
    ensures ran { RanCut options.now None None dump.now sink.old.out.taken sink.new.out.taken result }
    ensures loan { loan_of sink.new ≡ loan_of sink.old }
{
    let answer = run(rt, alloc, dump, options, plan, &FreeGate, sink);
    let ending = write_ending(alloc, answer, sink);
    flush_after(sink, answer, ending)
}

/// The line that ends the output if the filter found a fault. No reader of dumps mistakes it for a record.
fn ending(alloc: Global, kind: FaultKind) -> Result<Vec<u8>, io::Error>
    ensures { IfOk result (λ line. line.items ≡ stop_line kind) }
{
    let mut line = Vec::new(alloc);
    let code = kind.code();
    writeln!(&mut line, "svndumpcut stopped here because of fault {code}")?;
    Ok(line)
}

/// Writes this line, if the filter found a fault.
pub(crate) fn write_ending<S: Sink>(
    alloc: Global,
    answer: Answer,
    sink: &mut S,
) -> Result<(), Failure>
    ensures whole { OnOk result (Appends (S.taken sink.old) (S.taken sink.new) (stop_line_of answer)) }
    ensures part { OnErr result (TakesPart (S.taken sink.old) (S.taken sink.new) (stop_line_of answer)) }
    ensures through { S.through sink.new ≡ S.through sink.old }
{
    let Answer::Fault { kind, .. } = answer else {
        return Ok(());
    };
    let Ok(line) = ending(alloc, kind) else {
        return Err(Failure::Memory);
    };
    let mut piece = Piece::new(alloc);
    if piece.push(Chunk::Lent(line.as_slice())).is_err() {
        return Err(Failure::Memory);
    }
    write_whole(sink, &piece)
}

/// Writes a piece; if the sink fails, it has taken a first part of the piece.
pub(crate) fn write_whole<S: Sink>(sink: &mut S, piece: &Piece<'_>) -> Result<(), Failure>
    ensures whole { OnOk result (Appends (S.taken sink.old) (S.taken sink.new) piece.now) }
    ensures part { OnErr result (TakesPart (S.taken sink.old) (S.taken sink.new) piece.now) }
    ensures through { S.through sink.new ≡ S.through sink.old }
{
    match write_piece(sink, piece) {
        Ok(()) => Ok(()),
        Err(_) => Err(Failure::Sink),
    }
}

/// Writes the bytes that are in the buffer after a run and its last line. If the sink has failed, nothing more is
/// written.
pub(crate) fn flush_after<W: Write>(
    sink: &mut OutMut<'_, W>,
    answer: Answer,
    ending: Result<(), Failure>,
) -> Answer
    ensures taken { Keeps (lent_taken sink.old) (lent_taken sink.new) }
    ensures told { TellsAfter sink.new answer ending result }
    ensures loan { loan_of sink.new ≡ loan_of sink.old }
{
    let is_down = is_sink_down(answer) || matches!(ending, Err(Failure::Sink));
    match (finish(sink, is_down), ending) {
        (Ok(()), Ok(())) => answer,
        (Ok(()), Err(failure)) => Answer::Failed {
            failure,
            written: sink.written(),
        },
        (Err(written), _) => Answer::Failed {
            failure: Failure::Sink,
            written,
        },
    }
}

/// Whether a run's sink failed.
fn is_sink_down(answer: Answer) -> bool {
    matches!(
        answer,
        Answer::Failed {
            failure: Failure::Sink,
            ..
        }
    )
}

/// Writes the line of an answer, and returns the status.
fn tell<E: Write>(errors: &mut E, dump: &[u8], answer: Answer, call: &Call<'_>, ready: &Ready) -> u8
    ensures { result ≡ cut_status answer }
{
    match answer {
        Answer::Clean(report) => {
            if !call.quiet {
                let first = match call.after {
                    Some(number) => number.saturating_add(1),
                    None => 0,
                };
                let youngest = youngest(dump, report.revisions_kept);
                let _ = write_report(errors, report, ready.counts, first, youngest);
            }
            0
        }
        Answer::Fault { kind, number, .. } => {
            let _ = write_fault(errors, dump, kind, given_number(&ready.expansion, number));
            1
        }
        Answer::Failed { failure, written } => fail(errors, PROGRAM, cause(failure), written),
    }
}

/// The number that a load gives to the last of `kept` revisions of a dump: it counts from 1, except that revision 0
/// stays 0.
fn youngest(dump: &[u8], kept: u64) -> u64 {
    match first_revision(dump) {
        Some(0) => kept.saturating_sub(1),
        _ => kept,
    }
}

/// The number of the dump's record for the record with this number of the text that the filter read.
fn given_number(expansion: &Option<Expansion>, number: u64) -> u64 {
    match expansion {
        Some(expansion) => expansion.given_number(number),
        None => number,
    }
}

/// The name of a failure in its line.
fn cause(failure: Failure) -> Cause {
    match failure {
        Failure::Sink => Cause::Sink,
        Failure::Memory => Cause::Memory,
        Failure::Threads => Cause::Threads,
    }
}
