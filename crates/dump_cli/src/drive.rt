//! The whole program, with any reader and writers.
ghost use Rattle.std.specs.Prelude.{◌≡◌, [], map};
ghost use Rattle.std.specs.Io.KnownBytes.{Keeps};
ghost use Rattle.dump_writer.specs.steps.SinkStates.{lent_taken, loan_of};
ghost use Rattle.dump_pipeline.specs.RunAnswer.{SinkFailsOnly};
ghost use Rattle.dump_cli.specs.Words.{meaning_of};
ghost use Rattle.dump_cli.specs.Drive.{CarriesOut, Drives, Ran, status_of};
ghost use Rattle.dump_cli.specs.steps.DrainedRun.{FailsOnlyBehind, IsSilent, TellsBehind, is_sink_failure};

use crate::messages::{write_fault, write_report};
use crate::words::{Order, options_of};
use cli_support::{Cause, Program, fail, fail_unread, finish, output_buffer, read_all, refuse};
use dump_pipeline::{Answer, Failure, FreeGate, Plan, run};
use dump_rules::Options;
use dump_writer::OutMut;
use std::alloc::Global;
use std::io::{Read, Write};
use std::sync::Wait;
use std::thread::Threads;

/// The name of the program in its lines, and the status of a failure.
pub const PROGRAM: Program = Program {
    name: "svndumpfilter",
    failed: 1,
};

/// Runs the whole program, and returns its exit status.
pub fn drive<'a, H: Threads + Wait + Sync, R: Read, W: Write, E: Write>(
    rt: &H,
    alloc: Global,
    words: &'a [&'a str],
    reader: &mut R,
    writer: &mut W,
    errors: &mut E,
) -> u8
    ensures { Drives (meaning_of (map (λ word. word.now) words.now)) (R.remaining reader.old) (W.contents writer.old) (W.contents writer.new) result }
{
    drive_sized(rt, alloc, words, 0, reader, writer, errors)
}

/// The same with a guess of the size of the input. A right guess avoids that the buffer grows; it has no other effect.
pub fn drive_sized<'a, H: Threads + Wait + Sync, R: Read, W: Write, E: Write>(
    rt: &H,
    alloc: Global,
    words: &'a [&'a str],
    size: u64,
    reader: &mut R,
    writer: &mut W,
    errors: &mut E,
) -> u8
    ensures { Drives (meaning_of (map (λ word. word.now) words.now)) (R.remaining reader.old) (W.contents writer.old) (W.contents writer.new) result }
{
    match options_of(alloc, words) {
        Ok(order) => carry_out(rt, alloc, &order, size, reader, writer, errors),
        Err(usage) => refuse(errors, PROGRAM, usage),
    }
}

/// Runs an order on the whole input.
fn carry_out<H: Threads + Wait + Sync, R: Read, W: Write, E: Write>(
    rt: &H,
    alloc: Global,
    order: &Order,
    size: u64,
    reader: &mut R,
    writer: &mut W,
    errors: &mut E,
) -> u8
    ensures { CarriesOut order.now.options (R.remaining reader.old) (W.contents writer.old) (W.contents writer.new) result }
{
    let input = match read_all(alloc, reader, size) {
        Ok(input) => input,
        Err(unread) => return fail_unread(errors, PROGRAM, unread),
    };
    let Ok(buffer) = output_buffer(alloc) else {
        return fail(errors, PROGRAM, Cause::Memory, 0);
    };
    let mut sink = OutMut::new(writer, buffer);
    let answer = run_and_flush(
        rt,
        alloc,
        input.as_slice(),
        &order.options,
        order.plan,
        &mut sink,
    );
    let _ = sink.into_inner();
    tell(errors, answer, order.quiet)
}

/// Runs the filter, and then writes the bytes that are still in the buffer.
fn run_and_flush<H: Threads + Wait + Sync, W: Write>(
    rt: &H,
    alloc: Global,
    dump: &[u8],
    options: &Options,
    plan: Plan,
    sink: &mut OutMut<'_, W>,
) -> Answer
    requires waiting { sink.old.waiting ≡ [] }
    requires start { sink.old.out.start ≡ sink.old.out.taken }
    ensures ran { Ran options.now dump.now sink.old.out.taken sink.new.out.taken result }
    ensures sink { SinkFailsOnly sink.old.out.failures sink.new.out.failures result }
    ensures loan { loan_of sink.new ≡ loan_of sink.old }
{
    let answer = run(rt, alloc, dump, options, plan, &FreeGate, sink);
    flush_behind(sink, answer)
}

/// Writes the bytes that are in the buffer after a run. If the sink failed in the run, nothing more is written.
fn flush_behind<W: Write>(sink: &mut OutMut<'_, W>, answer: Answer) -> Answer
    ensures taken { Keeps (lent_taken sink.old) (lent_taken sink.new) }
    ensures told { TellsBehind sink.new answer result }
    ensures sink { FailsOnlyBehind sink.old.out.failures sink.new.out.failures answer result }
    ensures loan { loan_of sink.new ≡ loan_of sink.old }
{
    match finish(sink, is_sink_down(answer)) {
        Ok(()) => answer,
        Err(written) => Answer::Failed {
            failure: Failure::Sink,
            written,
        },
    }
}

/// Whether the answer of a run is the failure of its sink.
fn is_sink_down(answer: Answer) -> bool
    ensures { result ≡ is_sink_failure answer }
{
    matches!(
        answer,
        Answer::Failed {
            failure: Failure::Sink,
            ..
        }
    )
}

/// Writes the line of an answer, and returns the status.
fn tell<E: Write>(errors: &mut E, answer: Answer, quiet: bool) -> u8
    ensures status { result ≡ status_of answer }
    ensures quiet { IsSilent answer quiet → Keeps (E.contents errors.old) (E.contents errors.new) }
{
    match answer {
        Answer::Clean(report) => {
            if !quiet {
                let _ = write_report(errors, report);
            }
            0
        }
        Answer::Fault {
            kind,
            number,
            place,
        } => {
            write_fault(errors, kind, number, place);
            1
        }
        Answer::Failed { failure, written } => fail(errors, PROGRAM, cause(failure), written),
    }
}

/// The name of a failure in its line.
fn cause(failure: Failure) -> Cause {
    match failure {
        Failure::Sink => Cause::Sink,
        Failure::Memory => Cause::Memory,
        Failure::Threads => Cause::Threads,
    }
}
