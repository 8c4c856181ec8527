//! A run on one thread.
ghost use Rattle.std.specs.Prelude.{◌≡◌, ◌≢◌, ℕ, IfOk, IfErr, OnOk, OnErr, IsTrue};
ghost use Rattle.dump_writer.specs.SinkWords.{HasFailedSince};
ghost use Rattle.dump_pipeline.specs.RunAnswer.{RunLeaves, SinkFailsOnly};
ghost use Rattle.dump_pipeline.specs.steps.Sending.{Sends, StopsShort, EndsRun};

use crate::answer::{Answer, Failure};
use crate::count::piece_len;
use dump_digest::Done;
use dump_filter::{Filter, StepFault};
use dump_records::{Cut, Cutter};
use dump_rules::Options;
use dump_writer::{Piece, Sink, write_piece};
use std::alloc::Global;

/// Writes a piece after this many bytes. Returns the new count of bytes; the error is the count too.
pub fn send<S: Sink>(sink: &mut S, piece: Piece<'_>, written: u64) -> Result<u64, u64>
    ensures sent { IfOk result (λ count. Sends (S.taken sink.old) (S.taken sink.new) piece.entry written count) }
    ensures cut { IfErr result (λ count. StopsShort (S.taken sink.old) (S.taken sink.new) piece.entry written count) }
    ensures no_failure { OnOk result (S.failure_count sink.new ≡ S.failure_count sink.old) }
    ensures failed { OnErr result (HasFailedSince (S.failure_count sink.old) (S.failure_count sink.new)) }
    ensures through { S.through sink.new ≡ S.through sink.old }
{
    match write_piece(sink, &piece) {
        Ok(()) => Ok(written.saturating_add(piece_len(&piece))),
        Err(fault) => Err(written.saturating_add(fault.written)),
    }
}

/// Writes the last piece of the filter, at the end of the dump.
fn write_end<S: Sink>(alloc: Global, filter: Filter<'_, '_>, sink: &mut S, written: u64) -> Answer
    requires { IsTrue filter.active }
    ensures answer { EndsRun filter.entry (S.taken sink.old) (S.taken sink.new) written result }
    ensures sink { SinkFailsOnly (S.failure_count sink.old) (S.failure_count sink.new) result }
    ensures through { S.through sink.new ≡ S.through sink.old }
{
    let Ok((piece, report)) = filter.finish(alloc) else {
        return Answer::Failed {
            failure: Failure::Memory,
            written,
        };
    };
    match send(sink, piece, written) {
        Ok(_) => Answer::Clean(report),
        Err(written) => Answer::Failed {
            failure: Failure::Sink,
            written,
        },
    }
}

/// Filters a dump into a sink, on one thread.
pub fn run_plain<'a, S: Sink>(
    alloc: Global,
    dump: &'a [u8],
    options: &'a Options,
    sink: &mut S,
) -> Answer
    ensures answer { RunLeaves options.now dump.now (S.taken sink.old) (S.taken sink.new) result }
    ensures through { S.through sink.new ≡ S.through sink.old }
    ensures sink { SinkFailsOnly (S.failure_count sink.old) (S.failure_count sink.new) result }
    ensures no_threads { (written : ℕ) → result ≢ Answer.Failed Failure.Threads written }
{
    let mut cutter = Cutter::new(dump);
    let mut filter = Filter::new(alloc, options);
    let mut written = 0u64;
    loop {
        let record = match cutter.next() {
            Cut::Item(record) => record,
            Cut::Finished => return write_end(alloc, filter, sink, written),
            Cut::Fault { kind, place } => {
                let number = filter.expected();
                return Answer::Fault {
                    kind,
                    number,
                    place,
                };
            }
        };
        let piece = match filter.step(alloc, Done::of(record, options)) {
            Ok(piece) => piece,
            Err(StepFault::Rule(kind)) => {
                return Answer::Fault {
                    kind,
                    number: record.number(),
                    place: record.place(),
                };
            }
            Err(StepFault::Memory) => {
                return Answer::Failed {
                    failure: Failure::Memory,
                    written,
                };
            }
            Err(StepFault::Closed) => unreachable!(),
        };
        match send(sink, piece, written) {
            Ok(count) => written = count,
            Err(written) => {
                return Answer::Failed {
                    failure: Failure::Sink,
                    written,
                };
            }
        }
    }
}
