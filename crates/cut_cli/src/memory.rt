//! Cuts that are kept in memory before they are written: those with deletes, and parts.
ghost use Rattle.std.specs.Prelude.{◌≡◌, ◌<◌, ◌^◌, ◌⊎◌, ◌||◌, List, ℕ, [], IfOk, is_some, length, true};
ghost use Rattle.std.specs.Io.KnownBytes.{Keeps};
ghost use Rattle.dump_writer.specs.steps.SinkStates.{loan_of};
ghost use Rattle.dump_pipeline.specs.declared.answer.Answer.TheVariants.{Clean};
ghost use Rattle.cut_cli.specs.Sent.{IsTrimmedIf, IsPartIf};
ghost use Rattle.cut_cli.specs.steps.Drive.{ArrivesOrBreaksOff, RanCut};
ghost use Rattle.cut_cli.specs.steps.Ended.{FailsFirst};

use crate::drive::{flush_after, write_ending, write_whole};
use dump_cut::{Deletes, later_part};
use dump_filter::Report;
use dump_pipeline::{Answer, Failure, FreeGate, Plan, run};
use dump_rules::Options;
use dump_writer::{Chunk, Memory, MemorySink, OutMut, Piece, Trouble, write_piece};
use std::alloc::Global;
use std::io::Write;
use std::sync::Wait;
use std::thread::Threads;

/// How many bytes the sink in memory takes in one call.
const MOST: usize = 1 << 20;

/// How many bytes of a cut are kept in memory at most. A length of more than 18 digits could not be read again.
const LONGEST: usize = 999_999_999_999_999_999;

/// Runs the filter into memory. Then writes the result with the deletes after its nodes, or the part of this after a
/// revision. If the filter found a fault, only the last line is written.
pub(crate) fn run_in_memory<H: Threads + Wait + Sync, W: Write>(
    rt: &H,
    alloc: Global,
    dump: &[u8],
    options: &Options,
    deletes: &Option<Deletes>,
    after: Option<u64>,
    plan: Plan,
    sink: &mut OutMut<'_, W>,
) -> Answer
    requires waiting { sink.old.waiting ≡ [] }
    requires start { sink.old.out.start ≡ sink.old.out.taken }
    requires asked { (is_some deletes.now || is_some after) ≡ true }
    ensures ran { RanCut options.now deletes.now after dump.now sink.old.out.taken sink.new.out.taken result
        ⊎ (Keeps sink.old.out.taken sink.new.out.taken × FailsFirst result) }
    ensures loan { loan_of sink.new ≡ loan_of sink.old }
{
    let mut filtered = MemorySink::new(alloc, MOST, Trouble::Never);
    let answer = run(rt, alloc, dump, options, plan, &FreeGate, &mut filtered);
    match answer {
        Answer::Clean(report) => send_cut(alloc, report, filtered.taken(), deletes, after, sink),
        Answer::Fault { .. } => {
            let ending = write_ending(alloc, answer, sink);
            flush_after(sink, answer, ending)
        }
        Answer::Failed { failure, .. } => failed_first(failure),
    }
}

/// The answer of a failure before anything is written. Writing to memory fails if an allocation fails.
fn failed_first(failure: Failure) -> Answer
    ensures { FailsFirst result }
{
    let failure = match failure {
        Failure::Sink | Failure::Memory => Failure::Memory,
        Failure::Threads => Failure::Threads,
    };
    Answer::Failed {
        failure,
        written: 0,
    }
}

/// Writes what the filter wrote for a dump without a fault, with the deletes, or the part of this after a revision.
fn send_cut<W: Write>(
    alloc: Global,
    report: Report,
    filtered: &[u8],
    deletes: &Option<Deletes>,
    after: Option<u64>,
    sink: &mut OutMut<'_, W>,
) -> Answer
    requires waiting { sink.old.waiting ≡ [] }
    requires start { sink.old.out.start ≡ sink.old.out.taken }
    ensures sent { ((cut sent : List ℕ) × (length filtered.now < 10 ^ 18) × IsTrimmedIf deletes.now filtered.now cut × IsPartIf after cut sent
        × ArrivesOrBreaksOff sent (Clean report) sink.old.out.taken sink.new.out.taken result)
        ⊎ (Keeps sink.old.out.taken sink.new.out.taken × FailsFirst result) }
    ensures loan { loan_of sink.new ≡ loan_of sink.old }
{
    if filtered.len() > LONGEST {
        return failed_first(Failure::Memory);
    }
    let Some(deletes) = deletes else {
        return send_part(alloc, report, filtered, after, sink);
    };
    let Ok(piece) = deletes.write_behind(alloc, filtered) else {
        return failed_first(Failure::Memory);
    };
    if after.is_none() {
        return send_piece(report, &piece, sink);
    }
    let mut cut = MemorySink::new(alloc, MOST, Trouble::Never);
    if write_piece(&mut cut, &piece).is_err() {
        return failed_first(Failure::Memory);
    }
    send_part(alloc, report, cut.taken(), after, sink)
}

/// Writes a cut, or its part after a revision.
fn send_part<W: Write>(
    alloc: Global,
    report: Report,
    cut: &[u8],
    after: Option<u64>,
    sink: &mut OutMut<'_, W>,
) -> Answer
    requires waiting { sink.old.waiting ≡ [] }
    requires start { sink.old.out.start ≡ sink.old.out.taken }
    ensures sent { ((sent : List ℕ) × IsPartIf after cut.now sent
        × ArrivesOrBreaksOff sent (Clean report) sink.old.out.taken sink.new.out.taken result)
        ⊎ (Keeps sink.old.out.taken sink.new.out.taken × FailsFirst result) }
    ensures loan { loan_of sink.new ≡ loan_of sink.old }
{
    match part_piece(alloc, cut, after) {
        Ok(piece) => send_piece(report, &piece, sink),
        Err(Memory) => failed_first(Failure::Memory),
    }
}

/// A cut, or its part after a revision.
fn part_piece<'t>(alloc: Global, cut: &'t [u8], after: Option<u64>) -> Result<Piece<'t>, Memory>
    ensures { IfOk result (IsPartIf after cut.now) }
{
    let mut piece = Piece::new(alloc);
    match after {
        None => piece.push(Chunk::Lent(cut))?,
        Some(number) => {
            let part = later_part(cut, number);
            piece.push(Chunk::Lent(part.head))?;
            piece.push(Chunk::Lent(part.revisions))?;
        }
    }
    Ok(piece)
}

/// Writes a piece after the filter has read the whole dump.
fn send_piece<W: Write>(report: Report, piece: &Piece<'_>, sink: &mut OutMut<'_, W>) -> Answer
    requires waiting { sink.old.waiting ≡ [] }
    requires start { sink.old.out.start ≡ sink.old.out.taken }
    ensures sent { ArrivesOrBreaksOff piece.now (Clean report) sink.old.out.taken sink.new.out.taken result }
    ensures loan { loan_of sink.new ≡ loan_of sink.old }
{
    let ending = write_whole(sink, piece);
    flush_after(sink, Answer::Clean(report), ending)
}
