//! The sequencer.
ghost use Rattle.std.specs.Prelude.{◌≡◌, ◌+◌, ◌++◌, ◌∷◌, [], ℕ, List, Option, length, replicate, true, false, None, Some, Ok, Err, IfOk, IfErr};
ghost use Rattle.dump_records.specs.steps.CutRecords.{EndsAfter};
ghost use Rattle.dump_records.specs.steps.RecordViews.{record_dump, record_number};
ghost use Rattle.dump_digest.specs.steps.DoneViews.{done_record, done_settings};
ghost use Rattle.dump_lanes.specs.steps.LaneViews.{sending, sent};
ghost use Rattle.dump_lanes.specs.steps.ArrivalRows.{Row};
ghost use Rattle.dump_lanes.specs.steps.PortViews.{done_port};
ghost use Rattle.dump_lanes.specs.steps.SlotViews.{slot_places};
ghost use Rattle.dump_pipeline.specs.steps.Endings.{ending_of};
ghost use Rattle.dump_pipeline.specs.steps.Messages.{checked_number, checked_numbers, text_of};
ghost use Rattle.dump_pipeline.specs.declared.stage.Stage.{Stage as Stages};
ghost use Rattle.dump_pipeline.specs.steps.Parts.{HasFiltered, HasReleased, EndsAreSequenced, HasFound, HasSequencedFrom, HasTaken, IsEndOf, IsFreshSequencer, is_failure, stage_end};

use crate::message::{Checked, Job, Last, NumberedPiece, Run};
use crate::stage::{End, Stage};
use crate::stops::Words;
use dump_digest::Done;
use dump_filter::{Filter, StepFault};
use dump_lanes::{DonePort, LaneIn, Sent, Slots, StopSeat, StopWord};
use dump_rules::Options;
use dump_writer::Piece;
use std::alloc::Global;
use std::mem;
use std::snapshot::Snapshot;
use std::sync::Wait;

/// The sequencer's port.
pub type SequencerPort<'a, D> = DonePort<Job<'a, D>, Checked<'a, D>>;

/// The sequencer's ends: its port, the row of slots, the lane to the writer, and its seat at the stop word.
#[derive(Drop)]
pub struct SequencerEnds<J: Drop, D: Drop, T: Drop> {
    pub port: DonePort<J, D>,
    pub slots: Slots<D>,
    pub to: LaneIn<T>,
    pub seat: StopSeat,
}

/// The ends that the sequencer of a run gets.
pub type Sequencing<'a, D> = SequencerEnds<Job<'a, D>, Checked<'a, D>, NumberedPiece<'a>>;

/// What the sequencer returns.
#[derive(Drop)]
pub struct Sequenced<J: Drop, D: Drop, T: Drop> {
    pub port: DonePort<J, D>,
    pub sent: Sent<T>,
    pub seat: StopSeat,
    pub end: Option<End>,
    /// Whether an item found its slot taken, or a slot had another item than the next one.
    pub stray: bool,
}

/// Filters the next record: returns its piece, or how the sequencer ends.
fn filter_record<'o, 'a, D: Run>(
    alloc: Global,
    filter: &mut Filter<'o, 'a>,
    done: Done<'a>,
) -> Result<Piece<'a>, End>
    requires dump { record_dump (done_record done) ≡ D.dump }
    requires settings { done_settings done ≡ D.settings }
    requires going { (text : List ℕ) × HasFiltered D.settings D.dump filter.old (record_number (done_record done)) text }
    ensures piece { let number = record_number (done_record done.entry) in IfOk result (λ piece. (text : List ℕ)
        → HasFiltered D.settings D.dump filter.old number text
        → HasFiltered D.settings D.dump filter.new (number + 1) (text ++ piece)) }
    ensures end { let number = record_number (done_record done.entry) in IfErr result (λ end. (text : List ℕ)
        → HasFiltered D.settings D.dump filter.old number text → IsEndOf D.settings D.dump end text) }
{
    let record = done.item();
    match filter.step(alloc, done) {
        Ok(piece) => Ok(piece),
        Err(StepFault::Rule(kind)) => Err(End::Fault {
            kind,
            number: record.number(),
            place: record.place(),
        }),
        Err(StepFault::Memory) => Err(End::Memory),
        Err(StepFault::Closed) => unreachable!(),
    }
}

/// Filters the end of the records.
fn filter_end<'o, 'a, D: Run>(
    alloc: Global,
    filter: Filter<'o, 'a>,
    number: u64,
    last: Last,
) -> (End, Piece<'a>)
    requires ends { ∥ EndsAfter D.dump number (ending_of last) ∥₁ }
    requires going { (text : List ℕ) × HasFiltered D.settings D.dump filter number text }
    ensures text { (text : List ℕ) → HasFiltered D.settings D.dump filter.entry number text
        → HasReleased D.settings D.dump (Stages.Ended result.0) (number + 1) (text ++ result.1) }
{
    if let Some((kind, place)) = last {
        let fault = End::Fault {
            kind,
            number,
            place,
        };
        return (fault, Piece::new(alloc));
    }
    match filter.finish(alloc) {
        Ok((piece, report)) => (End::Clean(report), piece),
        Err(_) => (End::Memory, Piece::new(alloc)),
    }
}

/// The piece of the next record.
fn step_record<'o, 'a, D: Run>(
    alloc: Global,
    stage: &mut Stage<'o, 'a>,
    done: Done<'a>,
) -> Piece<'a>
    requires dump { record_dump (done_record done) ≡ D.dump }
    requires settings { done_settings done ≡ D.settings }
    requires released { (text : List ℕ) × HasReleased D.settings D.dump stage.old (record_number (done_record done)) text }
    ensures text { let number = record_number (done_record done.entry) in (text : List ℕ)
        → HasReleased D.settings D.dump stage.old number text
        → HasReleased D.settings D.dump stage.new (number + 1) (text ++ result) }
{
    let end = match stage {
        Stage::Ended(_) => return Piece::new(alloc),
        Stage::Going(filter) => match filter_record::<D>(alloc, filter, done) {
            Ok(piece) => return piece,
            Err(end) => end,
        },
    };
    *stage = Stage::Ended(end);
    Piece::new(alloc)
}

/// The piece that is written when the records end.
fn step_end<'o, 'a, D: Run>(
    alloc: Global,
    stage: &mut Stage<'o, 'a>,
    number: u64,
    last: Last,
) -> Piece<'a>
    requires ends { ∥ EndsAfter D.dump number (ending_of last) ∥₁ }
    requires released { (text : List ℕ) × HasReleased D.settings D.dump stage.old number text }
    ensures text { (text : List ℕ) → HasReleased D.settings D.dump stage.old number text
        → HasReleased D.settings D.dump stage.new (number + 1) (text ++ result) }
{
    let (end, piece) = match mem::replace(stage, Stage::Ended(End::Memory)) {
        Stage::Ended(end) => (end, Piece::new(alloc)),
        Stage::Going(filter) => filter_end::<D>(alloc, filter, number, last),
    };
    *stage = Stage::Ended(end);
    piece
}

/// Raises the stop if the sequencer ended with a fault or a failure of its own.
fn raise_at_failure(stage: &Stage<'_, '_>, word: &StopWord, seat: &mut StopSeat)
    requires this_word { seat.old.word ≡ word.now }
    requires unraised { seat.old.raised ≡ false }
    ensures { seat.new ≡ record seat.old { raised = is_failure (stage_end stage.now) } }
{
    match stage {
        Stage::Ended(End::Fault { .. } | End::Memory) => word.raise(seat),
        Stage::Going(_) | Stage::Ended(End::Clean(_)) => {}
    }
}

/// The piece of the next item; empty once the sequencer has ended.
fn step<'o, 'a, D: Run>(
    alloc: Global,
    stage: &mut Stage<'o, 'a>,
    checked: Checked<'a, D>,
    word: &StopWord,
    seat: &mut StopSeat,
) -> NumberedPiece<'a>
    requires released { (text : List ℕ) × HasReleased D.settings D.dump stage.old (checked_number checked) text }
    requires this_word { seat.old.word ≡ word.now }
    requires raised { seat.old.raised ≡ is_failure (stage_end stage.old) }
    ensures seat { seat.new ≡ record seat.old { raised = is_failure (stage_end stage.new) } }
    ensures number { result.number.value ≡ checked_number checked.entry }
    ensures text { (text : List ℕ) → HasReleased D.settings D.dump stage.old (checked_number checked.entry) text
        → HasReleased D.settings D.dump stage.new (checked_number checked.entry + 1) (text ++ result.piece) }
{
    let number = Snapshot::of(&checked.number());
    let Checked { what, credit, .. } = checked;
    if let Stage::Ended(_) = stage {
        let piece = Piece::new(alloc);
        return NumberedPiece {
            number,
            piece,
            credit,
        };
    }
    let piece = match what {
        Ok(done) => step_record::<D>(alloc, stage, done),
        Err(last) => step_end::<D>(alloc, stage, last.number, last.end),
    };
    raise_at_failure(stage, word, seat);
    NumberedPiece {
        number,
        piece,
        credit,
    }
}

/// Puts a piece. If the lane returns it, it is put again.
fn release<'a, R: Wait>(rt: &R, to: &mut LaneIn<NumberedPiece<'a>>, piece: NumberedPiece<'a>)
    ensures { sending to.new ≡ record (sending to.old) { put = (sending to.old).put ++ piece.entry ∷ [] } }
{
    let mut waiting = piece;
    for _ in rt.forever() {
        match to.put(rt, waiting) {
            Ok(()) => return,
            Err(back) => waiting = back,
        }
    }
    unreachable!()
}

/// Takes and drops the items that still come.
fn drain<'a, D: Run, R: Wait>(rt: &R, port: &mut SequencerPort<'a, D>)
    ensures pool { (done_port port.new).pool ≡ (done_port port.old).pool }
    ensures ended { (done_port port.new).ended ≡ true }
    ensures more { (more : List ℕ) × (checked_numbers (done_port port.new).taken ≡ checked_numbers (done_port port.old).taken ++ more) }
{
    for _ in rt.forever() {
        match port.take(rt) {
            Some(_) => {}
            None => return,
        }
    }
    unreachable!()
}

/// What the sequencer finds when it looks for the next item.
#[derive(Drop)]
enum Found<T: Drop> {
    Next(T),
    /// It found a later item, and put it in the row.
    Later,
    /// An item isn't where it should be.
    Stray,
    /// The workers have given all their items.
    NoMore,
}

/// Looks for the next item: first in the row, then among those that arrive. The next item isn't put in the row.
fn find_next<'a, D: Run, R: Wait>(
    rt: &R,
    ends: &mut Sequencing<'a, D>,
    next: u64,
) -> Found<Checked<'a, D>>
    ensures pool { (done_port ends.new.port).pool ≡ (done_port ends.old.port).pool }
    ensures lane { ends.new.to ≡ ends.old.to }
    ensures seat { ends.new.seat ≡ ends.old.seat }
    ensures found { (w : ℕ) → Row checked_number w next (checked_numbers (done_port ends.old.port).taken) (slot_places ends.old.slots)
        → HasFound w next (done_port ends.new.port) (slot_places ends.new.slots) result }
    ensures taken { HasTaken (done_port ends.old.port) (done_port ends.new.port) result }
{
    if let Some(checked) = ends.slots.lift(next) {
        return if checked.number() == next {
            Found::Next(checked)
        } else {
            Found::Stray
        };
    }
    let Some(checked) = ends.port.take(rt) else {
        return Found::NoMore;
    };
    let number = checked.number();
    if number == next {
        return Found::Next(checked);
    }
    match ends.slots.place(number, checked) {
        Ok(()) => Found::Later,
        Err(_) => Found::Stray,
    }
}

/// Releases the items in order, until no more come or an item isn't where it should be.
fn release_all<'a, D: Run, R: Wait>(
    rt: &R,
    alloc: Global,
    options: &'a Options,
    words: &Words,
    ends: &mut Sequencing<'a, D>,
) -> (Option<End>, bool)
    requires options { options.now ≡ D.settings }
    requires fresh { IsFreshSequencer words.now ends.old }
    ensures pool { (done_port ends.new.port).pool ≡ (done_port ends.old.port).pool }
    ensures lane { (sending ends.new.to).lane ≡ (sending ends.old.to).lane }
    ensures seat { ends.new.seat ≡ record ends.old.seat { raised = is_failure result.0 } }
    ensures sequenced { EndsAreSequenced D.settings D.dump ends.old ends.new result }
    ensures ended { result.1 ≡ false → (done_port ends.new.port).ended ≡ true }
{
    let mut next = 0u64;
    let mut stage = Stage::Going(Filter::new(alloc, options));
    for _ in rt.forever() {
        let checked = match find_next(rt, ends, next) {
            Found::Next(checked) => checked,
            Found::Later => continue,
            Found::Stray => return (stage.end(), true),
            Found::NoMore => return (stage.end(), false),
        };
        let piece = step::<D>(alloc, &mut stage, checked, &words.stop, &mut ends.seat);
        release(rt, &mut ends.to, piece);
        next += 1;
    }
    unreachable!()
}

/// Filters all items in order, and releases their pieces. If an item wasn't where it should be, it takes and drops the
/// items that still come.
pub fn sequence<'a, D: Run, R: Wait>(
    rt: &R,
    alloc: Global,
    options: &'a Options,
    words: &Words,
    mut ends: Sequencing<'a, D>,
) -> Sequenced<Job<'a, D>, Checked<'a, D>, NumberedPiece<'a>>
    requires options { options.now ≡ D.settings }
    requires fresh { IsFreshSequencer words.now ends }
    ensures { HasSequencedFrom D.settings D.dump ends.entry result }
{
    let (end, stray) = release_all(rt, alloc, options, words, &mut ends);
    if stray {
        drain(rt, &mut ends.port);
    }
    let SequencerEnds { port, to, seat, .. } = ends;
    Sequenced {
        port,
        sent: to.close(rt),
        seat,
        end,
        stray,
    }
}
