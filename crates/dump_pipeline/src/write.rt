//! The writer.
ghost use Rattle.std.specs.Prelude.{◌≡◌, [], ◌++◌, ℕ, List, Option, length, false};
ghost use Rattle.dump_lanes.specs.steps.LaneEnds.{LaneEnd};
ghost use Rattle.dump_lanes.specs.steps.LaneViews.{receiving};
ghost use Rattle.dump_lanes.specs.steps.PortViews.{credit_port};
ghost use Rattle.dump_pipeline.specs.steps.Messages.{text_of};
ghost use Rattle.dump_pipeline.specs.steps.Parts.{HasReceived, CountsFailed};

use crate::message::{Checked, Job, NumberedPiece, Run};
use crate::plain::send;
use dump_lanes::{CreditPort, LaneOut, StopSeat, StopWord, Taken};
use dump_writer::{Piece, Sink};
use std::sync::Wait;

/// The writer's port.
pub type WriterPort<'a, D> = CreditPort<Job<'a, D>, Checked<'a, D>>;

/// The writer's ends: its port, the lane from the sequencer, and its seat at the stop word.
#[derive(Drop)]
pub struct WriterEnds<J: Drop, D: Drop, T: Drop> {
    pub port: CreditPort<J, D>,
    pub from: LaneOut<T>,
    pub seat: StopSeat,
}

/// The ends that the writer of a run gets.
pub type Writing<'a, D> = WriterEnds<Job<'a, D>, Checked<'a, D>, NumberedPiece<'a>>;

/// What the writer returns.
#[derive(Drop)]
pub struct Written<J: Drop, D: Drop, T: Drop> {
    pub port: CreditPort<J, D>,
    pub from: LaneOut<T>,
    pub seat: StopSeat,
    /// The sink failed.
    pub failed: bool,
    /// How many bytes it took; the count doesn't go above `u64::MAX`.
    pub count: u64,
}

/// Writes a piece, unless the sink has failed. If the sink fails now, this raises the stop.
fn write_one<S: Sink>(
    failed: bool,
    piece: Piece<'_>,
    count: u64,
    word: &StopWord,
    seat: &mut StopSeat,
    sink: &mut S,
) -> (bool, u64)
    requires this_word { seat.old.word ≡ word.now }
    requires raised { seat.old.raised ≡ failed }
    ensures seat { seat.new ≡ record seat.old { raised = result.0 } }
    ensures text { (text : List ℕ) (first : Option (List ℕ)) → HasReceived failed text first (S.taken sink.old) count
        → HasReceived result.0 (text ++ piece.entry) first (S.taken sink.new) result.1 }
    ensures failures { (first : ℕ) → CountsFailed failed first (S.failure_count sink.old)
        → CountsFailed result.0 first (S.failure_count sink.new) }
    ensures through { S.through sink.new ≡ S.through sink.old }
{
    if failed {
        return (true, count);
    }
    match send(sink, piece, count) {
        Ok(count) => (false, count),
        Err(count) => {
            word.raise(seat);
            (true, count)
        }
    }
}

/// Writes the pieces, up to the first that the sink doesn't take completely, and gives back each credit.
pub fn write<'a, D: Run, S: Sink, R: Wait>(
    rt: &R,
    ends: Writing<'a, D>,
    word: &StopWord,
    sink: &mut S,
) -> Written<Job<'a, D>, Checked<'a, D>, NumberedPiece<'a>>
    requires nothing_back { (credit_port ends.port).back ≡ 0 }
    requires nothing_taken { (receiving ends.from).taken ≡ [] }
    requires this_word { ends.seat.word ≡ word.now }
    requires unraised { ends.seat.raised ≡ false }
    ensures pool { (credit_port result.port).pool ≡ (credit_port ends.entry.port).pool }
    ensures window { (credit_port result.port).window ≡ (credit_port ends.entry.port).window }
    ensures back { (credit_port result.port).back ≡ length (receiving result.from).taken }
    ensures lane { (receiving result.from).lane ≡ (receiving ends.entry.from).lane }
    ensures told { (receiving result.from).told ≡ LaneEnd.Ended }
    ensures seat { result.seat ≡ record ends.entry.seat { raised = result.failed } }
    ensures text { HasReceived result.failed (text_of (receiving result.from).taken) (S.taken sink.old) (S.taken sink.new) result.count }
    ensures failures { CountsFailed result.failed (S.failure_count sink.old) (S.failure_count sink.new) }
    ensures through { S.through sink.new ≡ S.through sink.old }
{
    let WriterEnds {
        mut port,
        mut from,
        mut seat,
    } = ends;
    let mut failed = false;
    let mut count = 0u64;
    for _ in rt.forever() {
        match from.take(rt) {
            Taken::Item(next) => {
                let NumberedPiece { piece, credit, .. } = next;
                (failed, count) = write_one(failed, piece, count, word, &mut seat, sink);
                port.back(rt, credit);
            }
            Taken::Closed => {
                return Written {
                    port,
                    from,
                    seat,
                    failed,
                    count,
                };
            }
            Taken::Lost => {}
        }
    }
    unreachable!()
}
