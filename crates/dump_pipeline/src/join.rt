//! The end of a run: its threads are joined, and the answer is made from what they returned.
ghost use Rattle.std.specs.Prelude.{◌≡◌, ◌≢◌, ◌⊎◌, ◌+◌, ◌≤◌, ℕ, List, Option, length, map, true, false, All, vec_capacity};
ghost use Rattle.dump_lanes.specs.steps.LaneEnds.{LaneEnd};
ghost use Rattle.dump_lanes.specs.steps.LaneViews.{sending, sent, receiving};
ghost use Rattle.dump_lanes.specs.steps.PortSides.{AreWorkersOf};
ghost use Rattle.dump_lanes.specs.steps.PortViews.{job_port, worker_port, done_port, credit_port};
ghost use Rattle.dump_lanes.specs.steps.SlotViews.{slot_places};
ghost use Rattle.dump_writer.specs.SinkWords.{IsPrefixOf};
ghost use Rattle.dump_pipeline.specs.steps.JoinedNumbers.{AreFirstItems, sequenced_numbers, sequenced_of, written_numbers};
ghost use Rattle.dump_pipeline.specs.steps.Messages.{text_of};
ghost use Rattle.dump_pipeline.specs.steps.Parts.{HasCut, HasCutFrom, HasWorked, HasSequencedFrom, IsSequenced, HasReceived, CountsFailed, is_failure};
ghost use Rattle.dump_pipeline.specs.RunAnswer.{RunLeaves, SinkFailsOnly};

use crate::answer::{Answer, Failure};
use crate::cut::Cutting;
use crate::message::{Checked, Job, NumberedPiece, Run};
use crate::sequence::{Sequenced, SequencerPort};
use crate::stage::End;
use crate::stops::Words;
use crate::threads::{Started, join_workers};
use crate::work::CheckerPort;
use crate::write::{WriterPort, Written};
use dump_lanes::{LaneOut, Ports, Sent, StopSeat};
use std::snapshot::Snapshot;
use std::thread::Threads;

/// What the writer returns.
pub type WriterEnd<'a, D> = Written<Job<'a, D>, Checked<'a, D>, NumberedPiece<'a>>;

/// What the threads returned. The two ends of the lane of pieces are dropped, but the contracts still say what they
/// had.
#[derive(Drop)]
pub struct Joined<'a, D: Run> {
    pub cutter: Cutting<'a, D>,
    pub shuts: StopSeat,
    pub workers: Vec<CheckerPort<'a, D>>,
    pub sequencer: SequencerPort<'a, D>,
    pub sequences: StopSeat,
    pub end: Option<End>,
    pub stray: bool,
    pub put: Snapshot<Sent<NumberedPiece<'a>>>,
    pub writer: WriterPort<'a, D>,
    pub writes: StopSeat,
    pub failed: bool,
    pub count: u64,
    pub taken: Snapshot<LaneOut<NumberedPiece<'a>>>,
}

/// Joins the threads, puts the workers' ports in `room`, and settles the lane of pieces.
pub fn join_threads<'a, D: Run, R: Threads>(
    rt: &R,
    started: Started<'a, D>,
    room: Vec<CheckerPort<'a, D>>,
    written: WriterEnd<'a, D>,
) -> Joined<'a, D>
    requires room { (length room.items ≡ 0) × (length started.workers.items ≤ vec_capacity room) }
    requires lane { (receiving written.from).lane ≡ (sending started.sequencer.promise.ends.value.to).lane }
    requires told { (receiving written.from).told ≡ LaneEnd.Ended }
    ensures items { AreFirstItems (sequenced_numbers result) }
    ensures pieces { AreFirstItems (written_numbers result) }
    ensures after { IsPrefixOf (written_numbers result) (sequenced_numbers result) }
    ensures all { (receiving result.taken.value).taken ≡ (sent result.put.value).put }
    ensures cutter { HasCutFrom D.dump started.entry.cutter.promise.ends.value result.cutter }
    ensures shuts { result.shuts ≡ started.entry.shuts }
    ensures worker_pools { map (λ p. (worker_port p).pool) result.workers.items ≡ map (λ h. (worker_port h.promise.port.value).pool) started.entry.workers.items }
    ensures worker_indices { map (λ p. (worker_port p).index) result.workers.items ≡ map (λ h. (worker_port h.promise.port.value).index) started.entry.workers.items }
    ensures worked { All (λ p. HasWorked (worker_port p)) result.workers.items }
    ensures sequencer { HasSequencedFrom D.settings D.dump started.entry.sequencer.promise.ends.value (sequenced_of result) }
    ensures writer { (result.writer ≡ written.entry.port)
        × (result.writes ≡ written.entry.seat)
        × (result.failed ≡ written.entry.failed)
        × (result.count ≡ written.entry.count)
        × (result.taken.value ≡ written.entry.from) }
{
    let Started {
        sequencer,
        workers,
        cutter,
        shuts,
    } = started;
    let cutter = cutter.join(rt);
    let workers = join_workers(rt, workers, room);
    let Sequenced {
        port: sequencer,
        sent,
        seat: sequences,
        end,
        stray,
    } = sequencer.join(rt);
    let Written {
        port: writer,
        from,
        seat: writes,
        failed,
        count,
    } = written;
    let (put, taken) = (Snapshot::of(&sent), Snapshot::of(&from));
    from.settle(sent);
    Joined {
        cutter,
        shuts,
        workers,
        sequencer,
        sequences,
        end,
        stray,
        put,
        writer,
        writes,
        failed,
        count,
        taken,
    }
}

/// The answer, after all threads have ended.
pub fn conclude<'a, D: Run>(words: &Words, joined: Joined<'a, D>) -> Answer
    requires workers { AreWorkersOf (job_port joined.cutter.port).pool (job_port joined.cutter.port).workers (map (λ p. worker_port p) joined.workers.items) }
    requires worked { All (λ p. HasWorked (worker_port p)) joined.workers.items }
    requires closed { (job_port joined.cutter.port).marks ≡ (job_port joined.cutter.port).workers }
    requires cut { joined.cutter.shut.seen ≡ false → HasCut D.dump (job_port joined.cutter.port) joined.cutter.seat.seen }
    requires sequencer { (done_port joined.sequencer).pool ≡ (job_port joined.cutter.port).pool }
    requires ended { (done_port joined.sequencer).ended ≡ true }
    requires sequenced { IsSequenced D.settings D.dump (credit_port joined.writer).window (sequenced_of joined) }
    requires writer { (credit_port joined.writer).pool ≡ (job_port joined.cutter.port).pool }
    requires back { (credit_port joined.writer).back ≡ length (receiving joined.taken.value).taken }
    requires all { (receiving joined.taken.value).taken ≡ (sent joined.put.value).put }
    requires stops { (joined.cutter.seat.word ≡ words.now.stop) × (joined.sequences.word ≡ words.now.stop) × (joined.writes.word ≡ words.now.stop) }
    requires shares { joined.cutter.seat.share + joined.sequences.share + joined.writes.share ≡ 4 }
    requires raised { (joined.cutter.seat.raised ≡ false) × (joined.sequences.raised ≡ is_failure joined.end) × (joined.writes.raised ≡ joined.failed) }
    requires shut { (joined.cutter.shut.word ≡ words.now.shut) × (joined.shuts.word ≡ words.now.shut) }
    requires shut_shares { joined.cutter.shut.share + joined.shuts.share ≡ 4 }
    requires unshut { (joined.cutter.shut.raised ≡ false) × (joined.shuts.raised ≡ false) }
    ensures answer { (first now : Option (List ℕ)) → HasReceived joined.entry.failed (text_of (receiving joined.entry.taken.value).taken) first now joined.entry.count
        → RunLeaves D.settings D.dump first now result }
    ensures failures { (first now : ℕ) → CountsFailed joined.entry.failed first now → SinkFailsOnly first now result }
    ensures no_threads { (written : ℕ) → result ≢ Answer.Failed Failure.Threads written }
    ensures none_astray { joined.entry.stray ≡ false }
    ensures stopped { joined.entry.cutter.seat.seen ≡ true → (is_failure joined.entry.end ≡ true) ⊎ (joined.entry.failed ≡ true) }
{
    let Joined {
        cutter,
        shuts,
        workers,
        sequencer,
        sequences,
        end,
        writer,
        writes,
        failed,
        count,
        ..
    } = joined;
    let both = words.stop.join(cutter.seat, sequences);
    let _all = words.stop.join(both, writes);
    let _shut = words.shut.join(cutter.shut, shuts);
    let ports = Ports {
        cutter: cutter.port,
        workers,
        sequencer,
        writer,
    };
    ports.settle();
    if failed {
        return Answer::Failed {
            failure: Failure::Sink,
            written: count,
        };
    }
    match end {
        Some(end) => end.answer(count),
        None => unreachable!(),
    }
}
