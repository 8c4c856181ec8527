//! Makes all that a run needs, before it starts any thread.
ghost use Rattle.std.specs.Prelude.{◌≡◌, ◌≤◌, ◌+◌, IfOk, [], length, map, replicate, false, None, vec_capacity};
ghost use Rattle.std.specs.List.{range_with_len};
ghost use Rattle.dump_lanes.specs.steps.LaneViews.{places, sending, receiving};
ghost use Rattle.dump_lanes.specs.steps.PortSides.{new_cutter, new_worker, new_sequencer, new_writer};
ghost use Rattle.dump_lanes.specs.steps.PortViews.{pool_state, job_port, worker_port, worker_ports, done_port, credit_port};
ghost use Rattle.dump_lanes.specs.steps.SlotViews.{slot_places};
ghost use Rattle.dump_lanes.specs.steps.StopSeats.{first_seat, half_seat};
ghost use Rattle.dump_pipeline.specs.PlanViews.{worker_count, window_size};

use crate::cut::CutterEnds;
use crate::message::{Checked, Job, NumberedPiece, Run};
use crate::plan::Plan;
use crate::sequence::SequencerEnds;
use crate::stops::Words;
use crate::threads::{ThreadEnds, WorkerThread};
use crate::work::CheckerPort;
use crate::write::{WriterEnds, Writing};
use dump_lanes::{LaneIn, LaneOut, Memory, Pool, Ports, Slots, StopSeat, StopWord, lane};
use std::alloc::Global;
use std::sync::Wait;

/// The ends that the threads and the writer get, with room for what the workers return.
#[derive(Drop)]
pub struct Ends<'a, D: Run> {
    pub pool: Pool<Job<'a, D>, Checked<'a, D>>,
    pub threads: ThreadEnds<'a, D>,
    pub writer: Writing<'a, D>,
    pub ended: Vec<CheckerPort<'a, D>>,
    pub ghost cutting: { job_port threads.cutter.port ≡ new_cutter (pool_state pool) },
    pub ghost working: { map (λ p. worker_port p) threads.workers.items ≡ map (new_worker (pool_state pool)) (range_with_len 0 (pool_state pool).workers) },
    pub ghost sequencing: { done_port threads.sequencer.port ≡ new_sequencer (pool_state pool) },
    pub ghost writing: { credit_port writer.port ≡ new_writer (pool_state pool) },
    pub ghost places: { slot_places threads.sequencer.slots ≡ replicate (pool_state pool).window None },
    pub ghost lane: { (receiving writer.from).lane ≡ (sending threads.sequencer.to).lane },
    pub ghost nothing_put: { (sending threads.sequencer.to).put ≡ [] },
    pub ghost nothing_taken: { (receiving writer.from).taken ≡ [] },
    pub ghost room_for_threads: { (length threads.room.items ≡ 0) × ((pool_state pool).workers ≤ vec_capacity threads.room) },
    pub ghost room_at_end: { (length ended.items ≡ 0) × ((pool_state pool).workers ≤ vec_capacity ended) },
    pub ghost of_cutter: { (threads.cutter.seat.raised ≡ false) × (threads.cutter.seat.share ≡ 2) },
    pub ghost of_sequencer: { (threads.sequencer.seat.word ≡ threads.cutter.seat.word) × (threads.sequencer.seat.raised ≡ false) × (threads.sequencer.seat.share ≡ 1) },
    pub ghost of_writer: { (writer.seat.word ≡ threads.cutter.seat.word) × (writer.seat.raised ≡ false) × (writer.seat.share ≡ 1) },
    pub ghost of_shut: { (threads.cutter.shut.raised ≡ false) × (threads.cutter.shut.share ≡ 2) },
    pub ghost of_shuts: { (threads.shuts.word ≡ threads.cutter.shut.word) × (threads.shuts.raised ≡ false) × (threads.shuts.share ≡ 2) },
}

/// The words of a run, and the ends that its threads get.
#[derive(Drop)]
pub struct Given<'a, D: Run> {
    pub words: Words,
    pub ends: Ends<'a, D>,
    pub ghost this_stop: { ends.threads.cutter.seat.word ≡ words.stop },
    pub ghost this_shut: { ends.threads.cutter.shut.word ≡ words.shut },
}

/// The words of a run, and the seats of its threads.
#[derive(Drop)]
struct Seats {
    words: Words,
    cuts: StopSeat,
    sequences: StopSeat,
    writes: StopSeat,
    shut: StopSeat,
    shuts: StopSeat,
}

/// Makes both words. Of the stop word, the cutter's seat has half, and the sequencer's and the writer's a quarter
/// each.
fn make_seats(alloc: Global) -> Result<Seats, Memory>
    ensures cuts { IfOk result (λ seats. seats.cuts ≡ half_seat (first_seat seats.words.stop)) }
    ensures sequences { IfOk result (λ seats. seats.sequences ≡ half_seat (half_seat (first_seat seats.words.stop))) }
    ensures writes { IfOk result (λ seats. seats.writes ≡ half_seat (half_seat (first_seat seats.words.stop))) }
    ensures shut { IfOk result (λ seats. seats.shut ≡ half_seat (first_seat seats.words.shut)) }
    ensures shuts { IfOk result (λ seats. seats.shuts ≡ half_seat (first_seat seats.words.shut)) }
{
    let (stop, seat) = StopWord::new(alloc)?;
    let (shut_word, shut_seat) = StopWord::new(alloc)?;
    let (cuts, other) = stop.split(seat);
    let (sequences, writes) = stop.split(other);
    let (shut, shuts) = shut_word.split(shut_seat);
    let words = Words {
        stop,
        shut: shut_word,
    };
    Ok(Seats {
        words,
        cuts,
        sequences,
        writes,
        shut,
        shuts,
    })
}

/// Room for the workers' threads, and for the ports that they return.
#[derive(Drop)]
struct Room<'a, D: Run> {
    threads: Vec<WorkerThread<'a, D>>,
    ports: Vec<CheckerPort<'a, D>>,
}

/// Makes room for this many workers.
fn make_room<'a, D: Run>(alloc: Global, workers: usize) -> Result<Room<'a, D>, Memory>
    ensures threads { IfOk result (λ room. (length room.threads.items ≡ 0) × (workers ≤ vec_capacity room.threads)) }
    ensures ports { IfOk result (λ room. (length room.ports.items ≡ 0) × (workers ≤ vec_capacity room.ports)) }
{
    let threads = Vec::with_capacity(alloc, workers)?;
    let ports = Vec::with_capacity(alloc, workers)?;
    Ok(Room { threads, ports })
}

/// The pool with its ports, the row of slots, and the lane to the writer.
#[derive(Drop)]
struct Queues<'a, D: Run> {
    pool: Pool<Job<'a, D>, Checked<'a, D>>,
    ports: Ports<Job<'a, D>, Checked<'a, D>>,
    slots: Slots<Checked<'a, D>>,
    to: LaneIn<NumberedPiece<'a>>,
    from: LaneOut<NumberedPiece<'a>>,
}

/// Makes the queues of a plan.
fn make_queues<'a, D: Run, R: Wait>(
    rt: &R,
    alloc: Global,
    plan: Plan,
) -> Result<Queues<'a, D>, Memory>
    ensures workers { IfOk result (λ queues. (pool_state queues.pool).workers ≡ worker_count plan) }
    ensures window { IfOk result (λ queues. (pool_state queues.pool).window ≡ window_size plan) }
    ensures cutter { IfOk result (λ queues. job_port queues.ports.cutter ≡ new_cutter (pool_state queues.pool)) }
    ensures working { IfOk result (λ queues. worker_ports queues.ports ≡ map (new_worker (pool_state queues.pool)) (range_with_len 0 (pool_state queues.pool).workers)) }
    ensures sequencer { IfOk result (λ queues. done_port queues.ports.sequencer ≡ new_sequencer (pool_state queues.pool)) }
    ensures writer { IfOk result (λ queues. credit_port queues.ports.writer ≡ new_writer (pool_state queues.pool)) }
    ensures slots { IfOk result (λ queues. slot_places queues.slots ≡ replicate (pool_state queues.pool).window None) }
    ensures room { IfOk result (λ queues. places queues.to ≡ window_size plan + 1) }
    ensures lane { IfOk result (λ queues. (receiving queues.from).lane ≡ (sending queues.to).lane) }
    ensures nothing_put { IfOk result (λ queues. (sending queues.to).put ≡ []) }
    ensures nothing_taken { IfOk result (λ queues. (receiving queues.from).taken ≡ []) }
{
    let (workers, window) = (plan.workers(), plan.window());
    let (to, from) = lane::<NumberedPiece<'a>>(alloc, window)?;
    let slots = Slots::new(alloc, window)?;
    let mut pool = Pool::<Job<'a, D>, Checked<'a, D>>::new(rt, alloc, workers, window)?;
    let ports = pool.ports(alloc)?;
    Ok(Queues {
        pool,
        ports,
        slots,
        to,
        from,
    })
}

/// Gives each thread its ends.
fn share_out<'a, D: Run>(seats: Seats, room: Room<'a, D>, queues: Queues<'a, D>) -> Given<'a, D>
    requires cuts { seats.cuts ≡ half_seat (first_seat seats.words.stop) }
    requires sequences { seats.sequences ≡ half_seat (half_seat (first_seat seats.words.stop)) }
    requires writes { seats.writes ≡ half_seat (half_seat (first_seat seats.words.stop)) }
    requires shut { seats.shut ≡ half_seat (first_seat seats.words.shut) }
    requires shuts { seats.shuts ≡ half_seat (first_seat seats.words.shut) }
    requires threads { (length room.threads.items ≡ 0) × ((pool_state queues.pool).workers ≤ vec_capacity room.threads) }
    requires ports { (length room.ports.items ≡ 0) × ((pool_state queues.pool).workers ≤ vec_capacity room.ports) }
    requires cutter { job_port queues.ports.cutter ≡ new_cutter (pool_state queues.pool) }
    requires working { worker_ports queues.ports ≡ map (new_worker (pool_state queues.pool)) (range_with_len 0 (pool_state queues.pool).workers) }
    requires sequencer { done_port queues.ports.sequencer ≡ new_sequencer (pool_state queues.pool) }
    requires writer { credit_port queues.ports.writer ≡ new_writer (pool_state queues.pool) }
    requires slots { slot_places queues.slots ≡ replicate (pool_state queues.pool).window None }
    requires lane { (receiving queues.from).lane ≡ (sending queues.to).lane }
    requires nothing_put { (sending queues.to).put ≡ [] }
    requires nothing_taken { (receiving queues.from).taken ≡ [] }
    ensures pool { result.ends.pool ≡ queues.entry.pool }
    ensures to { result.ends.threads.sequencer.to ≡ queues.entry.to }
{
    let Ports {
        cutter,
        workers,
        sequencer,
        writer,
    } = queues.ports;
    let threads = ThreadEnds {
        sequencer: SequencerEnds {
            port: sequencer,
            slots: queues.slots,
            to: queues.to,
            seat: seats.sequences,
        },
        workers,
        cutter: CutterEnds {
            port: cutter,
            seat: seats.cuts,
            shut: seats.shut,
        },
        shuts: seats.shuts,
        room: room.threads,
    };
    let writer = WriterEnds {
        port: writer,
        from: queues.from,
        seat: seats.writes,
    };
    let ends = Ends {
        pool: queues.pool,
        threads,
        writer,
        ended: room.ports,
    };
    Given {
        words: seats.words,
        ends,
    }
}

/// Makes the queues, the slots and the words, and allocates what the run itself needs.
pub fn make<'a, D: Run, R: Wait>(rt: &R, alloc: Global, plan: Plan) -> Result<Given<'a, D>, Memory>
    ensures workers { IfOk result (λ given. (pool_state given.ends.pool).workers ≡ worker_count plan) }
    ensures window { IfOk result (λ given. (pool_state given.ends.pool).window ≡ window_size plan) }
    ensures room { IfOk result (λ given. places given.ends.threads.sequencer.to ≡ window_size plan + 1) }
{
    let seats = make_seats(alloc)?;
    let room = make_room(alloc, plan.workers())?;
    let queues = make_queues(rt, alloc, plan)?;
    Ok(share_out(seats, room, queues))
}
