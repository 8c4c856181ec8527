//! The threads of a run, and the contract of each.
ghost use Rattle.std.specs.Prelude.{◌≡◌, ◌≤◌, length, map, All, IfSome, IfNone, OnSome, IsNone, vec_capacity};
ghost use Rattle.dump_lanes.specs.steps.PortViews.{job_port, worker_port};
ghost use Rattle.dump_pipeline.specs.steps.Parts.{HasCutFrom, HasSequencedFrom, HasWorked, HasWorkedFrom, IsFreshCutter, IsFreshSequencer, IsFreshWorker};

use crate::cut::{Cutting, cut};
use crate::gate::Gate;
use crate::message::{Checked, Job, NumberedPiece, Run};
use crate::sequence::{Sequenced, Sequencing, sequence};
use crate::stops::Words;
use crate::work::{CheckerPort, work};
use dump_lanes::StopSeat;
use dump_rules::Options;
use std::alloc::Global;
use std::snapshot::Snapshot;
use std::sync::Wait;
use std::thread::{Promise, PromisedHandle, Scope, Threads};

/// What the sequencer's thread returns.
pub type SequencerEnd<'a, D> = Sequenced<Job<'a, D>, Checked<'a, D>, NumberedPiece<'a>>;

/// The contract of the sequencer's thread.
#[derive(Drop)]
pub struct SequencerOf<'a, D: Run> {
    ends: Snapshot<Sequencing<'a, D>>,
}

impl<'a, D: Run> Promise<SequencerEnd<'a, D>> for SequencerOf<'a, D> {
    ghost kept_by = { λ p given. HasSequencedFrom D.settings D.dump p.ends.value given };
}

/// The sequencer's thread.
pub type SequencerThread<'a, D> = PromisedHandle<SequencerEnd<'a, D>, SequencerOf<'a, D>>;

/// Starts the sequencer's thread, unless this fails.
fn start_sequencer<'s, 'a: 's, E: 's, D: Run + Send + Sync + 's, R: Wait + Sync + 's>(
    scope: &'s Scope<'s, E>,
    rt: &'s R,
    alloc: Global,
    options: &'a Options,
    words: &'s Words,
    ends: Sequencing<'a, D>,
) -> Option<SequencerThread<'a, D>>
    requires options { options.now ≡ D.settings }
    requires fresh { IsFreshSequencer words.now ends }
    ensures { IfSome result (λ h. h.promise.ends.value ≡ ends.entry) }
{
    let promise = SequencerOf {
        ends: Snapshot::of(&ends),
    };
    scope
        .spawn_with(
            promise,
            move || -> SequencerEnd<D>
                requires options { options.now ≡ D.settings }
                requires fresh { IsFreshSequencer words.now ends }
                ensures { HasSequencedFrom D.settings D.dump ends.entry result }
            { sequence(rt, alloc, options, words, ends) },
        )
        .ok()
}

/// The contract of a worker's thread.
#[derive(Drop)]
pub struct WorkerOf<'a, D: Run> {
    port: Snapshot<CheckerPort<'a, D>>,
}

impl<'a, D: Run> Promise<CheckerPort<'a, D>> for WorkerOf<'a, D> {
    ghost kept_by = { λ p given. HasWorkedFrom p.port.value given };
}

/// A worker's thread.
pub type WorkerThread<'a, D> = PromisedHandle<CheckerPort<'a, D>, WorkerOf<'a, D>>;

/// Starts a worker's thread. If this fails, the cutter, which hasn't started yet, is closed, and the worker is run to
/// its end in this thread.
fn start_worker<'s, 'a: 's, E: 's, D: Run + Send + Sync + 's, G: Gate + 's, R: Wait + Sync + 's>(
    scope: &'s Scope<'s, E>,
    rt: &'s R,
    options: &'a Options,
    gate: &'s G,
    port: CheckerPort<'a, D>,
    cutter: &mut Option<Cutting<'a, D>>,
) -> Option<WorkerThread<'a, D>>
    requires options { options.now ≡ D.settings }
    requires fresh { IsFreshWorker port }
    requires cutter { IfSome cutter.old (λ ends. (job_port ends.port).marks ≡ 0) }
    ensures port { IfSome result (λ h. h.promise.port.value ≡ port.entry) }
    ensures same { OnSome result (cutter.new ≡ cutter.old) }
    ensures refused { IfNone result (IsNone cutter.new) }
{
    let promise = WorkerOf {
        port: Snapshot::of(&port),
    };
    match scope.spawn_with(
        promise,
        move || -> CheckerPort<D>
            requires options { options.now ≡ D.settings }
            requires fresh { IsFreshWorker port }
            ensures { HasWorkedFrom port.entry result }
        { work(rt, options, gate, port) },
    ) {
        Ok(thread) => Some(thread),
        Err(refused) => {
            if let Some(mut cutter) = cutter.take() {
                cutter.port.close(rt);
            }
            (refused.value)();
            None
        }
    }
}

/// The started workers, and the cutter's ends.
#[derive(Drop)]
struct Crew<'a, D: Run> {
    workers: Vec<WorkerThread<'a, D>>,
    cutter: Cutting<'a, D>,
}

/// Starts the workers' threads. If one can't be started, all end.
fn start_workers<'s, 'a: 's, E: 's, D: Run + Send + Sync + 's, G: Gate + 's, R: Wait + Sync + 's>(
    scope: &'s Scope<'s, E>,
    rt: &'s R,
    options: &'a Options,
    gate: &'s G,
    ports: Vec<CheckerPort<'a, D>>,
    room: Vec<WorkerThread<'a, D>>,
    cutter: Cutting<'a, D>,
) -> Option<Crew<'a, D>>
    requires options { options.now ≡ D.settings }
    requires fresh { All (λ p. IsFreshWorker p) ports.items }
    requires room { (length room.items ≡ 0) × (length ports.items ≤ vec_capacity room) }
    requires cutter { (job_port cutter.port).marks ≡ 0 }
    ensures cutter { IfSome result (λ crew. crew.cutter ≡ cutter.entry) }
    ensures pool { IfSome result (λ crew. map (λ h. (worker_port h.promise.port.value).pool) crew.workers.items ≡ map (λ p. (worker_port p).pool) ports.entry.items) }
    ensures index { IfSome result (λ crew. map (λ h. (worker_port h.promise.port.value).index) crew.workers.items ≡ map (λ p. (worker_port p).index) ports.entry.items) }
{
    let mut workers = room;
    let mut waiting = Some(cutter);
    for port in ports {
        if let Some(worker) = start_worker(scope, rt, options, gate, port, &mut waiting) {
            workers.push_reserved(worker);
        }
    }
    let cutter = waiting?;
    Some(Crew { workers, cutter })
}

/// The contract of the cutter's thread.
#[derive(Drop)]
pub struct CutterOf<'a, D: Run> {
    ends: Snapshot<Cutting<'a, D>>,
}

impl<'a, D: Run> Promise<Cutting<'a, D>> for CutterOf<'a, D> {
    ghost kept_by = { λ p given. HasCutFrom D.dump p.ends.value given };
}

/// The cutter's thread.
pub type CutterThread<'a, D> = PromisedHandle<Cutting<'a, D>, CutterOf<'a, D>>;

/// Starts the cutter's thread. If this fails, the cutter is told to cut nothing, and is run in this thread.
fn start_cutter<'s, 'a: 's, E: 's, D: Run + Send + Sync + 's, R: Wait + Sync + 's>(
    scope: &'s Scope<'s, E>,
    rt: &'s R,
    dump: &'a [u8],
    words: &'s Words,
    ends: Cutting<'a, D>,
    shuts: &mut StopSeat,
) -> Option<CutterThread<'a, D>>
    requires dump { dump.now ≡ D.dump }
    requires fresh { IsFreshCutter words.now ends }
    requires shuts { shuts.old.word ≡ words.now.shut }
    ensures ends { IfSome result (λ h. h.promise.ends.value ≡ ends.entry) }
    ensures shuts { OnSome result (shuts.new ≡ shuts.old) }
{
    let promise = CutterOf {
        ends: Snapshot::of(&ends),
    };
    match scope.spawn_with(
        promise,
        move || -> Cutting<D>
            requires dump { dump.now ≡ D.dump }
            requires fresh { IsFreshCutter words.now ends }
            ensures { HasCutFrom D.dump ends.entry result }
        { cut(rt, dump, words, ends) },
    ) {
        Ok(thread) => Some(thread),
        Err(refused) => {
            words.shut.raise(shuts);
            (refused.value)();
            None
        }
    }
}

/// The input of a run: the dump, the options, and the gate that each worker calls.
#[derive(Drop)]
pub struct Task<'s, 'a, G> {
    pub dump: &'a [u8],
    pub options: &'a Options,
    pub gate: &'s G,
}

/// What the threads except the writer get, with room for the workers' threads, and the seat that tells the cutter to
/// cut nothing.
#[derive(Drop)]
pub struct ThreadEnds<'a, D: Run> {
    pub sequencer: Sequencing<'a, D>,
    pub workers: Vec<CheckerPort<'a, D>>,
    pub cutter: Cutting<'a, D>,
    pub shuts: StopSeat,
    pub room: Vec<WorkerThread<'a, D>>,
}

/// The threads of a run, and the seat that would have told the cutter to cut nothing.
#[derive(Drop)]
pub struct Started<'a, D: Run> {
    pub sequencer: SequencerThread<'a, D>,
    pub workers: Vec<WorkerThread<'a, D>>,
    pub cutter: CutterThread<'a, D>,
    pub shuts: StopSeat,
}

/// Starts all threads except the writer. If one can't be started, all end. The order is that in which an item reaches
/// them after the cutter. So on one processor, threads that yield to each other pass an item on in this order.
pub fn start<'s, 'a: 's, E: 's, D: Run + Send + Sync + 's, G: Gate + 's, R: Wait + Sync + 's>(
    scope: &'s Scope<'s, E>,
    rt: &'s R,
    alloc: Global,
    task: Task<'s, 'a, G>,
    words: &'s Words,
    ends: ThreadEnds<'a, D>,
) -> Option<Started<'a, D>>
    requires dump { task.dump.now ≡ D.dump }
    requires options { task.options.now ≡ D.settings }
    requires sequencer { IsFreshSequencer words.now ends.sequencer }
    requires workers { All (λ p. IsFreshWorker p) ends.workers.items }
    requires room { (length ends.room.items ≡ 0) × (length ends.workers.items ≤ vec_capacity ends.room) }
    requires cutter { IsFreshCutter words.now ends.cutter }
    requires shuts { ends.shuts.word ≡ words.now.shut }
    ensures sequencer { IfSome result (λ started. started.sequencer.promise.ends.value ≡ ends.entry.sequencer) }
    ensures pool { IfSome result (λ started. map (λ h. (worker_port h.promise.port.value).pool) started.workers.items ≡ map (λ p. (worker_port p).pool) ends.entry.workers.items) }
    ensures index { IfSome result (λ started. map (λ h. (worker_port h.promise.port.value).index) started.workers.items ≡ map (λ p. (worker_port p).index) ends.entry.workers.items) }
    ensures cutter { IfSome result (λ started. started.cutter.promise.ends.value ≡ ends.entry.cutter) }
    ensures shuts { IfSome result (λ started. started.shuts ≡ ends.entry.shuts) }
{
    let ThreadEnds {
        sequencer,
        workers,
        cutter,
        mut shuts,
        room,
    } = ends;
    let Task {
        dump,
        options,
        gate,
    } = task;
    let Crew {
        workers,
        mut cutter,
    } = start_workers(scope, rt, options, gate, workers, room, cutter)?;
    let Some(sequencer) = start_sequencer(scope, rt, alloc, options, words, sequencer) else {
        cutter.port.close(rt);
        return None;
    };
    let cutter = start_cutter(scope, rt, dump, words, cutter, &mut shuts)?;
    Some(Started {
        sequencer,
        workers,
        cutter,
        shuts,
    })
}

/// Joins a worker.
fn join_worker<'a, D: Run, R: Threads>(rt: &R, worker: WorkerThread<'a, D>) -> CheckerPort<'a, D>
    ensures { HasWorkedFrom worker.entry.promise.port.value result }
{
    worker.join(rt)
}

/// Joins the workers.
pub fn join_workers<'a, D: Run, R: Threads>(
    rt: &R,
    workers: Vec<WorkerThread<'a, D>>,
    room: Vec<CheckerPort<'a, D>>,
) -> Vec<CheckerPort<'a, D>>
    requires { (length room.items ≡ 0) × (length workers.items ≤ vec_capacity room) }
    ensures pool { map (λ p. (worker_port p).pool) result.items ≡ map (λ h. (worker_port h.promise.port.value).pool) workers.entry.items }
    ensures index { map (λ p. (worker_port p).index) result.items ≡ map (λ h. (worker_port h.promise.port.value).index) workers.entry.items }
    ensures worked { All (λ p. HasWorked (worker_port p)) result.items }
{
    let mut ports = room;
    for worker in workers {
        ports.push_reserved(join_worker(rt, worker));
    }
    ports
}
