//! A run with threads: a cutter, workers, a sequencer, and the caller as writer.
//!
//! 1. The cutter draws a credit for each item, and puts its job. A worker checks it. The sequencer filters the items
//!    in the dump's order, and the writer passes their pieces to the sink and gives each credit back.
//! 2. There are as many slots as credits. So the sequencer finds the slot of each arriving item free, and in the slot
//!    of the next number it finds that item or none.
//! 3. A fault, a failure or a broken sink raises the stop. The cutter then cuts no more, and the items under way are
//!    finished.
//! 4. When all threads have ended, the answer is made from what they returned.
ghost use Rattle.std.specs.Prelude.{◌≡◌};
ghost use Rattle.dump_pipeline.specs.RunAnswer.{RunLeaves, SinkFailsOnly, ThreadsFailFirst};
ghost use Rattle.dump_pipeline.specs.steps.Parts.{HasRun};

use crate::answer::{Answer, Failure};
use crate::gate::Gate;
use crate::join::{conclude, join_threads};
use crate::make::{Ends, Given, make};
use crate::message::Run;
use crate::plan::Plan;
use crate::stops::Words;
use crate::threads::{Task, start};
use crate::write::write;
use dump_rules::Options;
use dump_writer::Sink;
use std::alloc::Global;
use std::marker::Brand;
use std::sync::Wait;
use std::thread;
use std::thread::{Scope, Threads};

/// The sink of a run, and its answer. A contract says nothing of a reference that the closure of a scope borrows. So
/// the sink is moved in and returned.
#[derive(Drop)]
struct Held<'b, S: Sink> {
    sink: &'b mut S,
    answer: Answer,
}

/// The answer if a thread couldn't be started.
const REFUSED: Answer = Answer::Failed {
    failure: Failure::Threads,
    written: 0,
};

/// Runs all threads to their end.
fn run_in<
    's,
    'a: 's,
    'b,
    E: 's,
    D: Run + Send + Sync + 's,
    S: Sink,
    G: Gate + 's,
    R: Threads + Wait + Sync + 's,
>(
    scope: &'s Scope<'s, E>,
    rt: &'s R,
    alloc: Global,
    task: Task<'s, 'a, G>,
    words: &'s Words,
    ends: Ends<'a, D>,
    held: Held<'b, S>,
) -> Held<'b, S>
    requires dump { task.dump.now ≡ D.dump }
    requires options { task.options.now ≡ D.settings }
    requires words { (ends.threads.cutter.seat.word ≡ words.now.stop) × (ends.threads.cutter.shut.word ≡ words.now.shut) }
    ensures same { result.sink.ghost_name ≡ held.entry.sink.ghost_name }
    ensures through { S.through result.sink.now ≡ S.through held.entry.sink.now }
    ensures ran { HasRun D.settings D.dump S.taken S.failure_count held.entry.sink.now result.sink.now result.answer }
{
    let Held { sink, answer: _ } = held;
    let Ends {
        threads,
        writer,
        ended,
        ..
    } = ends;
    let Some(started) = start(scope, rt, alloc, task, words, threads) else {
        let answer = REFUSED;
        return Held { sink, answer };
    };
    let written = write(rt, writer, &words.stop, sink);
    let joined = join_threads(rt, started, ended, written);
    let answer = conclude(words, joined);
    Held { sink, answer }
}

/// Runs the threads in a scope.
fn run_scoped<'s, 'a, 'b, D: Run + Send + Sync, S: Sink, G: Gate, R: Threads + Wait + Sync>(
    rt: &R,
    alloc: Global,
    task: Task<'s, 'a, G>,
    words: &Words,
    ends: Ends<'a, D>,
    held: Held<'b, S>,
) -> Held<'b, S>
    requires dump { task.dump.now ≡ D.dump }
    requires options { task.options.now ≡ D.settings }
    requires words { (ends.threads.cutter.seat.word ≡ words.now.stop) × (ends.threads.cutter.shut.word ≡ words.now.shut) }
    ensures same { result.sink.ghost_name ≡ held.entry.sink.ghost_name }
    ensures through { S.through result.sink.now ≡ S.through held.entry.sink.now }
    ensures ran { HasRun D.settings D.dump S.taken S.failure_count held.entry.sink.now result.sink.now result.answer }
{
    thread::scope(
        thread::scope_env(),
        rt,
        move |scope| -> Held<S>
            requires dump { task.dump.now ≡ D.dump }
            requires options { task.options.now ≡ D.settings }
            requires words { (ends.threads.cutter.seat.word ≡ words.now.stop) × (ends.threads.cutter.shut.word ≡ words.now.shut) }
            ensures same { result.sink.ghost_name ≡ held.entry.sink.ghost_name }
            ensures through { S.through result.sink.now ≡ S.through held.entry.sink.now }
            ensures ran { HasRun D.settings D.dump S.taken S.failure_count held.entry.sink.now result.sink.now result.answer }
        { run_in(scope, rt, alloc, task, words, ends, held) },
    )
}

/// Runs a task with a plan: makes all that it needs, and runs its threads.
fn run_of<'a, D: Run + Send + Sync, S: Sink, G: Gate, R: Threads + Wait + Sync>(
    rt: &R,
    alloc: Global,
    task: Task<'_, 'a, G>,
    plan: Plan,
    sink: &mut S,
) -> Answer
    requires dump { task.dump.now ≡ D.dump }
    requires options { task.options.now ≡ D.settings }
    ensures through { S.through sink.new ≡ S.through sink.old }
    ensures ran { HasRun D.settings D.dump S.taken S.failure_count sink.old sink.new result }
{
    let Ok(given) = make::<D, R>(rt, alloc, plan) else {
        return Answer::Failed {
            failure: Failure::Memory,
            written: 0,
        };
    };
    let Given { words, ends } = given;
    let held = Held {
        sink,
        answer: REFUSED,
    };
    let held = run_scoped(rt, alloc, task, &words, ends, held);
    held.answer
}

/// Filters a dump into a sink, with threads: a cutter, the plan's workers, a sequencer, and the caller as writer.
///
/// Each worker calls the gate with a record's number before it checks the record. The queues are made first, and then
/// the threads are started. When `run` returns, all threads have ended. No contract says that it returns.
pub fn run<'a, S: Sink, G: Gate, R: Threads + Wait + Sync>(
    rt: &R,
    alloc: Global,
    dump: &'a [u8],
    options: &'a Options,
    plan: Plan,
    gate: &G,
    sink: &mut S,
) -> Answer
    ensures answer { RunLeaves options.now dump.now (S.taken sink.old) (S.taken sink.new) result }
    ensures through { S.through sink.new ≡ S.through sink.old }
    ensures sink { SinkFailsOnly (S.failure_count sink.old) (S.failure_count sink.new) result }
    ensures threads { ThreadsFailFirst result }
{
    let task = Task {
        dump,
        options,
        gate,
    };
    run_of::<Brand, S, G, R>(rt, alloc, task, plan, sink)
}
