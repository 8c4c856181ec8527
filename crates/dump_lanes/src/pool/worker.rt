//! A worker's port.
ghost use Rattle.std.specs.Prelude.{◌≡◌, [], ◌∷◌, ◌++◌, true, false};
ghost use Rattle.std.specs.Arc.{arc_value};
ghost use Rattle.crossbeam_queue.specs.Passes.{view, IsPassOf};
ghost use Rattle.dump_lanes.specs.steps.QueueRule.{following};
ghost use Rattle.dump_lanes.specs.steps.PoolPasses.{IsWorking, IsGiving};

use super::dones::{Note, PutsNote};
use super::jobs::TakesJob;
use super::queues::Queues;
use super::waiting::{pop, push};
use crate::passes::View;
use crate::protocol::Mark;
use crossbeam_queue::Pass;
use std::sync::{Arc, Wait};

/// A worker's port: it takes jobs, and gives their results.
#[derive(Drop)]
pub struct WorkerPort<J: Drop, D: Drop> {
    pub(super) queues: Arc<Queues<J, D>>,
    pub(super) index: usize,
    pub(super) jobs: Pass<Mark<J>, View<Mark<J>>>,
    pub(super) ended: bool,
    pub(super) dones: Pass<Note<D>, View<Note<D>>>,
    pub(super) closed: bool,
    ghost of_jobs: { IsPassOf (arc_value queues).jobs jobs },
    ghost of_dones: { IsPassOf (arc_value queues).dones dones },
    ghost works: { IsWorking index ended (view jobs) },
    ghost gives: { IsGiving index closed (view dones) },
}

impl<J: Drop, D: Drop> WorkerPort<J, D> {
    ghost use Rattle.dump_lanes.specs.steps.PoolNames.{state_of};
    ghost use Rattle.dump_lanes.specs.steps.PortSides.{new_worker};
    ghost use Rattle.dump_lanes.specs.steps.PortViews.{worker_port, JobStep};

    /// The port of the worker with this index.
    pub(super) fn new(
        queues: Arc<Queues<J, D>>,
        index: usize,
        jobs: Pass<Mark<J>, View<Mark<J>>>,
        dones: Pass<Note<D>, View<Note<D>>>,
    ) -> WorkerPort<J, D>
        requires of_jobs { IsPassOf (arc_value queues).jobs jobs }
        requires of_dones { IsPassOf (arc_value queues).dones dones }
        requires jobs { view jobs ≡ following index }
        requires dones { view dones ≡ following index }
        ensures { worker_port result ≡ new_worker (state_of (arc_value queues)) index }
    {
        WorkerPort {
            queues,
            index,
            jobs,
            ended: false,
            dones,
            closed: false,
        }
    }

    /// Takes the job at the front; waits while there is none. `None` if the cutter has closed its port; each later
    /// call then returns the same.
    pub fn take<R: Wait>(&mut self, rt: &R) -> Option<J>
        ensures { JobStep (worker_port self.old) result (worker_port self.new) }
    {
        if self.ended {
            return None;
        }
        match pop::<TakesJob, _, _, _, R>(
            rt,
            &self.queues.jobs,
            &self.queues.job_bells,
            &mut self.jobs,
        ) {
            Mark::Item(job) => Some(job),
            Mark::End => {
                self.ended = true;
                None
            }
        }
    }

    /// Puts an item at the back of the dones; waits while there is no place for it.
    pub fn give<R: Wait>(&mut self, rt: &R, done: D)
        requires { (worker_port self.old).closed ≡ false }
        ensures { worker_port self.new ≡ record (worker_port self.old) { given = (worker_port self.old).given ++ done ∷ [] } }
    {
        let note = Note {
            from: self.index,
            mark: Mark::Item(done),
        };
        push::<PutsNote, _, _, _, R>(
            rt,
            &self.queues.dones,
            &self.queues.done_bells,
            &mut self.dones,
            note,
        );
    }

    /// Puts this worker's end mark after all that it gave; waits while there is no place for it.
    pub fn close<R: Wait>(&mut self, rt: &R)
        requires ended { (worker_port self.old).ended ≡ true }
        requires once { (worker_port self.old).closed ≡ false }
        ensures { worker_port self.new ≡ record (worker_port self.old) { closed = true } }
    {
        let note = Note {
            from: self.index,
            mark: Mark::End,
        };
        push::<PutsNote, _, _, _, R>(
            rt,
            &self.queues.dones,
            &self.queues.done_bells,
            &mut self.dones,
            note,
        );
        self.closed = true;
    }
}
