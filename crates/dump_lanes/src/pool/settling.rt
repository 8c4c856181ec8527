//! How the ports of a pool are joined at the end.
ghost use Rattle.std.specs.Prelude.{◌≡◌, ◌+◌, ◌<◌, ◌≤◌, true, false, All};
ghost use Rattle.crossbeam_queue.specs.Passes.{view, IsPassOf};
ghost use Rattle.dump_lanes.specs.steps.PoolNames.{name_of};
ghost use Rattle.dump_lanes.specs.Arrivals.{WeighsSame};
ghost use Rattle.dump_lanes.specs.steps.PortSides.{AreWorkersOf, IsDone, all_taken, all_given};
ghost use Rattle.dump_lanes.specs.steps.PortSteps.{HaveSteps};
ghost use Rattle.dump_lanes.specs.steps.PortViews.{job_port, worker_port, worker_ports, done_port, credit_port, HasJobsOf, HasDonesOf};

use super::Ports;
use super::credits::{AllCredits, CreditRoles};
use super::cutter::JobPort;
use super::dones::{AllNotes, Note};
use super::jobs::AllJobs;
use super::queues::Queues;
use super::sequencer::DonePort;
use super::worker::WorkerPort;
use super::writer::CreditPort;
use crate::passes::{Roles, View};
use crate::protocol::Mark;
use crossbeam_queue::Pass;

impl<J: Drop, D: Drop> Ports<J, D> {
    /// Drops all ports. Its contract says that what was taken is what was put, and that the ports made exactly the
    /// steps of one history of each queue. The workers' ports may be in any order.
    pub fn settle(self)
        requires workers { AreWorkersOf (job_port self.cutter).pool (job_port self.cutter).workers (worker_ports self) }
        requires sequencer { (done_port self.sequencer).pool ≡ (job_port self.cutter).pool }
        requires writer { (credit_port self.writer).pool ≡ (job_port self.cutter).pool }
        requires closed { (job_port self.cutter).marks ≡ (job_port self.cutter).workers }
        requires done { All (λ worker. IsDone worker) (worker_ports self) }
        requires ended { (done_port self.sequencer).ended ≡ true }
        ensures jobs { WeighsSame (all_taken (worker_ports self)) (job_port self.cutter).put }
        ensures dones { WeighsSame (done_port self.sequencer).taken (all_given (worker_ports self)) }
        ensures credits { let writer = credit_port self.writer in
            (job_port self.cutter).drawn ≤ writer.window + writer.back }
        ensures steps { HaveSteps self }
    {
        let Ports {
            cutter,
            workers,
            sequencer,
            writer,
        } = self;
        let JobPort {
            queues,
            mut jobs,
            mut credits,
        } = cutter;
        let DonePort {
            queues: _,
            mut dones,
            left: _,
        } = sequencer;
        let CreditPort {
            queues: _,
            credits: back,
        } = writer;
        gather(&queues, &mut jobs, &mut dones, workers);
        queues.credits.absorb::<CreditRoles>(&mut credits, back);
        queues.jobs.learn_as::<AllJobs>(&mut jobs);
        queues.dones.learn_as::<AllNotes>(&mut dones);
        queues.credits.learn_as::<AllCredits>(&mut credits);
    }
}

/// Joins the passes of the workers to the two passes that lead.
fn gather<J: Drop, D: Drop>(
    queues: &Queues<J, D>,
    jobs: &mut Pass<Mark<J>, View<Mark<J>>>,
    dones: &mut Pass<Note<D>, View<Note<D>>>,
    workers: Vec<WorkerPort<J, D>>,
)
    requires of_jobs { IsPassOf queues.now.jobs jobs.old }
    requires of_dones { IsPassOf queues.now.dones dones.old }
    requires cutter { ((view jobs.old).leads ≡ true) × (0 < (view jobs.old).parts) }
    requires sequencer { ((view dones.old).leads ≡ true) × (0 < (view dones.old).parts) }
    requires workers { All (λ p. (worker_port p).pool ≡ name_of queues.now) workers.items }
    ensures of_jobs { IsPassOf queues.now.jobs jobs.new }
    ensures of_dones { IsPassOf queues.now.dones dones.new }
    ensures jobs { HasJobsOf workers.items (view jobs.old) (view jobs.new) }
    ensures dones { HasDonesOf workers.items (view dones.old) (view dones.new) }
{
    for worker in workers {
        let WorkerPort {
            queues: _,
            index: _,
            jobs: takes,
            ended: _,
            dones: gives,
            closed: _,
        } = worker;
        queues.jobs.absorb::<Roles>(jobs, takes);
        queues.dones.absorb::<Roles>(dones, gives);
    }
}
