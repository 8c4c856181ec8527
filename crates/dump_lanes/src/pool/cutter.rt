//! The cutter's port.
ghost use Rattle.std.specs.Prelude.{◌≡◌, ◌+◌, [], ◌∷◌, ◌++◌, true, replicate};
ghost use Rattle.std.specs.Arc.{arc_value};
ghost use Rattle.crossbeam_queue.specs.Passes.{view, IsSamePass, IsPassOf};
ghost use Rattle.dump_lanes.specs.steps.JobQueue.{after_ends};
ghost use Rattle.dump_lanes.specs.steps.PoolPasses.{IsCutting};
ghost use Rattle.dump_lanes.specs.steps.StopSeats.{SeesOnlyRaised};
ghost use Rattle.dump_lanes.specs.declared.protocol.Mark.TheVariants.{End};

use super::bell::Bells;
use super::credits::{Purse, Token};
use super::drawing::{Drawn, draw_from};
use super::jobs::{JobQueue, PutsJob};
use super::queues::Queues;
use super::waiting::push;
use crate::passes::View;
use crate::protocol::Mark;
use crate::stop::{StopSeat, StopWord};
use crossbeam_queue::Pass;
use std::sync::{Arc, Wait};

/// The cutter's port: it draws credits, and puts jobs.
#[derive(Drop)]
pub struct JobPort<J: Drop, D: Drop> {
    pub(super) queues: Arc<Queues<J, D>>,
    pub(super) jobs: Pass<Mark<J>, View<Mark<J>>>,
    pub(super) credits: Pass<Token, Purse>,
    ghost of_jobs: { IsPassOf (arc_value queues).jobs jobs },
    ghost of_credits: { IsPassOf (arc_value queues).credits credits },
    ghost cuts: { IsCutting (arc_value queues).workers (view jobs) },
    ghost draws: { (view credits).draws ≡ true },
}

impl<J: Drop, D: Drop> JobPort<J, D> {
    ghost use Rattle.dump_lanes.specs.steps.CreditViews.{is_stop};
    ghost use Rattle.dump_lanes.specs.steps.PortViews.{job_port, DrawStep};

    /// Puts a job at the back; waits while there is no place for it.
    pub fn put<R: Wait>(&mut self, rt: &R, job: J)
        requires { (job_port self.old).marks ≡ 0 }
        ensures { job_port self.new ≡ record (job_port self.old) { put = (job_port self.old).put ++ job ∷ [] } }
    {
        push::<PutsJob, _, _, _, R>(
            rt,
            &self.queues.jobs,
            &self.queues.job_bells,
            &mut self.jobs,
            Mark::Item(job),
        );
    }

    /// Puts an end mark for each worker, after all jobs; waits while there is no place for one.
    pub fn close<R: Wait>(&mut self, rt: &R)
        requires { (job_port self.old).marks ≡ 0 }
        ensures { job_port self.new ≡ record (job_port self.old) { marks = (job_port self.old).workers } }
    {
        put_ends(
            rt,
            &self.queues.jobs,
            &self.queues.job_bells,
            &mut self.jobs,
            self.queues.workers,
        );
    }

    /// Draws a credit; waits while there is none. It reads the stop word before each try.
    pub fn draw<R: Wait>(&mut self, rt: &R, word: &StopWord, seat: &mut StopSeat) -> Drawn
        requires open { (job_port self.old).marks ≡ 0 }
        requires this_word { seat.old.word ≡ word.now }
        ensures drawn { DrawStep (job_port self.old) result (job_port self.new) }
        ensures seen { seat.new ≡ record seat.old { seen = is_stop result } }
        ensures whole { SeesOnlyRaised seat.new }
    {
        draw_from(
            rt,
            &self.queues.credits,
            &self.queues.credit_bells,
            &mut self.credits,
            word,
            seat,
        )
    }
}

/// Puts this many end marks.
fn put_ends<J: Drop, R: Wait>(
    rt: &R,
    queue: &JobQueue<J>,
    bells: &Bells,
    pass: &mut Pass<Mark<J>, View<Mark<J>>>,
    count: usize,
)
    requires pass { IsPassOf queue.now pass.old }
    requires leads { (view pass.old).leads ≡ true }
    ensures pass { IsSamePass pass.old pass.new }
    ensures put { view pass.new ≡ after_ends (view pass.old) count }
{
    for _ in 0..count {
        push::<PutsJob, _, _, _, R>(rt, queue, bells, pass, Mark::End);
    }
}
