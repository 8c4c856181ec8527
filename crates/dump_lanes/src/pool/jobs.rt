//! The protocol of the queue of jobs, from the cutter to the workers.
//!
//! 1. The queue carries marks. A mark is a job or an end mark, and the cutter puts one end mark for each worker.
//! 2. There is one history of steps. Each step belongs to one event of the pool, and has one mark. The history leads
//!    from the empty queue to what the queue holds.
//! 3. The cutter's pass leads and makes the puts; the others are the workers' and make the takes.
use crate::passes::View;
use crate::protocol::Mark;
use crossbeam_queue::RuledArrayQueue;
use crossbeam_queue::protocol::{Lesson, Outcome, Protocol};

/// The queue of jobs.
pub type JobQueue<J> = RuledArrayQueue<Mark<J>, View<Mark<J>>, JobShares>;

/// The rule: each step on the queue belongs to the event that its pass stores.
pub struct JobShares;

impl<T> Protocol<Mark<T>, View<Mark<T>>> for JobShares {
    ghost use Rattle.dump_lanes.specs.steps.JobQueue.{IsJobQueue};
    ghost use Rattle.dump_lanes.specs.steps.QueueRule.{leading};
    ghost use Rattle.dump_lanes.specs.declared.passes.TheConstants.{PARTS};

    ghost holds = { IsJobQueue };

    ghost first = { leading PARTS 0 };
}

/// The pass stores a mark that it has put. The event is `Cut` or `CutMark`.
pub struct PutsJob;

impl<T> Outcome<Mark<T>, View<Mark<T>>> for PutsJob {
    ghost use Rattle.std.specs.Prelude.{◌≡◌};
    ghost use Rattle.dump_lanes.specs.steps.JobQueue.{put_step};
    ghost use Rattle.dump_lanes.specs.steps.QueueRule.{after_put};

    ghost then = { λ v x w. w ≡ after_put v (put_step x) };
}

impl<T> Lesson<Mark<T>, View<Mark<T>>> for PutsJob {
    ghost fact = { λ v items. Unit {0} };
}

/// The pass stores a mark that it has taken. The event is `Take` of this worker.
pub struct TakesJob;

impl<T> Outcome<Mark<T>, View<Mark<T>>> for TakesJob {
    ghost use Rattle.std.specs.Prelude.{◌≡◌};
    ghost use Rattle.dump_lanes.specs.steps.JobQueue.{after_job};

    ghost then = { λ v x w. w ≡ after_job v x };
}

impl<T> Lesson<Mark<T>, View<Mark<T>>> for TakesJob {
    ghost fact = { λ v items. Unit {0} };
}

/// What a pass with all parts finds out.
pub struct AllJobs;

impl<T> Lesson<Mark<T>, View<Mark<T>>> for AllJobs {
    ghost use Rattle.dump_lanes.specs.JobRule.{jobs_part};
    ghost use Rattle.dump_lanes.specs.steps.JobQueue.{cutter_crew};
    ghost use Rattle.dump_lanes.specs.steps.QueueRule.{KnowsSteps};

    ghost fact = { λ v items. KnowsSteps jobs_part cutter_crew v items };
}
