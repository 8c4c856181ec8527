//! The protocol of the queue of dones, from the workers to the sequencer.
//!
//! 1. The queue carries notes. A note is a mark, which is an item or a worker's end mark, and the index of that
//!    worker.
//! 2. There is one history of steps. Each step belongs to one event of the pool, and has one note. The history leads
//!    from the empty queue to what the queue holds, and has of each thread exactly the steps that its pass made.
//! 3. The sequencer's pass leads and makes the takes; the others are the workers' and make the puts.
use crate::passes::View;
use crate::protocol::Mark;
use crossbeam_queue::RuledArrayQueue;
use crossbeam_queue::protocol::{Lesson, Outcome, Protocol};

/// The queue of dones.
pub type DoneQueue<D> = RuledArrayQueue<Note<D>, View<Note<D>>, DoneShares>;

/// A mark, and the index of the worker that put it.
#[derive(Drop)]
pub struct Note<T> {
    pub from: usize,
    pub mark: Mark<T>,
}

/// The rule: each step on the queue belongs to the event that its pass stores.
pub struct DoneShares;

impl<T> Protocol<Note<T>, View<Note<T>>> for DoneShares {
    ghost use Rattle.dump_lanes.specs.steps.DoneQueue.{IsDoneQueue};
    ghost use Rattle.dump_lanes.specs.steps.QueueRule.{leading};
    ghost use Rattle.dump_lanes.specs.declared.passes.TheConstants.{PARTS};

    ghost holds = { IsDoneQueue };

    ghost first = { leading PARTS 0 };
}

/// The pass stores a note that it has put.
pub struct PutsNote;

impl<T> Outcome<Note<T>, View<Note<T>>> for PutsNote {
    ghost use Rattle.std.specs.Prelude.{◌≡◌};
    ghost use Rattle.dump_lanes.specs.steps.DoneQueue.{give_step};
    ghost use Rattle.dump_lanes.specs.steps.QueueRule.{after_put};

    ghost then = { λ v x w. w ≡ after_put v (give_step x) };
}

impl<T> Lesson<Note<T>, View<Note<T>>> for PutsNote {
    ghost fact = { λ v items. Unit {0} };
}

/// The pass stores a note that it has taken.
pub struct TakesNote;

impl<T> Outcome<Note<T>, View<Note<T>>> for TakesNote {
    ghost use Rattle.std.specs.Prelude.{◌≡◌};
    ghost use Rattle.dump_lanes.specs.steps.DoneQueue.{arrive_step};
    ghost use Rattle.dump_lanes.specs.steps.QueueRule.{after_take};

    ghost then = { λ v x w. w ≡ after_take v (arrive_step x) };
}

impl<T> Lesson<Note<T>, View<Note<T>>> for TakesNote {
    ghost fact = { λ v items. Unit {0} };
}

/// What a pass with all parts finds out.
pub struct AllNotes;

impl<T> Lesson<Note<T>, View<Note<T>>> for AllNotes {
    ghost use Rattle.dump_lanes.specs.DoneRule.{dones_part};
    ghost use Rattle.dump_lanes.specs.steps.DoneQueue.{sequencer_crew};
    ghost use Rattle.dump_lanes.specs.steps.QueueRule.{KnowsSteps};

    ghost fact = { λ v items. KnowsSteps dones_part sequencer_crew v items };
}
