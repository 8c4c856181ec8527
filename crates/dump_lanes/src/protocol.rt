//! The protocol of a lane, over a bounded channel.
//!
//! 1. The channel carries marks: each is an item, or the end mark.
//! 2. There is one history of steps. Each step belongs to an event of the pool that releases or writes a piece, and
//!    has one mark. The sender is the pool's sequencer, and the receiver its writer. The history leads from the empty
//!    channel to what the channel holds.
//! 3. The sender's pass leads and makes the puts; the other pass is the receiver's and makes the takes.
//! 4. The sending end is used up when it puts the end mark, so no mark comes after that.
//! 5. The end mark is no item, and its steps are no events of the pool. Without them the history is one of the items.
//! 6. When the two passes are joined, what was taken is a prefix of what was put, and all of it if the end mark was
//!    taken.
use crate::passes::View;
use crossbeam_channel::protocol::{Lesson, Outcome, Protocol};

/// One message: an item, or the end mark.
#[derive(Drop)]
pub enum Mark<T> {
    Item(T),
    End,
}

/// The rule: each step on the channel belongs to the event that its pass stores.
pub struct InOrder;

impl<T> Protocol<Mark<T>, View<Mark<T>>> for InOrder {
    ghost use Rattle.dump_lanes.specs.steps.LaneQueue.{IsInOrder};
    ghost use Rattle.dump_lanes.specs.steps.QueueRule.{leading};
    ghost use Rattle.dump_lanes.specs.declared.passes.TheConstants.{PARTS};

    ghost holds = { IsInOrder };

    ghost first = { leading PARTS 0 };
}

/// The pass stores a mark that it has put; if the mark is an item, the event is `Release`.
pub struct Puts;

impl<T> Outcome<Mark<T>, View<Mark<T>>> for Puts {
    ghost use Rattle.std.specs.Prelude.{◌≡◌};
    ghost use Rattle.dump_lanes.specs.steps.LaneQueue.{put_step};
    ghost use Rattle.dump_lanes.specs.steps.QueueRule.{after_put};

    ghost then = { λ v x w. w ≡ after_put v (put_step x) };
}

impl<T> Lesson<Mark<T>, View<Mark<T>>> for Puts {
    ghost fact = { λ v items. Unit {0} };
}

/// The pass stores a mark that it has taken; if the mark is an item, the event is `Write`.
pub struct Takes;

impl<T> Outcome<Mark<T>, View<Mark<T>>> for Takes {
    ghost use Rattle.std.specs.Prelude.{◌≡◌};
    ghost use Rattle.dump_lanes.specs.steps.LaneQueue.{take_step};
    ghost use Rattle.dump_lanes.specs.steps.QueueRule.{after_take};

    ghost then = { λ v x w. w ≡ after_take v (take_step x) };
}

impl<T> Lesson<Mark<T>, View<Mark<T>>> for Takes {
    ghost fact = { λ v items. Unit {0} };
}

/// What a pass with all parts finds out.
pub struct Total;

impl<T> Lesson<Mark<T>, View<Mark<T>>> for Total {
    ghost use Rattle.dump_lanes.specs.LaneRule.{lane_part};
    ghost use Rattle.dump_lanes.specs.steps.LaneQueue.{sender_crew};
    ghost use Rattle.dump_lanes.specs.steps.QueueRule.{KnowsSteps};

    ghost fact = { λ v items. KnowsSteps lane_part sender_crew v items };
}
