//! How the receiving end waits.
ghost use Rattle.std.specs.Prelude.{◌≡◌, ◌<◌, false, IfOk, OnErr};
ghost use Rattle.crossbeam_channel.specs.Claims.{IsSeatAt, view};
ghost use Rattle.crossbeam_channel.specs.Ends.{receives_on};
ghost use Rattle.dump_lanes.specs.steps.LaneQueue.{take_step};
ghost use Rattle.dump_lanes.specs.steps.QueueRule.{after_take};

use crate::passes::View;
use crate::protocol::{InOrder, Mark, Takes};
use crossbeam_channel::{Pass, RecvError, RuledReceiver, TryRecvError};
use std::sync::Wait;
use std::thread;

/// How often a thread that finds nothing yields its turn before it sleeps. This takes about as long as to wake it.
const TURNS: u32 = 400;

/// Takes the mark at the front; waits while there is none. The error says that there is none and the sending end is
/// dropped.
pub fn receive<T: Drop, R: Wait>(
    rt: &R,
    receiver: &RuledReceiver<Mark<T>, View<Mark<T>>, InOrder>,
    pass: &mut Pass<Mark<T>, View<Mark<T>>>,
) -> Result<Mark<T>, RecvError>
    requires seated { IsSeatAt (receives_on receiver.now) pass.old }
    requires follows { ((view pass.old).leads ≡ false) × (0 < (view pass.old).parts) × ((view pass.old).from ≡ 0) }
    ensures seated { IsSeatAt (receives_on receiver.now) pass.new }
    ensures taken { IfOk result (λ mark. view pass.new ≡ after_take (view pass.old) (take_step mark)) }
    ensures same { OnErr result (view pass.new ≡ view pass.old) }
{
    for _ in 0..TURNS {
        match receiver.try_recv_as::<Takes, R>(rt, pass) {
            Ok(mark) => return Ok(mark),
            Err(TryRecvError::Empty) => thread::yield_now(),
            Err(TryRecvError::Disconnected) => return Err(RecvError),
        }
    }
    receiver.recv_as::<Takes, R>(rt, pass)
}
