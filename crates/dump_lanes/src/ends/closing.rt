//! How a sending end puts its end mark.
ghost use Rattle.std.specs.Prelude.{◌≡◌, []};
ghost use Rattle.std.specs.Result.{is_ok};
ghost use Rattle.crossbeam_channel.specs.Claims.{IsSeatAt, view};
ghost use Rattle.crossbeam_channel.specs.Ends.{sends_on};
ghost use Rattle.dump_lanes.specs.steps.LaneMarks.{IsPutting, mark_if};
ghost use Rattle.dump_lanes.specs.steps.LaneViews.{sending_of};

use crate::passes::View;
use crate::protocol::{InOrder, Mark, Puts};
use crossbeam_channel::{Pass, RuledSender};
use std::sync::Wait;

/// The end mark was not put, since the receiving end is dropped. Only `put_end` makes one.
#[derive(Drop)]
pub struct Unheard {
    _made_here: (),
}

/// Puts the end mark; waits while there is no place for it.
pub fn put_end<T: Drop, R: Wait>(
    rt: &R,
    sender: &RuledSender<Mark<T>, View<Mark<T>>, InOrder>,
    pass: &mut Pass<Mark<T>, View<Mark<T>>>,
) -> Result<(), Unheard>
    requires seated { IsSeatAt (sends_on sender.now) pass.old }
    requires puts { IsPutting [] (view pass.old) }
    ensures seated { IsSeatAt (sends_on sender.now) pass.new }
    ensures puts { IsPutting (mark_if (is_ok result)) (view pass.new) }
    ensures same { sending_of pass.new ≡ sending_of pass.old }
{
    match sender.send_as::<Puts, R>(rt, pass, Mark::End) {
        Ok(()) => return Ok(()),
        Err(e) => drop(e),
    }
    Err(Unheard { _made_here: () })
}
