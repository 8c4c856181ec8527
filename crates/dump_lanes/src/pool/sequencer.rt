//! The sequencer's port.
ghost use Rattle.std.specs.Prelude.{◌≡◌, ◌+◌, ◌<◌, true, IfSome, IfNone, option_to_list};
ghost use Rattle.std.specs.Arc.{arc_value};
ghost use Rattle.crossbeam_queue.specs.Passes.{view, IsSamePass, IsPassOf};
ghost use Rattle.dump_lanes.specs.steps.PoolPasses.{IsSequencing, HasRead, count_ends, marks_in};

use super::bell::Bells;
use super::dones::{DoneQueue, Note, TakesNote};
use super::queues::Queues;
use super::waiting::pop;
use crate::passes::View;
use crate::protocol::Mark;
use crossbeam_queue::Pass;
use std::sync::{Arc, Wait};

/// The sequencer's port: it takes what the workers gave.
#[derive(Drop)]
pub struct DonePort<J: Drop, D: Drop> {
    pub(super) queues: Arc<Queues<J, D>>,
    pub(super) dones: Pass<Note<D>, View<Note<D>>>,
    pub(super) left: usize,
    ghost of_dones: { IsPassOf (arc_value queues).dones dones },
    ghost sequences: { IsSequencing (arc_value queues).workers left (view dones) },
}

impl<J: Drop, D: Drop> DonePort<J, D> {
    ghost use Rattle.dump_lanes.specs.steps.PortViews.{done_port, DoneStep};

    /// Takes the item at the front; waits while there is none. `None` if each worker has closed its port; each later
    /// call then returns the same.
    pub fn take<R: Wait>(&mut self, rt: &R) -> Option<D>
        ensures { DoneStep (done_port self.old) result (done_port self.new) }
    {
        take_from(
            rt,
            &self.queues.dones,
            &self.queues.done_bells,
            &mut self.dones,
            &mut self.left,
        )
    }
}

/// Takes the next item; waits while there is none. `None` once each worker has put its end mark.
fn take_from<D: Drop, R: Wait>(
    rt: &R,
    queue: &DoneQueue<D>,
    bells: &Bells,
    pass: &mut Pass<Note<D>, View<Note<D>>>,
    left: &mut usize,
) -> Option<D>
    requires pass { IsPassOf queue.now pass.old }
    requires leads { (view pass.old).leads ≡ true }
    ensures pass { IsSamePass pass.old pass.new }
    ensures read { HasRead (option_to_list result) (view pass.old) (view pass.new) }
    ensures ends { count_ends (marks_in (view pass.new).taken) + left.new ≡ count_ends (marks_in (view pass.old).taken) + left.old }
    ensures some { IfSome result (λ _. (0 < left.old) × (0 < left.new)) }
    ensures none { IfNone result (left.new ≡ 0) }
{
    while *left > 0 {
        let Note { from: _, mark } = pop::<TakesNote, _, _, _, R>(rt, queue, bells, pass);
        match mark {
            Mark::Item(done) => return Some(done),
            Mark::End => *left -= 1,
        }
    }
    None
}
