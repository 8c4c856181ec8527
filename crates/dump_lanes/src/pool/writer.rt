//! The writer's port.
ghost use Rattle.std.specs.Prelude.{◌≡◌, ◌+◌};
ghost use Rattle.std.specs.Arc.{arc_value};
ghost use Rattle.crossbeam_queue.specs.Passes.{view, IsPassOf};
ghost use Rattle.dump_lanes.specs.steps.PoolPasses.{IsGivingBack};

use super::credits::{Gives, Purse, Token};
use super::drawing::Credit;
use super::queues::Queues;
use super::waiting::push;
use crossbeam_queue::Pass;
use std::sync::{Arc, Wait};

/// The writer's port: it gives credits back.
#[derive(Drop)]
pub struct CreditPort<J: Drop, D: Drop> {
    pub(super) queues: Arc<Queues<J, D>>,
    pub(super) credits: Pass<Token, Purse>,
    ghost of_credits: { IsPassOf (arc_value queues).credits credits },
    ghost gives: { IsGivingBack (arc_value queues).window (view credits) },
}

impl<J: Drop, D: Drop> CreditPort<J, D> {
    ghost use Rattle.dump_lanes.specs.steps.PortViews.{credit_port};

    /// Gives a credit of this pool back, so that the cutter can draw it again. A credit of another pool is accepted
    /// and counted here too, and that pool has then one less.
    pub fn back<R: Wait>(&mut self, rt: &R, credit: Credit)
        ensures { credit_port self.new ≡ record (credit_port self.old) { back = (credit_port self.old).back + 1 } }
    {
        drop(credit);
        push::<Gives, _, _, _, R>(
            rt,
            &self.queues.credits,
            &self.queues.credit_bells,
            &mut self.credits,
            Token,
        );
    }
}
