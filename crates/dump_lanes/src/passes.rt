//! The passes of a queue or a lane. A pass is the value by which a thread calls a queue; this file says what a pass
//! knows, and how passes are split and joined.
//! 1. A queue has one history of steps. Each step belongs to one event of the pool, and puts or takes one entry.
//! 2. Each pass knows exactly the steps of the history that its threads made.
//! 3. One pass leads. Others are split off from it, each for one thread that has made no step yet, and it may join
//!    each of them again.
//! 4. A pass has parts, and all passes together have `PARTS` of them. A joined pass has the parts and the steps of
//!    both.
//! 5. A pass with all parts finds out that it knows all steps of each thread in the history.
use crate::steps::Step;
use crossbeam_queue::protocol::{Join, Split};
use std::collections::LinkedList;

/// The number of parts that all passes of a queue have together: one for each worker that there can be, and as many in
/// reserve.
pub const PARTS: u64 = 128;

/// What a pass may do and which steps it knows. It is only used as a type; the program makes no value of it.
pub struct View<E> {
    pub parts: u64,
    pub leads: bool,
    pub made: u64,
    pub from: u64,
    pub put: LinkedList<E>,
    pub taken: LinkedList<E>,
    pub steps: LinkedList<Step<E>>,
}

/// Splits a pass for one more thread off the pass that leads.
pub struct Roles;

impl<E> Split<View<E>> for Roles {
    ghost use Rattle.dump_lanes.specs.steps.QueueRule.{after_fork, following};

    ghost left = { λ v. after_fork v };

    ghost right = { λ v. following v.made };
}

impl<E> Join<View<E>> for Roles {
    ghost use Rattle.dump_lanes.specs.steps.QueueRule.{after_join, spent};

    ghost both = { λ v w. after_join v w };

    ghost spent = { spent };
}
