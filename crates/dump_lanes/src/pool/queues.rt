//! The queues of a pool.
ghost use Rattle.std.specs.Prelude.{◌≡◌, ◌+◌, ◌≤◌};
ghost use Rattle.crossbeam_queue.specs.Passes.{ruled_capacity};
ghost use Rattle.dump_lanes.specs.declared.limits.TheConstants.{MOST_WORKERS};

use super::bell::Bells;
use super::credits::{CreditQueue, Purse, Token};
use super::dones::{DoneQueue, Note};
use super::jobs::JobQueue;
use crate::passes::View;
use crate::protocol::Mark;
use crossbeam_queue::Pass;

/// The queues of a pool, and its size.
#[derive(Drop)]
pub struct Queues<J: Drop, D: Drop> {
    pub jobs: JobQueue<J>,
    pub dones: DoneQueue<D>,
    pub credits: CreditQueue,
    pub job_bells: Bells,
    pub done_bells: Bells,
    pub credit_bells: Bells,
    pub workers: usize,
    pub window: usize,
    ghost some_workers: { 1 ≤ workers },
    ghost most_workers: { workers ≤ MOST_WORKERS },
    ghost job_places: { ruled_capacity jobs ≡ window + workers },
    ghost places: { ruled_capacity dones ≡ window + workers },
    ghost credit_places: { ruled_capacity credits ≡ window },
}

/// The first passes of the queues.
#[derive(Drop)]
pub struct Passes<J: Drop, D: Drop> {
    pub jobs: Pass<Mark<J>, View<Mark<J>>>,
    pub dones: Pass<Note<D>, View<Note<D>>>,
    pub credits: Pass<Token, Purse>,
}
