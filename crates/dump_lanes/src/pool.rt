//! A pool of threads: its queues and their ports.
ghost use Rattle.std.specs.Option.{ForSome};
ghost use Rattle.std.specs.Arc.{arc_value};
ghost use Rattle.dump_lanes.specs.steps.PoolNames.{AreFirst};

use crate::ends::Memory;
use bell::Bells;
use credits::CreditQueue;
use cutting::cut;
use dones::DoneQueue;
use drawing::put_first;
use jobs::JobQueue;
use queues::{Passes, Queues};
use shares::share;
use std::alloc::Global;
use std::sync::{Arc, Wait};

mod bell;
mod credits;
mod cutter;
mod cutting;
mod dones;
mod drawing;
mod jobs;
mod queues;
mod sequencer;
mod settling;
mod shares;
mod waiting;
mod worker;
mod writer;

pub use cutter::JobPort;
pub use drawing::{Credit, Drawn};
pub use sequencer::DonePort;
pub use worker::WorkerPort;
pub use writer::CreditPort;

/// The queues between a cutter, some workers, a sequencer and a writer.
#[derive(Drop)]
pub struct Pool<J: Drop, D: Drop> {
    queues: Arc<Queues<J, D>>,
    passes: Option<Passes<J, D>>,
    ghost first: { ForSome passes (λ p. AreFirst (arc_value queues) p) },
}

/// The ports of a pool. They share its queues, and remain usable after the pool is dropped.
#[derive(Drop)]
pub struct Ports<J: Drop, D: Drop> {
    pub cutter: JobPort<J, D>,
    pub workers: Vec<WorkerPort<J, D>>,
    pub sequencer: DonePort<J, D>,
    pub writer: CreditPort<J, D>,
}

impl<J: Drop, D: Drop> Pool<J, D> {
    ghost use Rattle.std.specs.Prelude.{◌≡◌, ◌≤◌, true, false, map, IfOk, OnOk, OnErr};
    ghost use Rattle.std.specs.List.{range_with_len};
    ghost use Rattle.dump_lanes.specs.declared.limits.TheConstants.{MOST_WORKERS, MOST_WINDOW};
    ghost use Rattle.dump_lanes.specs.steps.PortSides.{new_cutter, new_worker, new_sequencer, new_writer};
    ghost use Rattle.dump_lanes.specs.steps.PortViews.{pool_state, job_port, worker_ports, done_port, credit_port};

    /// Makes the queues, and puts as many credits as the window is wide.
    pub fn new<R: Wait>(
        rt: &R,
        alloc: Global,
        workers: usize,
        window: usize,
    ) -> Result<Pool<J, D>, Memory>
        requires some_workers { 1 ≤ workers }
        requires most_workers { workers ≤ MOST_WORKERS }
        requires some_window { 1 ≤ window }
        requires most_window { window ≤ MOST_WINDOW }
        ensures workers { IfOk result (λ pool. (pool_state pool).workers ≡ workers) }
        ensures window { IfOk result (λ pool. (pool_state pool).window ≡ window) }
        ensures unopened { IfOk result (λ pool. (pool_state pool).opened ≡ false) }
    {
        let (jobs, first_job) = JobQueue::ruled(alloc, window + workers)?;
        let (dones, first_done) = DoneQueue::ruled(alloc, window + workers)?;
        let (credits, mut first_credit) = CreditQueue::ruled(alloc, window)?;
        let credit_bells = Bells::new();
        put_first(rt, &credits, &credit_bells, &mut first_credit, window);
        let queues = Queues {
            jobs,
            dones,
            credits,
            job_bells: Bells::new(),
            done_bells: Bells::new(),
            credit_bells,
            workers,
            window,
        };
        let passes = Passes {
            jobs: first_job,
            dones: first_done,
            credits: first_credit,
        };
        let queues = Arc::new(alloc, queues)?;
        Ok(Pool {
            queues,
            passes: Some(passes),
        })
    }

    /// Makes the ports: one for the cutter, one for each worker, one for the sequencer and one for the writer. If an
    /// allocation fails, the pool is unchanged, and the caller may try again.
    pub fn ports(&mut self, alloc: Global) -> Result<Ports<J, D>, Memory>
        requires { (pool_state self.old).opened ≡ false }
        ensures cutter { IfOk result (λ ports. job_port ports.cutter ≡ new_cutter (pool_state self.old)) }
        ensures workers { let pool = pool_state self.old in
            IfOk result (λ ports. worker_ports ports ≡ map (new_worker pool) (range_with_len 0 pool.workers)) }
        ensures sequencer { IfOk result (λ ports. done_port ports.sequencer ≡ new_sequencer (pool_state self.old)) }
        ensures writer { IfOk result (λ ports. credit_port ports.writer ≡ new_writer (pool_state self.old)) }
        ensures opened { OnOk result (pool_state self.new ≡ record (pool_state self.old) { opened = true }) }
        ensures unchanged { OnErr result (pool_state self.new ≡ pool_state self.old) }
    {
        let room = Vec::with_capacity(alloc, self.queues.workers)?;
        let shares = share(alloc, &self.queues)?;
        let Some(passes) = self.passes.take() else {
            unreachable!()
        };
        Ok(cut(&self.queues, passes, shares, room))
    }
}
