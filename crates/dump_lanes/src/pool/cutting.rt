//! How the first passes of a pool's queues are split into those of its ports.
ghost use Rattle.std.specs.Prelude.{◌≡◌, ◌-◌, ◌≤◌, [], true, length, map, All, vec_capacity};
ghost use Rattle.std.specs.List.{range_with_len};
ghost use Rattle.std.specs.Arc.{arc_value};
ghost use Rattle.crossbeam_queue.specs.Passes.{view, IsPassOf};
ghost use Rattle.dump_lanes.specs.steps.QueueRule.{leading};
ghost use Rattle.dump_lanes.specs.declared.passes.TheConstants.{PARTS};
ghost use Rattle.dump_lanes.specs.steps.PoolNames.{AreFirst, AreShares, state_of};
ghost use Rattle.dump_lanes.specs.steps.PortSides.{new_cutter, new_worker, new_sequencer, new_writer};
ghost use Rattle.dump_lanes.specs.steps.PortViews.{job_port, worker_port, worker_ports, done_port, credit_port};

use super::Ports;
use super::credits::CreditRoles;
use super::cutter::JobPort;
use super::dones::Note;
use super::queues::{Passes, Queues};
use super::sequencer::DonePort;
use super::shares::Shares;
use super::worker::WorkerPort;
use super::writer::CreditPort;
use crate::passes::{Roles, View};
use crate::protocol::Mark;
use crossbeam_queue::Pass;
use std::sync::Arc;

/// Makes all ports. The workers' ports are put in `room`.
pub fn cut<J: Drop, D: Drop>(
    queues: &Queues<J, D>,
    passes: Passes<J, D>,
    shares: Shares<J, D>,
    room: Vec<WorkerPort<J, D>>,
) -> Ports<J, D>
    requires passes { AreFirst queues.now passes }
    requires shares { AreShares queues.now shares }
    requires room { (room.items ≡ []) × (queues.now.workers ≤ vec_capacity room) }
    ensures cutter { job_port result.cutter ≡ new_cutter (state_of queues.now) }
    ensures workers { worker_ports result ≡ map (new_worker (state_of queues.now)) (range_with_len 0 queues.now.workers) }
    ensures sequencer { done_port result.sequencer ≡ new_sequencer (state_of queues.now) }
    ensures writer { credit_port result.writer ≡ new_writer (state_of queues.now) }
{
    let Passes {
        mut jobs,
        mut dones,
        mut credits,
    } = passes;
    let Shares {
        cutter,
        workers,
        sequencer,
        writer,
    } = shares;
    let workers = cut_workers(queues, &mut jobs, &mut dones, workers, room);
    let back = queues.credits.another::<CreditRoles>(&mut credits);
    Ports {
        cutter: JobPort {
            queues: cutter,
            jobs,
            credits,
        },
        workers,
        sequencer: DonePort {
            queues: sequencer,
            dones,
            left: queues.workers,
        },
        writer: CreditPort {
            queues: writer,
            credits: back,
        },
    }
}

/// Makes the workers' ports, each with its own reference to the queues and its own passes.
fn cut_workers<J: Drop, D: Drop>(
    queues: &Queues<J, D>,
    jobs: &mut Pass<Mark<J>, View<Mark<J>>>,
    dones: &mut Pass<Note<D>, View<Note<D>>>,
    shares: Vec<Arc<Queues<J, D>>>,
    room: Vec<WorkerPort<J, D>>,
) -> Vec<WorkerPort<J, D>>
    requires of_jobs { IsPassOf queues.now.jobs jobs.old }
    requires of_dones { IsPassOf queues.now.dones dones.old }
    requires jobs { view jobs.old ≡ leading PARTS 0 }
    requires dones { view dones.old ≡ leading PARTS 0 }
    requires shares { All (λ a. arc_value a ≡ queues.now) shares.items }
    requires as_many { length shares.items ≡ queues.now.workers }
    requires room { (room.items ≡ []) × (queues.now.workers ≤ vec_capacity room) }
    ensures of_jobs { IsPassOf queues.now.jobs jobs.new }
    ensures of_dones { IsPassOf queues.now.dones dones.new }
    ensures jobs { view jobs.new ≡ leading (PARTS - queues.now.workers) queues.now.workers }
    ensures dones { view dones.new ≡ leading (PARTS - queues.now.workers) queues.now.workers }
    ensures workers { map (λ p. worker_port p) result.items ≡ map (new_worker (state_of queues.now)) (range_with_len 0 queues.now.workers) }
{
    let mut workers = room;
    for share in shares {
        let index = workers.len();
        let takes = queues.jobs.another::<Roles>(jobs);
        let gives = queues.dones.another::<Roles>(dones);
        workers.push_reserved(WorkerPort::new(share, index, takes, gives));
    }
    workers
}
