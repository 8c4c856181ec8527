//! A worker.
ghost use Rattle.std.specs.Prelude.{◌≡◌};
ghost use Rattle.dump_pipeline.specs.steps.Parts.{HasWorkedFrom, IsFreshWorker};

use crate::gate::Gate;
use crate::message::{Checked, Job, Run};
use dump_lanes::WorkerPort;
use dump_rules::Options;
use std::sync::Wait;

/// A worker's port.
pub type CheckerPort<'a, D> = WorkerPort<Job<'a, D>, Checked<'a, D>>;

/// Takes items and checks each of them, until the cutter has closed its port.
pub fn work<'a, D: Run, G: Gate, R: Wait>(
    rt: &R,
    options: &'a Options,
    gate: &G,
    mut port: CheckerPort<'a, D>,
) -> CheckerPort<'a, D>
    requires options { options.now ≡ D.settings }
    requires fresh { IsFreshWorker port }
    ensures { HasWorkedFrom port.entry result }
{
    for _ in rt.forever() {
        match port.take(rt) {
            Some(job) => port.give(rt, Checked::of(job, options, gate)),
            None => break,
        }
    }
    port.close(rt);
    port
}
