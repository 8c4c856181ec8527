//! References to the queues of a pool for its ports.
ghost use Rattle.std.specs.Prelude.{◌≡◌, length, All, IfOk};
ghost use Rattle.std.specs.Arc.{arc_value};
ghost use Rattle.dump_lanes.specs.steps.PoolNames.{AreShares};

use super::queues::Queues;
use crate::ends::Memory;
use std::alloc::Global;
use std::sync::Arc;

/// The references to the queues, one for each port.
#[derive(Drop)]
pub struct Shares<J: Drop, D: Drop> {
    pub cutter: Arc<Queues<J, D>>,
    pub workers: Vec<Arc<Queues<J, D>>>,
    pub sequencer: Arc<Queues<J, D>>,
    pub writer: Arc<Queues<J, D>>,
}

/// Makes a reference for each port, unless an allocation fails.
pub fn share<J: Drop, D: Drop>(
    alloc: Global,
    queues: &Arc<Queues<J, D>>,
) -> Result<Shares<J, D>, Memory>
    ensures { IfOk result (λ shares. AreShares (arc_value queues.now) shares) }
{
    let workers = share_with_workers(alloc, queues)?;
    Ok(Shares {
        cutter: Arc::try_clone(queues)?,
        workers,
        sequencer: Arc::try_clone(queues)?,
        writer: Arc::try_clone(queues)?,
    })
}

/// Makes a reference for each worker.
fn share_with_workers<J: Drop, D: Drop>(
    alloc: Global,
    queues: &Arc<Queues<J, D>>,
) -> Result<Vec<Arc<Queues<J, D>>>, Memory>
    ensures same { IfOk result (λ v. All (λ a. arc_value a ≡ arc_value queues.now) v.items) }
    ensures as_many { IfOk result (λ v. length v.items ≡ (arc_value queues.now).workers) }
{
    let mut workers = Vec::with_capacity(alloc, queues.workers)?;
    for _ in 0..queues.workers {
        workers.push_reserved(Arc::try_clone(queues)?);
    }
    Ok(workers)
}
