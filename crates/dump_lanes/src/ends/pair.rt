//! How the two ends of a lane are made.
ghost use Rattle.std.specs.Prelude.{◌≡◌, ◌≤◌, ◌+◌, [], IfOk};
ghost use Rattle.dump_lanes.specs.declared.limits.TheConstants.{MOST_WINDOW};
ghost use Rattle.dump_lanes.specs.steps.LaneEnds.{LaneEnd};
ghost use Rattle.dump_lanes.specs.steps.LaneViews.{sending, receiving, places};

use super::{LaneIn, LaneOut, Told};
use crate::passes::{Roles, View};
use crate::protocol::{InOrder, Mark};
use crossbeam_channel::bounded_with;
use std::alloc::{AllocError, AllocFailed, Global};

/// Makes a lane. Its channel has one more place than `capacity`. So there is room for the end mark if no more than
/// `capacity` items are ever in the lane at once.
pub fn lane<T: Drop>(alloc: Global, capacity: usize) -> Result<(LaneIn<T>, LaneOut<T>), Memory>
    requires some { 1 ≤ capacity }
    requires most { capacity ≤ MOST_WINDOW }
    ensures ends { IfOk result (λ ends. (receiving ends.1).lane ≡ (sending ends.0).lane) }
    ensures room { IfOk result (λ ends. places ends.0 ≡ capacity + 1) }
    ensures nothing_put { IfOk result (λ ends. (sending ends.0).put ≡ []) }
    ensures nothing_taken { IfOk result (λ ends. (receiving ends.1).taken ≡ []) }
    ensures nothing_told { IfOk result (λ ends. (receiving ends.1).told ≡ LaneEnd.MayCome) }
{
    let (sender, receiver, mut pass) = bounded_with::<Mark<T>, View<Mark<T>>, InOrder, Global>(
        alloc,
        capacity + 1,
    )?;
    let other = sender.another::<Roles>(&mut pass);
    let told = Told::MayCome;
    Ok((
        LaneIn { sender, pass },
        LaneOut {
            receiver,
            pass: other,
            told,
        },
    ))
}

/// An allocation failed.
#[derive(Clone, Copy, Debug, PartialEq, Eq)]
pub struct Memory;

impl From<AllocError> for Memory {
    fn from(_error: AllocError) -> Memory {
        Memory
    }
}

impl<T: Drop> From<AllocFailed<T>> for Memory {
    fn from(_error: AllocFailed<T>) -> Memory {
        Memory
    }
}
