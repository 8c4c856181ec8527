//! How many threads a run has.
ghost use Rattle.std.specs.Prelude.{◌≡◌, ◌↔◌, ◌≤◌, IsSome, IfSome};
ghost use Rattle.dump_lanes.specs.declared.limits.TheConstants.{MOST_WORKERS, MOST_WINDOW};

use dump_lanes::{MOST_WINDOW, MOST_WORKERS};

/// How many workers there are, and how many records are under way at most.
#[derive(Clone, Copy, Debug, PartialEq, Eq)]
pub struct Plan {
    workers: usize,
    window: usize,
    pub ghost some_workers: { 1 ≤ workers },
    pub ghost most_workers: { workers ≤ MOST_WORKERS },
    pub ghost some_window: { 1 ≤ window },
    pub ghost most_window: { window ≤ MOST_WINDOW },
}

impl Plan {
    ghost use Rattle.dump_pipeline.specs.PlanViews.{worker_count, window_size};
    ghost use Rattle.dump_pipeline.specs.steps.PlanRange.{IsInRange};

    /// A plan of 1 to 64 workers and a window of 1 to 4096 records.
    pub fn new(workers: usize, window: usize) -> Option<Plan>
        ensures range { IsSome result ↔ IsInRange workers window }
        ensures workers { IfSome result (λ plan. worker_count plan ≡ workers) }
        ensures window { IfSome result (λ plan. window_size plan ≡ window) }
    {
        if workers < 1 || workers > MOST_WORKERS || window < 1 || window > MOST_WINDOW {
            return None;
        }
        Some(Plan { workers, window })
    }

    /// How many workers check records.
    pub fn workers(&self) -> usize
        ensures { result ≡ worker_count self.now }
    {
        self.workers
    }

    /// How many records are under way at most.
    pub fn window(&self) -> usize
        ensures { result ≡ window_size self.now }
    {
        self.window
    }
}
