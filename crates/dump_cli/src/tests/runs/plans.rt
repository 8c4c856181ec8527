//! Plans at the limits of their ranges.

use dump_pipeline::Plan;
use std::process::Abort;

fn is_plan(workers: usize, window: usize) -> bool {
    match Plan::new(workers, window) {
        Some(plan) => plan.workers() == workers && plan.window() == window,
        None => false,
    }
}

#[test]
fn plans_in_range_are_made(rt: HostRuntime) {
    assert!(rt; is_plan(1, 1));
    assert!(rt; is_plan(64, 4096));
}

#[test]
fn plans_out_of_range_are_refused(rt: HostRuntime) {
    for (workers, window) in [(0, 1), (1, 0), (65, 1), (1, 4097)] {
        assert!(rt;
            Plan::new(workers, window).is_none(),
            "of {workers} and {window}"
        );
    }
}
