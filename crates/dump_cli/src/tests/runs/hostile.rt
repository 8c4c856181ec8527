//! Sinks that fail, on one thread and on several, and a cut dump with a fault before the cut.
ghost use Rattle.std.specs.Prelude.{◌≤◌, Some, []};
ghost use Rattle.dump_writer.specs.SinkWords.{greatest};

use super::running::{WRONG_IN_2_AND_5, everything, is_first_of_two, plan};
use super::{DUMP, TRUNK2, include_trunk, report};
use dump_pipeline::{Answer, Failure, FreeGate, run, run_plain};
use dump_rules::Options;
use dump_writer::{MemorySink, Sink, SinkDown, Trouble};
use std::alloc::Global;
use std::process::Abort;
use std::sync::Wait;
use std::test::Fail;
use std::thread::Threads;

/// Workers and window; `None` is a run on one thread.
const PLANS: [Option<(usize, usize)>; 3] = [None, Some((1, 1)), Some((4, 64))];

/// A run with this number of workers and this window; `None` is a run on one thread.
pub fn run_by<R: Threads + Wait + Sync, S: Sink>(
    rt: &R,
    alloc: Global,
    dump: &[u8],
    options: &Options,
    by: Option<(usize, usize)>,
    sink: &mut S,
) -> Result<Answer, Fail> {
    match by {
        Some((workers, window)) => {
            let plan = plan(workers, window)?;
            Ok(run(rt, alloc, dump, options, plan, &FreeGate, sink))
        }
        None => Ok(run_plain(alloc, dump, options, sink)),
    }
}

/// Whether a run into a sink with this room writes a first part.
fn breaks_off<R: Threads + Wait + Sync>(
    rt: &R,
    alloc: Global,
    options: &Options,
    by: Option<(usize, usize)>,
    room: usize,
    mut sink: MemorySink,
) -> Result<bool, Fail> {
    let failed = Answer::Failed {
        failure: Failure::Sink,
        written: room as u64,
    };
    let wanted = if room < TRUNK2 { failed } else { report(2, 1) };
    let answer = run_by(rt, alloc, DUMP, options, by, &mut sink)?;
    Ok(answer == wanted && Some(sink.taken()) == DUMP.get(..room))
}

/// Whether each run writes a first part, if the sink takes at most this many bytes in a call and fails at each byte in
/// turn.
fn breaks_at_each_byte<R: Threads + Wait + Sync>(
    rt: &R,
    alloc: Global,
    by: Option<(usize, usize)>,
    most: usize,
) -> Result<bool, Fail>
    requires some { 1 ≤ most }
{
    let options = include_trunk(alloc)?;
    for room in 0..=TRUNK2 {
        let written = room as u64;
        for trouble in [Trouble::Once(written), Trouble::From(written)] {
            let sink = MemorySink::new(alloc, most, trouble);
            if !breaks_off(rt, alloc, &options, by, room, sink)? {
                return Ok(false);
            }
        }
    }
    Ok(true)
}

#[test]
fn a_sink_breaks_off_at_each_byte(rt: HostRuntime) -> Result<(), Fail> {
    assert!(rt; breaks_at_each_byte(&rt, rt.alloc(), None, 1)?);
    assert!(rt; breaks_at_each_byte(&rt, rt.alloc(), None, 64)?);
    Ok(())
}

#[test]
fn a_sink_breaks_off_at_each_byte_of_one_worker(rt: HostRuntime) -> Result<(), Fail> {
    assert!(rt; breaks_at_each_byte(&rt, rt.alloc(), Some((1, 1)), 64)?);
    assert!(rt; breaks_at_each_byte(&rt, rt.alloc(), Some((1, 1)), 1)?);
    Ok(())
}

#[test]
fn a_sink_breaks_off_at_each_byte_of_four_workers(rt: HostRuntime) -> Result<(), Fail> {
    assert!(rt; breaks_at_each_byte(&rt, rt.alloc(), Some((4, 64)), 64)?);
    assert!(rt; breaks_at_each_byte(&rt, rt.alloc(), Some((4, 64)), 1)?);
    Ok(())
}

/// A sink whose count of failures has reached its maximum.
#[derive(Drop)]
struct WornOut;

impl Sink for WornOut {
    ghost taken = { λ _. Some [] };

    ghost failure_count = { λ _. greatest };

    fn accept(&mut self, bytes: &[u8]) -> Result<usize, SinkDown> {
        if bytes.is_empty() {
            Ok(0)
        } else {
            Err(SinkDown)
        }
    }

    fn failures(&self) -> u64 {
        u64::MAX
    }
}

/// Whether a run into this sink fails and writes nothing.
fn is_worn_out<R: Threads + Wait + Sync>(
    rt: &R,
    alloc: Global,
    by: Option<(usize, usize)>,
) -> Result<bool, Fail> {
    let options = everything(alloc)?;
    let failed = Answer::Failed {
        failure: Failure::Sink,
        written: 0,
    };
    Ok(run_by(rt, alloc, DUMP, &options, by, &mut WornOut)? == failed)
}

#[test]
fn a_worn_out_sink_fails_too(rt: HostRuntime) -> Result<(), Fail> {
    for by in PLANS {
        assert!(rt; is_worn_out(&rt, rt.alloc(), by)?);
    }
    Ok(())
}

/// A cut header follows two wrong digests, and the later of these is found first.
#[test]
fn a_cut_header_behind_a_wrong_digest_is_not_told(rt: HostRuntime) -> Result<(), Fail> {
    assert!(rt; is_first_of_two(&rt, rt.alloc(), WRONG_IN_2_AND_5)?);
    Ok(())
}
