//! Runs with threads: several plans, records that are held back, sinks that fail, and stops that end the cutting.

use super::gates::{Counting, Holding, Telling, Watching};
use super::{DUMP, TRUNK2, include_trunk, is_first_part, report, write_group, write_revision};
use dump_filter::Report;
use dump_pipeline::{Answer, Failure, FreeGate, Gate, Plan, run};
use dump_rules::{Empty, Options};
use dump_text::FaultKind;
use dump_writer::{MemorySink, Trouble};
use std::alloc::{AllocError, Global};
use std::io::Write;
use std::process::Abort;
use std::sync::Wait;
use std::sync::atomic::{AtomicU64, Ordering};
use std::test::*;
use std::thread::Threads;

pub const VERSION: &[u8] = b"SVN-fs-dump-format-version: 2\n\n";

pub fn plan(workers: usize, window: usize) -> Result<Plan, Fail> {
    match Plan::new(workers, window) {
        Some(plan) => Ok(plan),
        None => Err(AllocError.into()),
    }
}

pub fn everything(alloc: Global) -> Result<Options, Fail> {
    Ok(Options::include(alloc, &[b"/"])?)
}

/// Whether a run with threads, into a sink that takes all, gives this answer and these bytes.
pub fn is_run<R: Threads + Wait + Sync, G: Gate>(
    rt: &R,
    alloc: Global,
    dump: &[u8],
    options: &Options,
    plan: Plan,
    gate: &G,
    wanted: (Answer, &[u8]),
) -> bool {
    let mut sink = MemorySink::new(alloc, 1000, Trouble::Never);
    let answer = run(rt, alloc, dump, options, plan, gate, &mut sink);
    answer == wanted.0 && sink.taken() == wanted.1
}

/// Whether a run keeps exactly the nodes of the dump under `trunk`.
fn is_cut_down<R: Threads + Wait + Sync, G: Gate>(
    rt: &R,
    alloc: Global,
    plan: Plan,
    gate: &G,
) -> Result<bool, Fail> {
    let options = include_trunk(alloc)?;
    let wanted = (report(2, 1), &DUMP[..TRUNK2]);
    Ok(is_run(rt, alloc, DUMP, &options, plan, gate, wanted))
}

/// Record 0 waits for record 1: a single thread would wait for ever.
#[test]
fn records_are_checked_at_the_same_time(rt: HostRuntime) -> Result<(), Fail> {
    let gate = Holding::new(0, 0b10, 0);
    let cut_down = is_cut_down(&rt, rt.alloc(), plan(2, 64)?, &gate)?;
    assert!(rt; cut_down && !gate.is_late() && gate.passed() == 0b111111);
    Ok(())
}

/// Whether a run keeps the nodes under `trunk`, with a sink that lets another thread read how many bytes it took.
fn is_told<R: Threads + Wait + Sync, G: Gate>(
    rt: &R,
    alloc: Global,
    gate: &G,
    count: &AtomicU64,
) -> Result<bool, Fail> {
    let options = include_trunk(alloc)?;
    let plan = plan(2, 64)?;
    let mut sink = Telling {
        sink: MemorySink::new(alloc, 1000, Trouble::Never),
        count,
    };
    Ok(run(rt, alloc, DUMP, &options, plan, gate, &mut sink) == report(2, 1))
}

/// The last record waits until the first piece was written.
#[test]
fn pieces_are_written_while_records_are_checked(rt: HostRuntime) -> Result<(), Fail> {
    let count = AtomicU64::new(0);
    let gate = Watching {
        count: &count,
        last: 5,
        at_first: AtomicU64::new(0),
        late: AtomicU64::new(0),
    };
    let told = is_told(&rt, rt.alloc(), &gate, &count)?;
    let at_first = gate.at_first.load(Ordering::SeqCst);
    assert!(rt; told && at_first == 1 && gate.late.load(Ordering::SeqCst) == 0);
    Ok(())
}

const FOLDER: &[u8] =
    b"Node-path: a\nNode-kind: dir\nNode-action: add\nProp-content-length: 10\nContent-length: 10\n\nPROPS-END\n\n\n";

/// A dump with a file in record 2 whose digest is wrong.
const WRONG_IN_2: &[u8] = b"SVN-fs-dump-format-version: 2\n\n\
Revision-number: 0\nProp-content-length: 56\nContent-length: 56\n\n\
K 8\nsvn:date\nV 27\n2024-01-02T03:04:05.000000Z\nPROPS-END\n\n\
Node-path: a/x\nNode-kind: file\nNode-action: add\nText-content-length: 3\n\
Text-content-sha1: a9993e364706816aba3e25717850c26c9cd0d89e\nContent-length: 3\n\nabc\n\n";

/// The same with another one in record 5, and after it a header that is cut.
pub const WRONG_IN_2_AND_5: &[u8] = b"SVN-fs-dump-format-version: 2\n\n\
Revision-number: 0\nProp-content-length: 56\nContent-length: 56\n\n\
K 8\nsvn:date\nV 27\n2024-01-02T03:04:05.000000Z\nPROPS-END\n\n\
Node-path: a/x\nNode-kind: file\nNode-action: add\nText-content-length: 3\n\
Text-content-sha1: a9993e364706816aba3e25717850c26c9cd0d89e\nContent-length: 3\n\nabc\n\n\
Revision-number: 1\nProp-content-length: 56\nContent-length: 56\n\n\
K 8\nsvn:date\nV 27\n2024-01-02T03:04:05.000000Z\nPROPS-END\n\n\
Node-path: a\nNode-kind: dir\nNode-action: add\nProp-content-length: 10\nContent-length: 10\n\nPROPS-END\n\n\n\
Node-path: a/y\nNode-kind: file\nNode-action: add\nText-content-length: 3\n\
Text-content-md5: 900150983cd24fb0d6963f7d28e17f73\nContent-length: 3\n\nabc\n\n\
junk";

/// The fault of the wrong digest in record 2.
const SHA1_IN_RECORD_2: Answer = Answer::Fault {
    kind: FaultKind::Sha1,
    number: 2,
    place: 151,
};

/// Whether the answer is the fault in record 2, and only the version record is written.
pub fn is_first_fault<R: Threads + Wait + Sync, G: Gate>(
    rt: &R,
    alloc: Global,
    dump: &[u8],
    plan: Plan,
    gate: &G,
) -> Result<bool, Fail> {
    let options = everything(alloc)?;
    let wanted = (SHA1_IN_RECORD_2, VERSION);
    Ok(is_run(rt, alloc, dump, &options, plan, gate, wanted))
}

/// Whether the answer is the fault of record 2, although that of record 5 is found earlier.
pub fn is_first_of_two<R: Threads + Wait + Sync>(
    rt: &R,
    alloc: Global,
    dump: &[u8],
) -> Result<bool, Fail> {
    let plan = plan(4, 64)?;
    let gate = Holding::new(2, 1 << 5, 0);
    Ok(is_first_fault(rt, alloc, dump, plan, &gate)? && !gate.is_late())
}

#[test]
fn the_first_fault_is_answered_and_not_the_one_found_first(rt: HostRuntime) -> Result<(), Fail> {
    let whole = WRONG_IN_2_AND_5.strip_suffix(b"junk").ok_or("no junk")?;
    assert!(rt; is_first_of_two(&rt, rt.alloc(), whole)?);
    Ok(())
}

/// A dump of a hundred revisions, of which every second is kept.
pub fn hundred(alloc: Global) -> Result<Vec<u8>, Fail> {
    let mut dump = Vec::from_slice(alloc, VERSION)?;
    write_revision(&mut dump, 0)?;
    for number in 1..100 {
        write_group(&mut dump, number)?;
    }
    Ok(dump)
}

pub fn renumbering(alloc: Global) -> Result<Options, Fail> {
    let options = Options::include(alloc, &[b"trunk"])?;
    Ok(options.with_empty(Empty::DropEmptied).with_renumber(true))
}

/// The answer to it.
pub const HALF: Answer = Answer::Clean(Report {
    revisions_kept: 50,
    revisions_dropped: 50,
    nodes_kept: 49,
    nodes_dropped: 50,
    texts_checked: 0,
});

/// Whether a run on this dump, with a gate, keeps half of it.
fn is_halved<R: Threads + Wait + Sync, G: Gate>(
    rt: &R,
    alloc: Global,
    plan: Plan,
    gate: &G,
) -> Result<bool, Fail> {
    let options = renumbering(alloc)?;
    let dump = hundred(alloc)?;
    let mut sink = MemorySink::new(alloc, 1000, Trouble::Never);
    let answer = run(rt, alloc, &dump, &options, plan, gate, &mut sink);
    Ok(answer == HALF && sink.taken().len() == 11_359)
}

/// Whether each of its 200 records passes the gate once.
fn passes_once<R: Threads + Wait + Sync>(rt: &R, alloc: Global, plan: Plan) -> Result<bool, Fail> {
    let gate = Counting::new();
    let halved = is_halved(rt, alloc, plan, &gate)?;
    let all = [u64::MAX, u64::MAX, u64::MAX, 0xff];
    Ok(halved && gate.words() == all && gate.others() == 0)
}

#[test]
fn each_record_passes_the_gate_once(rt: HostRuntime) -> Result<(), Fail> {
    for (workers, window) in [(1, 1), (4, 64), (64, 4096)] {
        let plan = plan(workers, window)?;
        assert!(rt; passes_once(&rt, rt.alloc(), plan)?, "{workers} {window}");
    }
    Ok(())
}

/// The worker that holds record 0 holds no other record.
#[test]
fn any_worker_takes_any_record(rt: HostRuntime) -> Result<(), Fail> {
    let gate = Holding::new(0, 0b11_1111_1110, 0);
    let halved = is_halved(&rt, rt.alloc(), plan(4, 64)?, &gate)?;
    assert!(rt; halved && !gate.is_late());
    Ok(())
}

/// While record 0 is held, only the window's records are under way.
#[test]
fn no_more_are_under_way_than_the_window_has(rt: HostRuntime) -> Result<(), Fail> {
    let gate = Holding::new(0, 0b1110, 100_000);
    let halved = is_halved(&rt, rt.alloc(), plan(2, 4)?, &gate)?;
    assert!(rt; halved && !gate.is_late() && gate.before() == 0b1110);
    Ok(())
}

/// A wrong digest in record 2, and a thousand records after it.
pub fn early_fault(alloc: Global) -> Result<Vec<u8>, Fail> {
    let mut dump = Vec::from_slice(alloc, WRONG_IN_2)?;
    for _ in 0..1000 {
        dump.extend_from_slice(FOLDER)?;
    }
    Ok(dump)
}

/// Whether a run with one worker answers this fault after three records have passed the gate.
fn is_stopped<R: Threads + Wait + Sync>(rt: &R, alloc: Global, dump: &[u8]) -> Result<bool, Fail> {
    let plan = plan(1, 1)?;
    let gate = Holding::new(u64::MAX, 0, 0);
    Ok(is_first_fault(rt, alloc, dump, plan, &gate)? && gate.passed() == 0b111)
}

#[test]
fn a_fault_stops_the_cutting(rt: HostRuntime) -> Result<(), Fail> {
    let dump = early_fault(rt.alloc())?;
    assert!(rt; is_stopped(&rt, rt.alloc(), &dump)?);
    Ok(())
}

/// Whether a run into a sink that takes nothing fails before it has written a byte.
fn is_refused<R: Threads + Wait + Sync, G: Gate>(
    rt: &R,
    alloc: Global,
    gate: &G,
) -> Result<bool, Fail> {
    let plan = plan(1, 1)?;
    let options = everything(alloc)?;
    let dump = early_fault(alloc)?;
    let mut sink = MemorySink::new(alloc, 1000, Trouble::From(0));
    let failed = Answer::Failed {
        failure: Failure::Sink,
        written: 0,
    };
    Ok(run(rt, alloc, &dump, &options, plan, gate, &mut sink) == failed)
}

#[test]
fn a_broken_sink_stops_the_cutting(rt: HostRuntime) -> Result<(), Fail> {
    let gate = Holding::new(u64::MAX, 0, 0);
    let refused = is_refused(&rt, rt.alloc(), &gate)?;
    assert!(rt; refused && gate.passed() == 0b1);
    Ok(())
}

/// Run with each allocation failing in turn: the answer is the failure of memory or of threads, or the usual one.
#[test]
fn out_of_memory_leaves_a_first_part_over_threads(rt: HostRuntime) {
    let alloc = rt.alloc();
    let Ok(options) = include_trunk(alloc) else {
        return;
    };
    let Some(plan) = Plan::new(2, 4) else {
        return;
    };
    let mut sink = MemorySink::new(alloc, 1000, Trouble::Never);
    let answer = run(&rt, alloc, DUMP, &options, plan, &FreeGate, &mut sink);
    let clean = (report(2, 1), &DUMP[..TRUNK2]);
    assert!(rt; is_first_part(answer, sink.taken(), clean));
}
