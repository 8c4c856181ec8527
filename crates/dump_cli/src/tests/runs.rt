//! What no contract says: threads and gates, sinks that fail at each byte, and allocations that fail. Dumps as users
//! have them are cases of the whole program.

mod copies;
mod gates;
mod hostile;
mod plans;
mod running;
mod soaking;

use dump_filter::Report;
use dump_pipeline::{Answer, Failure, run_plain};
use dump_rules::{Memory, Options};
use dump_writer::{MemorySink, Trouble};
use std::alloc::Global;
use std::io::Write;
use std::process::Abort;
use std::test::Fail;

/// Revision 1 adds `trunk`, `trunk/a` and `trunk2`, in this order.
const DUMP: &[u8] = b"SVN-fs-dump-format-version: 2\n\n\
Revision-number: 0\n\
Prop-content-length: 56\nContent-length: 56\n\nK 8\nsvn:date\nV 27\n2024-01-02T03:04:05.000000Z\nPROPS-END\n\n\
Revision-number: 1\n\
Prop-content-length: 56\nContent-length: 56\n\nK 8\nsvn:date\nV 27\n2024-01-02T03:04:05.000000Z\nPROPS-END\n\n\
Node-path: trunk\nNode-kind: dir\nNode-action: add\nProp-content-length: 10\nContent-length: 10\n\nPROPS-END\n\n\n\
Node-path: trunk/a\nNode-kind: dir\nNode-action: add\nProp-content-length: 10\nContent-length: 10\n\nPROPS-END\n\n\n\
Node-path: trunk2\nNode-kind: dir\nNode-action: add\nProp-content-length: 10\nContent-length: 10\n\nPROPS-END\n\n\n";

/// Where the node of `trunk2` begins.
const TRUNK2: usize = 483;

fn include_trunk(alloc: Global) -> Result<Options, Memory> {
    let options = Options::include(alloc, &[b"trunk"])?;
    Ok(options.with_preserve(true))
}

/// The answer to this dump, with these counts of kept and dropped nodes.
fn report(kept: u64, dropped: u64) -> Answer {
    Answer::Clean(Report {
        revisions_kept: 2,
        revisions_dropped: 0,
        nodes_kept: kept,
        nodes_dropped: dropped,
        texts_checked: 0,
    })
}

/// What follows the number of a revision.
const PROPERTIES: &[u8] =
    b"\nProp-content-length: 56\nContent-length: 56\n\nK 8\nsvn:date\nV 27\n2024-01-02T03:04:05.000000Z\nPROPS-END\n\n";

/// Appends a revision, and a node under `x` or under `trunk`.
fn write_group(dump: &mut Vec<u8>, number: u64) -> Result<(), Fail> {
    write_revision(dump, number)?;
    let parent = if number % 2 == 0 { "trunk" } else { "x" };
    write!(
        dump,
        "Node-path: {parent}/{number}\nNode-kind: dir\nNode-action: add\n\
        Prop-content-length: 10\nContent-length: 10\n\nPROPS-END\n\n\n"
    )?;
    Ok(())
}

fn write_revision(dump: &mut Vec<u8>, number: u64) -> Result<(), Fail> {
    write!(dump, "Revision-number: {number}")?;
    dump.extend_from_slice(PROPERTIES)?;
    Ok(())
}

/// Whether the output of a run, in which an allocation or the start of a thread may have failed, is a first part of
/// that of a clean run.
fn is_first_part(answer: Answer, taken: &[u8], clean: (Answer, &[u8])) -> bool {
    match answer {
        Answer::Failed { failure, written } => {
            clean.1.starts_with(taken)
                && taken.len() as u64 == written
                && (failure != Failure::Threads || written == 0)
        }
        _ => answer == clean.0 && taken == clean.1,
    }
}

/// Run with each allocation failing in turn.
#[test]
fn out_of_memory_leaves_a_first_part(rt: HostRuntime) {
    let alloc = rt.alloc();
    let Ok(options) = include_trunk(alloc) else {
        return;
    };
    let mut sink = MemorySink::new(alloc, 1000, Trouble::Never);
    let answer = run_plain(alloc, DUMP, &options, &mut sink);
    let clean = (report(2, 1), &DUMP[..TRUNK2]);
    assert!(rt; is_first_part(answer, sink.taken(), clean));
}
