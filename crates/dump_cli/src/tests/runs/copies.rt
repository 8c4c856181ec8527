//! Copies that are renumbered while allocations fail.

use super::hostile::run_by;
use super::running::VERSION;
use super::{PROPERTIES, is_first_part};
use dump_filter::Report;
use dump_pipeline::Answer;
use dump_rules::{Empty, Options};
use dump_writer::{MemorySink, Trouble};
use std::alloc::{AllocError, Global};
use std::process::Abort;
use std::sync::Wait;
use std::test::Fail;
use std::thread::Threads;

const X: &[u8] =
    b"Node-path: x\nNode-kind: dir\nNode-action: add\nProp-content-length: 10\nContent-length: 10\n\nPROPS-END\n\n\n";

const X_Y: &[u8] =
    b"Node-path: x/y\nNode-kind: dir\nNode-action: add\nProp-content-length: 10\nContent-length: 10\n\nPROPS-END\n\n\n";

const TRUNK: &[u8] =
    b"Node-path: trunk\nNode-kind: dir\nNode-action: add\nProp-content-length: 10\nContent-length: 10\n\nPROPS-END\n\n\n";

const TAG_OF_3: &[u8] =
    b"Node-path: trunk/tag\nNode-kind: dir\nNode-action: add\nNode-copyfrom-rev: 3\nNode-copyfrom-path: trunk\n\n\n\n";

const TAG_OF_1: &[u8] =
    b"Node-path: trunk/tag\nNode-kind: dir\nNode-action: add\nNode-copyfrom-rev: 1\nNode-copyfrom-path: trunk\n\n\n\n";

/// Revision 4 copies `trunk` from revision 3, and the node of revision 3 isn't under `trunk`.
const DUMP: [&[u8]; 15] = [
    VERSION,
    b"Revision-number: 0",
    PROPERTIES,
    b"Revision-number: 1",
    PROPERTIES,
    X,
    b"Revision-number: 2",
    PROPERTIES,
    TRUNK,
    b"Revision-number: 3",
    PROPERTIES,
    X_Y,
    b"Revision-number: 4",
    PROPERTIES,
    TAG_OF_3,
];

/// What is kept of it: revisions 1 and 3 are dropped.
const KEPT: [&[u8]; 9] = [
    VERSION,
    b"Revision-number: 0",
    PROPERTIES,
    b"Revision-number: 1",
    PROPERTIES,
    TRUNK,
    b"Revision-number: 2",
    PROPERTIES,
    TAG_OF_1,
];

fn joined(alloc: Global, parts: &[&[u8]]) -> Result<Vec<u8>, AllocError> {
    let mut whole = Vec::with_capacity(alloc, 1200)?;
    for part in parts {
        whole.extend_from_slice(part)?;
    }
    Ok(whole)
}

const COUNTS: Report = Report {
    revisions_kept: 3,
    revisions_dropped: 2,
    nodes_kept: 2,
    nodes_dropped: 2,
    texts_checked: 0,
};

/// Whether a run, in which an allocation or the start of a thread may fail, writes a first part of what is kept.
fn leaves_first_part<R: Threads + Wait + Sync>(
    rt: &R,
    alloc: Global,
    by: Option<(usize, usize)>,
    dump: &[u8],
    kept: &[u8],
) -> Result<bool, Fail> {
    let Ok(options) = Options::include(alloc, &[b"trunk"]) else {
        return Ok(true);
    };
    let options = options.with_empty(Empty::DropEmptied).with_renumber(true);
    let mut sink = MemorySink::new(alloc, 1000, Trouble::Never);
    let answer = run_by(rt, alloc, dump, &options, by, &mut sink)?;
    Ok(is_first_part(answer, sink.taken(), (Answer::Clean(COUNTS), kept)))
}

/// Run with each allocation and each start of a thread failing in turn.
#[test]
fn copies_are_renumbered_or_no_memory(rt: HostRuntime) -> Result<(), Fail> {
    let Ok(dump) = joined(rt.alloc(), &DUMP) else {
        return Ok(());
    };
    let Ok(kept) = joined(rt.alloc(), &KEPT) else {
        return Ok(());
    };
    for by in [None, Some((2, 4))] {
        assert!(rt; leaves_first_part(&rt, rt.alloc(), by, &dump, &kept)?);
    }
    Ok(())
}
