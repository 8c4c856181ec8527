//! The map of revisions, and sinks and memory that fail.
use dump_rules::{Empty, Memory, Options};
use dump_survey::{SurveyFailure, write_map};
use dump_writer::{MemorySink, Trouble};
use std::alloc::Global;
use std::process::Abort;
use std::test::Fail;

/// Revision 4 has no kept node, and the filter drops it.
const EMPTIED: &[u8] = b"SVN-fs-dump-format-version: 2\n\n\
Revision-number: 3\n\n\
Revision-number: 4\n\n\
Node-path: other\nNode-kind: dir\nNode-action: add\n\n\n\
Revision-number: 9\n\n\
Node-path: trunk\nNode-kind: dir\nNode-action: add\n\n\n";

const MAP: &[u8] = b"r3 becomes r3\nr9 becomes r4\n";

fn renumbering(alloc: Global) -> Result<Options, Memory> {
    let options = Options::include(alloc, &[b"trunk"])?;
    Ok(options.with_empty(Empty::DropEmptied).with_renumber(true))
}

/// Whether writing the map to a sink with this trouble has this result, and the sink has taken these bytes.
fn is_map(
    alloc: Global,
    trouble: Trouble,
    answer: Result<(), SurveyFailure>,
    taken: &[u8],
) -> Result<bool, Fail> {
    let options = renumbering(alloc)?;
    let mut sink = MemorySink::new(alloc, 8, trouble);
    Ok(write_map(alloc, EMPTIED, &options, &mut sink) == answer && sink.taken() == taken)
}

#[test]
fn a_map_has_the_kept_revisions(rt: HostRuntime) -> Result<(), Fail> {
    assert!(rt; is_map(rt.alloc(), Trouble::Never, Ok(()), MAP)?);
    Ok(())
}

#[test]
fn a_sink_that_fails_has_the_first_bytes_of_a_map(rt: HostRuntime) -> Result<(), Fail> {
    let failed = Err(SurveyFailure::Sink);
    assert!(rt; is_map(rt.alloc(), Trouble::Once(20), failed, &MAP[..20])?);
    Ok(())
}

/// The test runner repeats this with each allocation failing in turn. The map is complete, or the error is that memory
/// ran out.
#[test]
fn a_map_or_no_memory(rt: HostRuntime) {
    let Ok(options) = renumbering(rt.alloc()) else {
        return;
    };
    let mut sink = MemorySink::new(rt.alloc(), 8, Trouble::Never);
    let written = write_map(rt.alloc(), EMPTIED, &options, &mut sink);
    assert!(rt; written.is_err() || sink.taken() == MAP);
}
