//! Lines of mergeinfo that the filter omits, on example dumps.
use super::rules;
use dump_rules::{Options, Side};
use dump_survey::{omitted_lines, write_advice};
use dump_writer::{MemorySink, Trouble};
use std::alloc::Global;
use std::test::Fail;

fn skipping(alloc: Global, prefix: &str) -> Result<Options, Fail> {
    let options = Options::include(alloc, &[prefix.as_bytes()])?;
    Ok(options.with_skip_missing(true))
}

/// The number of lines that the filter omits under this prefix from a dump that has a directory `trunk` with a
/// property block. `block` has the block's length and the block.
fn omitted(alloc: Global, prefix: &str, block: &str) -> Result<usize, Fail> {
    let dump = format!(in alloc;
        "SVN-fs-dump-format-version: 2\n\nRevision-number: 0\n\nNode-path: trunk\nProp-content-length: {block}"
    )?;
    let options = skipping(alloc, prefix)?;
    Ok(omitted_lines(dump.as_bytes(), &options))
}

#[test]
fn lines_of_paths_that_are_not_kept_are_counted(rt: HostRuntime) -> Result<(), Fail> {
    let rows = [
        (
            "67\n\nK 13\nsvn:mergeinfo\nV 32\n/branch:1\n/trunk/a:1\n/tags:1-2*\n\nPROPS-END\n",
            2usize,
        ),
        (
            "45\n\nK 13\nsvn:mergeinfo\nV 10\n/trunk:1:2\nPROPS-END\n",
            1,
        ),
        ("43\n\nK 13\nsvn:mergeinfo\nV 9\n/trunk:1\n\nPROPS-END\n", 0),
        ("35\n\nK 13\nsvn:mergeinfo\nV 1\n\n\nPROPS-END\n", 0),
        (
            "50\n\nK 13\nsvn:mergeinfo\nV 15\n/branch:1\n/tags\nPROPS-END\n",
            0,
        ),
    ];
    for (block, wanted) in rows {
        let trunk = omitted(rt.alloc(), "trunk", block)?;
        let branch = omitted(rt.alloc(), "branch", block)?;
        assert!(rt; (trunk, branch) == (wanted, 0), "{block}");
    }
    Ok(())
}

const MERGED: &[u8] =
    b"SVN-fs-dump-format-version: 2\n\nRevision-number: 0\n\nRevision-number: 1\n\n\
Node-path: a/b\nProp-content-length: 43\n\nK 13\nsvn:mergeinfo\nV 9\n/branch:1\nPROPS-END\n";

/// Whether the advice for the dump `MERGED` is these lines.
fn has_lines_after(alloc: Global, options: &Options, lines: &[u8]) -> bool {
    let mut sink = MemorySink::new(alloc, 8, Trouble::Never);
    let written = write_advice(alloc, MERGED, options, true, &mut sink);
    written == Ok(()) && sink.taken() == lines
}

#[test]
fn the_number_is_before_the_directories(rt: HostRuntime) -> Result<(), Fail> {
    let options = skipping(rt.alloc(), "a/b")?;
    let lines = b"dropped from svn:mergeinfo: 1 line of an excluded path\ncreate first: /a\n";
    assert!(rt; has_lines_after(rt.alloc(), &options, lines.as_slice()));
    Ok(())
}

#[test]
fn without_the_option_nothing_is_omitted(rt: HostRuntime) -> Result<(), Fail> {
    let options = rules(rt.alloc(), Side::Include, "a/b")?;
    assert!(rt; has_lines_after(rt.alloc(), &options, b"create first: /a\n"));
    Ok(())
}
