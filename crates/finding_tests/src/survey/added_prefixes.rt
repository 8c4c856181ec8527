//! The prefixes to add, on example dumps.
use super::{are_words, one_prefix, rules};
use dump_rules::{Options, Side};
use dump_survey::{Memory, prefixes_to_add, write_advice};
use dump_writer::{MemorySink, Trouble};
use std::alloc::Global;
use std::process::Abort;
use std::test::Fail;

const CHAIN: &[u8] =
    b"SVN-fs-dump-format-version: 2\n\nRevision-number: 0\n\nRevision-number: 1\n\n\
Node-path: b\nNode-kind: dir\nNode-action: add\nNode-copyfrom-rev: 0\nNode-copyfrom-path: a\n\n\n\
Node-path: c\nNode-kind: dir\nNode-action: add\nNode-copyfrom-rev: 0\nNode-copyfrom-path: b\n\n\n";

const NESTED: &[u8] =
    b"SVN-fs-dump-format-version: 2\n\nRevision-number: 0\n\nRevision-number: 1\n\n\
Node-path: x/2\nNode-kind: dir\nNode-action: add\nNode-copyfrom-rev: 0\nNode-copyfrom-path: t\n\n\n\
Node-path: x\nNode-kind: dir\nNode-action: add\nNode-copyfrom-rev: 0\nNode-copyfrom-path: /t/u\n\n\n";

const WANTED: [(Side, &str, &[u8], &str); 8] = [
    (Side::Include, "c", CHAIN, "b a "),
    (Side::Include, "b", CHAIN, "a "),
    (Side::Include, "a", CHAIN, ""),
    (Side::Exclude, "a", CHAIN, "b c "),
    (Side::Exclude, "c", CHAIN, ""),
    (Side::Include, "x", NESTED, "t "),
    (Side::Include, "x/y", NESTED, ""),
    (Side::Exclude, "t", NESTED, "x "),
];

/// Whether these are the prefixes to add for a dump; `wanted` has a blank after each.
fn are_to_add(
    alloc: Global,
    side: Side,
    prefix: &str,
    dump: &[u8],
    wanted: &str,
) -> Result<bool, Fail> {
    let options = rules(alloc, side, prefix)?;
    let paths = prefixes_to_add(alloc, dump, &options)?;
    Ok(are_words(&paths, wanted))
}

#[test]
fn what_copies_need_is_to_be_added(rt: HostRuntime) -> Result<(), Fail> {
    for (side, prefix, dump, wanted) in &WANTED {
        assert!(rt;
            are_to_add(rt.alloc(), *side, prefix, dump, wanted)?,
            "{prefix}"
        );
    }
    Ok(())
}

/// The test runner repeats this with each allocation failing in turn. The prefixes are complete, or the error is
/// `Memory`.
#[test]
fn prefixes_to_add_or_no_memory(rt: HostRuntime) {
    let Ok(options) = one_prefix(rt.alloc(), Side::Include, b"c") else {
        return;
    };
    let answered = match prefixes_to_add(rt.alloc(), CHAIN, &options) {
        Ok(paths) => paths.len() == 2,
        Err(refused) => refused == Memory,
    };
    assert!(rt; answered);
}

/// The same test for the lines of the advice.
#[test]
fn advice_or_no_memory(rt: HostRuntime) {
    let Ok(options) = Options::include(rt.alloc(), &[b"x/y", b"c"]) else {
        return;
    };
    let mut sink = MemorySink::new(rt.alloc(), 8, Trouble::Never);
    let written = write_advice(rt.alloc(), CHAIN, &options, true, &mut sink);
    let lines = b"create first: /x\nalso include: /b\nalso include: /a\n".as_slice();
    assert!(rt; written.is_err() || sink.taken() == lines);
}
