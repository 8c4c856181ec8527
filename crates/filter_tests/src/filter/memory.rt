//! An allocation that fails closes the filter.

use crate::filter::blocks::{
    OTHER, PADDING_1, RESPELLED_DELETION, RESPELLED_TRUNK, REVISION_0, REVISION_1, REVISION_2,
    REVISION_3, REVISION_7, REVISION_9, SPELLED_DELETION, SPELLED_TRUNK, TAG_OF_TRUNK_2,
    TAG_OF_TRUNK_7, TRUNK, TRUNK_MERGED_1, TRUNK_MERGED_1_TO_7, VERSION, VERSION_3,
};
use crate::filter::{Asked, include, outcome, preserve, renumber, report};
use dump_filter::StepFault;
use std::alloc::Global;
use std::process::Abort;

/// Whether the filter writes all of a dump, with these counts, or an allocation fails, and it is closed after the
/// first part of the output.
fn is_whole_or_closed(
    alloc: Global,
    asked: Asked<'_>,
    dump: &[&[u8]],
    written: &[&[u8]],
    counts: (u64, u64, u64, u64),
) -> bool {
    match outcome(alloc, &asked, dump) {
        Some((Ok(counted), out)) => out.sound && counted == report(counts) && out.is_of(written),
        Some((Err(fault), out)) => out.sound && fault == StepFault::Memory && out.begins(written),
        None => true,
    }
}

/// Run with each allocation failing in turn: one call of the filter runs out of memory, and the filter is closed after
/// it.
#[test]
fn a_refused_allocation_closes_the_filter(rt: HostRuntime) {
    let trunk = preserve(b"trunk");
    let dump = [VERSION, REVISION_0, REVISION_1, TRUNK];
    assert!(rt; is_whole_or_closed(rt.alloc(), trunk, &dump, &dump, (2, 0, 1, 0)));
}

/// The same, if revisions are padded and get new numbers, and copies of them too.
#[test]
fn a_refused_allocation_closes_the_filter_that_pads(rt: HostRuntime) {
    let trunk = Asked {
        renumber: true,
        ..include(b"trunk")
    };
    let dump = [
        VERSION,
        REVISION_0,
        REVISION_1,
        OTHER,
        REVISION_7,
        SPELLED_TRUNK,
        REVISION_9,
        TAG_OF_TRUNK_7,
    ];
    let written = [
        VERSION,
        REVISION_0,
        PADDING_1,
        REVISION_2,
        RESPELLED_TRUNK,
        REVISION_3,
        TAG_OF_TRUNK_2,
    ];
    assert!(rt; is_whole_or_closed(rt.alloc(), trunk, &dump, &written, (4, 0, 2, 1)));
}

/// The same, if properties are deleted.
#[test]
fn a_refused_allocation_closes_the_filter_of_deletions(rt: HostRuntime) {
    let dump = [VERSION_3, REVISION_0, SPELLED_DELETION];
    let written = [VERSION_3, REVISION_0, RESPELLED_DELETION];
    assert!(rt; is_whole_or_closed(rt.alloc(), include(b"/"), &dump, &written, (1, 0, 1, 0)));
}

/// The same, if mergeinfo gets new numbers.
#[test]
fn a_refused_allocation_closes_the_filter_of_mergeinfo(rt: HostRuntime) {
    let trunk = renumber(b"trunk");
    let written = [VERSION, REVISION_0, REVISION_1, TRUNK_MERGED_1];
    let merged = [
        VERSION,
        REVISION_0,
        REVISION_1,
        OTHER,
        REVISION_7,
        TRUNK_MERGED_1_TO_7,
    ];
    assert!(rt; is_whole_or_closed(rt.alloc(), trunk, &merged, &written, (2, 1, 1, 1)));
}
