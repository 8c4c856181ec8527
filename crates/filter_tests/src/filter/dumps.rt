//! Which parts of a dump are borrowed, and what is written for each record.

use crate::filter::blocks::{
    OTHER, REVISION_0, REVISION_1, SPELLED_REVISION_7, SPELLED_TRUNK, TRUNK, TRUNK_2, TRUNK_A,
    UUID, VERSION,
};
use crate::filter::{Asked, include, outcome, preserve, report};
use dump_filter::keeps_empty;
use dump_rules::Empty;
use std::alloc::Global;
use std::process::Abort;

/// Whether all of a dump is kept, and this many chunks are owned.
fn is_made(alloc: Global, dump: &[&[u8]], made: u64) -> bool {
    match outcome(alloc, &preserve(b"/"), dump) {
        Some((answer, out)) => answer.is_ok() && out.sound && out.made == made,
        None => false,
    }
}

/// The filter makes new lines if a length changes, and a new property block if it spells a length in another way.
#[test]
fn what_stays_is_lent(rt: HostRuntime) {
    let lent = [VERSION, UUID, REVISION_0, REVISION_1, TRUNK];
    assert!(rt; is_made(rt.alloc(), &lent, 0));
    assert!(rt; is_made(rt.alloc(), &[VERSION, SPELLED_REVISION_7], 1));
    assert!(rt; is_made(rt.alloc(), &[VERSION, REVISION_0, SPELLED_TRUNK], 2));
}

/// Whether a dump is filtered to its end with these counts, and the output has these lengths after each record.
fn is_written_in_steps(
    alloc: Global,
    asked: Asked<'_>,
    dump: &[&[u8]],
    counts: (u64, u64, u64, u64),
    lengths: &[usize],
) -> bool {
    match outcome(alloc, &asked, dump) {
        Some((answer, out)) => {
            answer == Ok(report(counts)) && out.sound && out.lengths.as_slice() == lengths
        }
        None => false,
    }
}

#[test]
fn a_revision_is_held_back(rt: HostRuntime) {
    let dump = [VERSION, REVISION_0, REVISION_1, OTHER];
    let (trunk, kept) = (preserve(b"trunk"), [31, 31, 151, 151, 271]);
    assert!(rt; is_written_in_steps(rt.alloc(), trunk, &dump, (2, 0, 0, 1), &kept));
    let (trunk, padded) = (include(b"trunk"), [31, 31, 151, 151, 329]);
    assert!(rt; is_written_in_steps(rt.alloc(), trunk, &dump, (2, 0, 0, 1), &padded));
}

#[test]
fn a_held_revision_stands_before_its_first_node(rt: HostRuntime) {
    let dump = [VERSION, REVISION_0, REVISION_1, TRUNK, TRUNK_A, TRUNK_2];
    let (trunk, lengths) = (preserve(b"trunk"), [31, 31, 151, 376, 483, 483, 483]);
    assert!(rt; is_written_in_steps(rt.alloc(), trunk, &dump, (2, 0, 2, 1), &lengths));
}

#[test]
fn empty_revisions_are_kept_by_the_options(rt: HostRuntime) {
    assert!(rt; keeps_empty(Empty::Pad, true) && keeps_empty(Empty::Pad, false));
    assert!(rt; keeps_empty(Empty::DropEmptied, true) && !keeps_empty(Empty::DropEmptied, false));
    assert!(rt; !keeps_empty(Empty::DropAll, true) && !keeps_empty(Empty::DropAll, false));
}
