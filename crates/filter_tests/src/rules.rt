//! What no contract says: worked examples, one call of each function, and allocations that fail.
use dump_rules::{
    Memory, Options, Reach, Side, bare_path, bare_prefix, merge_path_of, merge_reads, without_lf,
};
use std::alloc::{AllocError, Global};
use std::process::Abort;
use std::test::Fail;

mod mixed_lists;
mod prefixes;
mod rewriting;

fn options(alloc: Global, side: Side, prefixes: &[&[u8]]) -> Result<Options, Memory> {
    match side {
        Side::Include => Options::include(alloc, prefixes),
        Side::Exclude => Options::exclude(alloc, prefixes),
    }
}

fn has_images(reach: &Reach, rows: &[(u64, Option<u64>)]) -> bool {
    for (revision, image) in rows {
        if reach.reach(*revision) != *image {
            return false;
        }
    }
    true
}

#[test]
fn images_are_of_the_last_kept_revision(rt: HostRuntime) -> Result<(), Fail> {
    let mut reach = Reach::new(rt.alloc(), 5);
    let empty = reach.first() == 5 && reach.count() == 0 && has_images(&reach, &[(100, None)]);
    reach.push(6)?;
    reach.push(9)?;
    let (fifth, sixth) = (Some(5), Some(6));
    let rows = [(5, None), (6, fifth), (8, fifth), (9, sixth), (100, sixth)];
    assert!(rt; empty && reach.count() == 2 && has_images(&reach, &rows));
    Ok(())
}

/// Run with each allocation failing in turn: the revision is added, or the table is unchanged and takes the next one.
#[test]
fn push_or_no_memory(rt: HostRuntime) {
    let mut reach = Reach::new(rt.alloc(), 5);
    for revision in 6..20u64 {
        let kept = reach.count();
        let last = reach.reach(revision);
        let pushed = reach.push(revision).is_ok();
        let image = if pushed { kept.checked_add(5) } else { last };
        let counted = reach.count().checked_sub(kept) == Some(u64::from(pushed));
        assert!(rt; counted && has_images(&reach, &[(revision, image)]));
    }
}

const LINES: [(&[u8], bool); 15] = [
    (b"", true),
    (b"\n", true),
    (b"\n\n", false),
    (b"/a:", true),
    (b"/a:0", false),
    (b"/a:3-2", false),
    (b":1", false),
    (b"/a:b:1", true),
    (b"/a:1,,2", false),
    (b"/a:1\n\n", false),
    (b"/a:1-4,6*\n/b:2\n", true),
    (b"/a:1\n\n/b:2", false),
    (b"/a:1-999999999999999999", true),
    (b"/a:1000000000000000000", false),
    (b"/a", false),
];

#[test]
fn mergeinfo_is_lines_of_ranges(rt: HostRuntime) {
    for (value, reads) in &LINES {
        assert!(rt; merge_reads(value) == *reads, "{value:?}");
    }
}

const STARS: [(&[u8], bool); 7] = [
    (b"/a:5*,1-4", true),
    (b"/a:5*,1-6", false),
    (b"/a:1-4,3*", false),
    (b"/a:4-9*,1-4", false),
    (b"/a:3-8,5,1-4", true),
    (b"/a:7*,5-6,1*", true),
    (b"/a:1\n/a:1*", true),
];

#[test]
fn no_revision_stands_with_a_star_and_without(rt: HostRuntime) {
    for (value, reads) in &STARS {
        assert!(rt; merge_reads(value) == *reads, "{value:?}");
    }
}

/// This many single numbers that fall from the first one; every second one has a star.
fn falling(alloc: Global, first: u64, count: u64) -> Result<String, AllocError> {
    let mut text = format!(in alloc; "{first}")?;
    for n in 1..count {
        let lower = first.saturating_sub(n);
        let star = if n % 2 == 0 { "" } else { "*" };
        text.push_str(&format!(in alloc; ",{lower}{star}")?)?;
    }
    Ok(text)
}

/// Whether the text is mergeinfo if it is put between `before` and `after`.
fn is_read_between(
    alloc: Global,
    before: &str,
    text: &str,
    behind: &str,
) -> Result<bool, AllocError> {
    let mut value = String::from_str(alloc, "/a:")?;
    value.push_str(before)?;
    value.push_str(text)?;
    value.push_str(behind)?;
    Ok(merge_reads(value.as_bytes()))
}

/// Whether a text is mergeinfo between the two strings of each row, or not, as the row says.
fn are_read_between(
    alloc: Global,
    text: &str,
    rows: &[(&str, &str, bool)],
) -> Result<bool, AllocError> {
    for (before, behind, reads) in rows {
        if is_read_between(alloc, before, text, behind)? != *reads {
            return Ok(false);
        }
    }
    Ok(true)
}

#[test]
fn long_lists_of_both_kinds_in_any_order(rt: HostRuntime) -> Result<(), Fail> {
    let rows = [
        ("", "", true),
        ("", ",1000*", false),
        ("", ",998-999", false),
        ("", ",0", false),
        ("", ",", false),
        ("", ",7-6*", false),
    ];
    let list = falling(rt.alloc(), 1000, 200)?;
    assert!(rt; are_read_between(rt.alloc(), list.as_str(), &rows)?);
    Ok(())
}

#[test]
fn slashes_at_the_ends_do_not_count(rt: HostRuntime) {
    let prefix = bare_prefix(b"//trunk/");
    let path = bare_path(b"/trunk/a");
    assert!(rt; prefix == b"trunk".as_slice() && path == b"trunk/a".as_slice());
}

#[test]
fn the_path_of_a_line_may_have_colons(rt: HostRuntime) {
    let path = merge_path_of(without_lf(b"/a:b:1-4\n"));
    assert!(rt; path == b"/a:b".as_slice());
}
