//! What a load does to mergeinfo, and what externals name.
use cut_warnings::{
    ChangedMergeinfo, Hole, Numbering, PathSpans, Target, changed_mergeinfo, read_externals,
};
use dump_rules::Memory;
use std::alloc::Global;
use std::process::Abort;
use std::test::Fail;

fn holes_of(alloc: Global) -> Result<Vec<Hole>, Memory> {
    let numbering = Numbering::of(alloc, &[0, 2, 5], None)?;
    let holes = numbering.holes(alloc)?;
    Ok(holes)
}

#[test]
fn numbers_between_revisions_are_holes(rt: HostRuntime) -> Result<(), Fail> {
    let holes = holes_of(rt.alloc())?;
    let wanted = [Hole { first: 1, last: 1 }, Hole { first: 3, last: 4 }];
    assert!(rt; holes.as_slice() == wanted.as_slice());
    Ok(())
}

/// The numbers of a path from the first after `start` to `end`.
type Numbers = (&'static [u8], u64, u64);

/// What a load does: nothing, it stops, or these numbers are lost, lose the mark and are gained.
enum Wanted {
    Same,
    Rejected,
    Changed(Option<Numbers>, Option<Numbers>, Option<Numbers>),
}

/// Whether one path at most has numbers, and they are these.
fn are_numbers(paths: &[PathSpans], wanted: Option<Numbers>) -> bool {
    match (paths, wanted) {
        ([], None) => true,
        ([one], Some((path, start, end))) => match one.spans.as_slice() {
            [span] => one.path.as_slice() == path && (span.start, span.end) == (start, end),
            _ => false,
        },
        _ => false,
    }
}

fn is_changed(changed: &ChangedMergeinfo, wanted: &Wanted) -> bool {
    match (changed, wanted) {
        (ChangedMergeinfo::Same, Wanted::Same) => true,
        (ChangedMergeinfo::Rejected, Wanted::Rejected) => true,
        (
            ChangedMergeinfo::Changed {
                lost,
                unmarked,
                gained,
            },
            Wanted::Changed(one, two, three),
        ) => are_numbers(lost, *one) && are_numbers(unmarked, *two) && are_numbers(gained, *three),
        _ => false,
    }
}

fn is_loaded(
    alloc: Global,
    numbering: &Numbering,
    present: u64,
    rows: &[(&[u8], Wanted)],
) -> Result<bool, Memory> {
    for (value, wanted) in rows {
        let changed = changed_mergeinfo(alloc, value, numbering, present)?;
        if !is_changed(&changed, wanted) {
            return Ok(false);
        }
    }
    Ok(true)
}

/// Values of revision 6 in the part after revision 3.
const AFTER_THREE: [(&[u8], Wanted); 7] = [
    (b"/p/t:2-3,4-5", Wanted::Same),
    // a run that has 1 is lost up to revision 3, and so is one of both kinds
    (
        b"/p/t:1-3",
        Wanted::Changed(Some((b"p/t", 0, 3)), None, None),
    ),
    (
        b"/p/t:1*,2-3",
        Wanted::Changed(Some((b"p/t", 0, 3)), None, None),
    ),
    (
        b"/p/t:1,3",
        Wanted::Changed(Some((b"p/t", 0, 1)), None, None),
    ),
    (
        b"/p/t:2-5*",
        Wanted::Changed(None, Some((b"p/t", 1, 3)), None),
    ),
    // numbers above 3 lose the mark if they follow others without it
    (
        b"/p/t:4*,5",
        Wanted::Changed(None, Some((b"p/t", 3, 4)), None),
    ),
    // a load reads white space before the ranges, and lines that end with CR LF
    (b"/p/s: 2\r\n/p/t:5", Wanted::Same),
];

#[test]
fn a_part_loses_numbers_and_marks(rt: HostRuntime) -> Result<(), Fail> {
    let numbering = Numbering::of(rt.alloc(), &[4, 5, 6], Some(3))?;
    assert!(rt; is_loaded(rt.alloc(), &numbering, 6, &AFTER_THREE)?);
    Ok(())
}

/// Values of revision 5 in a dump that has revisions 2 and 4 to 6, in an empty repository. The load has numbers of the dump
/// for those in the gap.
const WITH_A_GAP: [(&[u8], Wanted); 4] = [
    (b"/p/t:1-4", Wanted::Same),
    (b"/p/t:2-4", Wanted::Same),
    (b"/p/t:4", Wanted::Rejected),
    // a range with its own revision grows
    (b"/p/t:5", Wanted::Changed(None, None, Some((b"p/t", 3, 4)))),
];

const NO_MERGEINFO: [(&[u8], Wanted); 8] = [
    (b"/p/t", Wanted::Rejected),
    (b"/p/t:", Wanted::Rejected),
    (b"/p/t:2-2", Wanted::Rejected),
    (b"/p/t:0-2", Wanted::Rejected),
    (b"/p/t:1,", Wanted::Rejected),
    (b"/p/t:1*,1-2", Wanted::Rejected),
    (b"/p/t:2147483648", Wanted::Rejected),
    (b"/p/\xff:1", Wanted::Rejected),
];

#[test]
fn a_load_stops_at_some_values(rt: HostRuntime) -> Result<(), Fail> {
    let whole = Numbering::of(rt.alloc(), &[0, 1, 2, 3], None)?;
    assert!(rt; is_loaded(rt.alloc(), &whole, 3, &NO_MERGEINFO)?);
    let gap = Numbering::of(rt.alloc(), &[2, 4, 5, 6], None)?;
    assert!(rt; is_loaded(rt.alloc(), &gap, 5, &WITH_A_GAP)?);
    Ok(())
}

/// A line of a property of the directory `p/q`; the path that it names, if it names one; and its two numbers.
type Row = (
    &'static [u8],
    Option<&'static [u8]>,
    Option<u64>,
    Option<u64>,
);

const EXTERNALS: [Row; 7] = [
    (b"^/lib@4 lib", Some(b"lib"), Some(4), Some(4)),
    (b"-r 3 ^/a%20b@r4 'c d'", Some(b"a b"), Some(3), Some(4)),
    (b"lib -r5 http://host/x", None, Some(5), Some(5)),
    (b"../../x y", Some(b"x"), None, None),
    (b"../../../x y", None, None, None),
    (b"//host/x@2 y", None, Some(2), Some(2)),
    (b"^/x@HEAD a/b", Some(b"x"), None, None),
];

fn is_external(alloc: Global, row: &Row) -> Result<bool, Memory> {
    let (line, path, revision, peg) = *row;
    let Some(externals) = read_externals(alloc, line, b"p/q")? else {
        return Ok(false);
    };
    let [external] = externals.as_slice() else {
        return Ok(false);
    };
    let is_target = match (&external.target, path) {
        (Target::Path(found), Some(path)) => found.as_slice() == path,
        (Target::Elsewhere, None) => true,
        _ => false,
    };
    Ok(is_target && external.line == line && (external.revision, external.peg) == (revision, peg))
}

#[test]
fn externals_name_paths_and_revisions(rt: HostRuntime) -> Result<(), Fail> {
    for row in &EXTERNALS {
        assert!(rt; is_external(rt.alloc(), row)?);
    }
    Ok(())
}

#[test]
fn a_wrong_line_makes_all_externals_void(rt: HostRuntime) -> Result<(), Fail> {
    for value in [
        b"^/a b\n^/c".as_slice(),
        b"^/a ../b",
        b"^/a@x b",
        b"-r HEAD ^/a b",
        b"http://host/a http://host/b",
    ] {
        assert!(rt; read_externals(rt.alloc(), value, b"")?.is_none());
    }
    let read = read_externals(rt.alloc(), b"# none\n\n \r", b"")?;
    assert!(rt; read.is_some_and(|externals| externals.is_empty()));
    Ok(())
}

/// Run with each allocation failing in turn.
#[test]
fn a_load_is_foretold_or_no_memory(rt: HostRuntime) {
    let Ok(numbering) = Numbering::of(rt.alloc(), &[4, 5, 6], Some(3)) else {
        return;
    };
    let answered = match is_loaded(rt.alloc(), &numbering, 6, &AFTER_THREE) {
        Ok(is_right) => is_right,
        Err(Memory) => true,
    };
    assert!(rt; answered);
}
