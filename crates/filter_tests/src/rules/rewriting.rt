//! New values of mergeinfo, and what a value says without being rewritten.
ghost use Rattle.std.specs.Prelude.{◌≤◌, All};

use dump_rules::laws::each_map_has_one_spelling;
use dump_rules::{
    Empty, Memory, Merged, Options, Reach, RewriteFault, merge_reads, new_value, rewrite,
};
use std::alloc::{AllocError, Global};
use std::test::Fail;

fn rules(
    alloc: Global,
    prefix: &[u8],
    renumber: bool,
    skip_missing: bool,
) -> Result<Options, Memory> {
    let options = Options::include(alloc, &[prefix])?.with_empty(Empty::DropEmptied);
    let options = options.with_renumber(renumber);
    Ok(options.with_skip_missing(skip_missing))
}

/// Whether this value, which has to be mergeinfo, is rewritten to this one, or fails with this fault.
fn is_rewritten(
    alloc: Global,
    value: &[u8],
    options: &Options,
    reach: &Reach,
    now: u64,
    wanted: Result<&[u8], RewriteFault>,
) -> bool
    requires { All (λ k. k ≤ now) reach.now.numbers }
{
    if !merge_reads(value) {
        return false;
    }
    match (rewrite(alloc, value, options, reach, now), wanted) {
        (Ok(new), Ok(bytes)) => new.as_slice() == bytes,
        (Err(fault), Err(other)) => fault == other,
        _ => false,
    }
}

/// Whether each of these values is rewritten to the one next to it.
fn are_rewritten(
    alloc: Global,
    rows: &[(&[u8], &[u8])],
    options: &Options,
    reach: &Reach,
    now: u64,
) -> bool
    requires { All (λ k. k ≤ now) reach.now.numbers }
{
    for (value, wanted) in rows {
        if !is_rewritten(alloc, value, options, reach, now, Ok(wanted)) {
            return false;
        }
    }
    true
}

/// Whether each of these values fails with this fault.
fn are_refused(
    alloc: Global,
    values: &[&[u8]],
    options: &Options,
    reach: &Reach,
    now: u64,
    fault: RewriteFault,
) -> bool
    requires { All (λ k. k ≤ now) reach.now.numbers }
{
    for value in values {
        if !is_rewritten(alloc, value, options, reach, now, Err(fault)) {
            return false;
        }
    }
    true
}

#[test]
fn lines_of_kept_paths_are_written_as_runs(rt: HostRuntime) -> Result<(), Fail> {
    let reach = Reach::new(rt.alloc(), 0);
    let all = rules(rt.alloc(), b"/", false, false)?;
    let rows = [
        (b"/a:\n/b:1".as_slice(), b"/b:1".as_slice()),
        (b"/a:1-999999999999999999", b"/a:1-999999999999999999"),
        (b"/a:1\n/b:\n/a:2*", b"/a:1\n/a:2*"),
        (b"", b""),
    ];
    assert!(rt; are_rewritten(rt.alloc(), &rows, &all, &reach, 1));
    Ok(())
}

#[test]
fn lines_under_a_prefix_are_written_as_runs(rt: HostRuntime) -> Result<(), Fail> {
    let reach = Reach::new(rt.alloc(), 0);
    let trunk = rules(rt.alloc(), b"trunk", false, false)?;
    let rows = [
        (b"/trunk:4,1-3".as_slice(), b"/trunk:1-4".as_slice()),
        (b"/trunk:3,1-2*", b"/trunk:1-2*,3"),
        (b"/trunk:2,1\n", b"/trunk:1-2"),
        (b"/trunk:1*", b"/trunk:1*"),
        (b"/trunk:3-8,5,1-4", b"/trunk:1-8"),
        (b"/trunk:001,003", b"/trunk:1,3"),
    ];
    assert!(rt; are_rewritten(rt.alloc(), &rows, &trunk, &reach, 1));
    Ok(())
}

#[test]
fn lines_of_other_paths_are_refused_or_left_out(rt: HostRuntime) -> Result<(), Fail> {
    let reach = Reach::new(rt.alloc(), 0);
    let strict = rules(rt.alloc(), b"trunk", false, false)?;
    let lenient = rules(rt.alloc(), b"trunk", false, true)?;
    let refused = Err(RewriteFault::MergeSource);
    let is_refused = is_rewritten(rt.alloc(), b"/other:1", &strict, &reach, 1, refused);
    let left = Ok(b"/trunk:1".as_slice());
    let is_left = is_rewritten(rt.alloc(), b"/other:1\n/trunk:1", &lenient, &reach, 1, left);
    assert!(rt; is_refused && is_left);
    Ok(())
}

#[test]
fn kept_revisions_get_new_numbers(rt: HostRuntime) -> Result<(), Fail> {
    let mut reach = Reach::new(rt.alloc(), 0);
    reach.push(0)?;
    reach.push(1)?;
    reach.push(4)?;
    reach.push(5)?;
    reach.push(7)?;
    reach.push(8)?;
    let options = rules(rt.alloc(), b"trunk", true, false)?;
    let rows = [
        (b"/trunk:1-4,6*".as_slice(), b"/trunk:1-2".as_slice()),
        (b"/trunk:2-3", b""),
    ];
    assert!(rt; are_rewritten(rt.alloc(), &rows, &options, &reach, 8));
    Ok(())
}

#[test]
fn long_ranges_cost_no_more_than_short_ones(rt: HostRuntime) -> Result<(), Fail> {
    let mut reach = Reach::new(rt.alloc(), 1);
    reach.push(1)?;
    reach.push(500000000000000000)?;
    let options = rules(rt.alloc(), b"/", true, false)?;
    let now = 999999999999999999;
    let rows = [
        (b"/a:1-999999999999999999".as_slice(), b"/a:1-2".as_slice()),
        (b"/a:1,2-999999999999999999*", b"/a:1,2*"),
        (b"/a:2-499999999999999999", b""),
        (b"/a:500000000000000000*,1*", b"/a:1-2*"),
    ];
    assert!(rt; are_rewritten(rt.alloc(), &rows, &options, &reach, now));
    Ok(())
}

#[test]
fn numbers_that_the_dump_cannot_have_are_refused(rt: HostRuntime) -> Result<(), Fail> {
    let mut reach = Reach::new(rt.alloc(), 5);
    reach.push(5)?;
    reach.push(6)?;
    let strict = rules(rt.alloc(), b"/", true, false)?;
    let lenient = rules(rt.alloc(), b"/", true, true)?;
    let values = [
        b"/trunk:4-5".as_slice(),
        b"/trunk:1-999999999999999999",
        b"/trunk:7",
    ];
    let refused = are_refused(
        rt.alloc(),
        &values,
        &strict,
        &reach,
        6,
        RewriteFault::MergeRange,
    );
    let left = Ok(b"/trunk:5".as_slice());
    let is_left = is_rewritten(rt.alloc(), b"/trunk:4-5", &lenient, &reach, 6, left);
    assert!(rt; refused && is_left);
    Ok(())
}

/// What one value says.
fn said(value: &[u8], options: &Options) -> Option<Merged> {
    Merged::new().with(value, options)
}

/// Whether these values miss a source, and whether they have a number that the dump can't have at the revision
/// `present`.
fn faults_of(merged: &Merged, options: &Options, first: u64, present: u64) -> (bool, bool) {
    (
        merged.misses_source(),
        merged.has_foreign_number(options, first, present),
    )
}

/// Whether each of these values has these faults if the first revision is 5 and the present one is 6.
fn have_faults(options: &Options, rows: &[(&[u8], (bool, bool))]) -> bool {
    for (value, faults) in rows {
        match said(value, options) {
            Some(merged) if faults_of(&merged, options, 5, 6) == *faults => {}
            _ => return false,
        }
    }
    true
}

#[test]
fn faults_are_told_without_a_new_value(rt: HostRuntime) -> Result<(), Fail> {
    let strict = rules(rt.alloc(), b"trunk", true, false)?;
    let rows = [
        (b"/trunk:5\n/other:5".as_slice(), (true, false)),
        (b"/trunk:5\n", (false, false)),
        (b"/trunk:4-6", (false, true)),
        (b"/trunk:5-7", (false, true)),
        (b"/trunk:5-6\n/other:4", (true, false)),
    ];
    assert!(rt; have_faults(&strict, &rows) && said(b"/trunk", &strict).is_none());
    Ok(())
}

#[test]
fn faults_are_fewer_where_less_is_asked(rt: HostRuntime) -> Result<(), Fail> {
    let lenient = rules(rt.alloc(), b"trunk", true, true)?;
    let old_numbers = rules(rt.alloc(), b"trunk", false, false)?;
    let rows = [
        (b"/trunk:5\n/other:5".as_slice(), (false, false)),
        (b"/trunk:4-6", (false, false)),
        (b"/trunk:5-7", (false, true)),
    ];
    let fewer = have_faults(&lenient, &rows);
    assert!(rt; fewer && have_faults(&old_numbers, &[(b"/trunk:5-7", (false, false))]));
    Ok(())
}

/// Whether two values together have the faults of both.
fn are_told_together(options: &Options) -> bool {
    let Some(first) = said(b"/trunk:7", options) else {
        return false;
    };
    let Some(both) = first.with(b"/trunk/a:5-6\n/other:9", options) else {
        return false;
    };
    !first.misses_source()
        && faults_of(&both, options, 5, 6) == (true, true)
        && faults_of(&both, options, 6, 7) == (true, true)
        && faults_of(&both, options, 5, 7) == (true, false)
        && first.with(b"x", options).is_none()
}

#[test]
fn values_are_told_together(rt: HostRuntime) -> Result<(), Fail> {
    let strict = rules(rt.alloc(), b"trunk", true, false)?;
    assert!(rt; are_told_together(&strict));
    Ok(())
}

#[test]
fn new_value_of_one_without_a_fault(rt: HostRuntime) -> Result<(), Fail> {
    let options = rules(rt.alloc(), b"/", false, false)?;
    let reach = Reach::new(rt.alloc(), 0);
    let value = b"/trunk:4,1-3\n".as_slice();
    if !merge_reads(value) {
        return Err("no mergeinfo".into());
    }
    let new = new_value(rt.alloc(), value, &options, &reach)?;
    assert!(rt; new.as_slice() == b"/trunk:1-4".as_slice());
    Ok(())
}

/// A line of ten thousand single numbers: those that fall from 10000, or the odd ones.
fn ten_thousand(alloc: Global, falling: bool) -> Result<String, AllocError> {
    let mut line = String::from_str(alloc, if falling { "/a:10000" } else { "/a:1" })?;
    for n in 1..10000u64 {
        let next = if falling { 10000 - n } else { 2 * n + 1 };
        line.push_str(&format!(in alloc; ",{next}")?)?;
    }
    Ok(line)
}

#[test]
fn ten_thousand_ranges_in_any_order(rt: HostRuntime) -> Result<(), Fail> {
    let reach = Reach::new(rt.alloc(), 0);
    let options = rules(rt.alloc(), b"/", false, false)?;
    let down = ten_thousand(rt.alloc(), true)?;
    let odd = ten_thousand(rt.alloc(), false)?;
    let rows = [
        (down.as_bytes(), b"/a:1-10000".as_slice()),
        (odd.as_bytes(), odd.as_bytes()),
    ];
    assert!(rt; are_rewritten(rt.alloc(), &rows, &options, &reach, 1));
    Ok(())
}

/// Run with each allocation failing in turn: the call returns a new value, or the error for memory.
#[test]
fn new_value_or_no_memory(rt: HostRuntime) -> Result<(), Fail> {
    each_map_has_one_spelling();
    let reach = Reach::new(rt.alloc(), 0);
    let Ok(options) = rules(rt.alloc(), b"/", false, false) else {
        return Ok(());
    };
    let value = b"/a:4,1-3\n/b:9,7,5,3,1".as_slice();
    if !merge_reads(value) {
        return Err("no mergeinfo".into());
    }
    let answered = match rewrite(rt.alloc(), value, &options, &reach, 1) {
        Ok(new) => new.as_slice() == b"/a:1-4\n/b:1,3,5,7,9".as_slice(),
        Err(fault) => fault == RewriteFault::Memory,
    };
    assert!(rt; answered);
    Ok(())
}
