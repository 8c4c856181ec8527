//! What a load changes of the meaning of mergeinfo.
use crate::loaded_mergeinfo::loaded_mergeinfo;
use crate::numbering::{Numbering, Place};
use crate::read_mergeinfo::{Lines, read_mergeinfo};
use crate::spans::{Span, ends_of, is_inheritable, push_span, span_after, union};
use dump_rules::Memory;
use std::alloc::Global;

/// Numbers of a path, as the new repository has them.
#[derive(Drop)]
pub struct PathSpans {
    /// In canonical form, without a leading slash.
    pub path: Vec<u8>,
    pub spans: Vec<Span>,
}

/// What a load does to a value of `svn:mergeinfo`.
#[derive(Drop)]
pub enum ChangedMergeinfo {
    /// It changes nothing of its meaning.
    Same,
    /// It stops there.
    Rejected,
    /// It changes it. The numbers are those of revisions that the new repository has.
    Changed {
        /// The value had them, and has them no more.
        lost: Vec<PathSpans>,
        /// They lose the mark `*`.
        unmarked: Vec<PathSpans>,
        /// The value did not have them.
        gained: Vec<PathSpans>,
    },
}

/// The numbers of the new repository that a line means: those that it has, and those that numbers in gaps may mean.
#[derive(Drop)]
struct Meant {
    sure: Vec<Span>,
    possible: Vec<Span>,
}

/// Appends the numbers of one kind from `first` to `last`, which have these numbers in the new repository.
fn push_numbers(
    spans: &mut Vec<Span>,
    first: u64,
    count: u64,
    inheritable: bool,
) -> Result<(), Memory> {
    Ok(spans.push(Span {
        start: first.saturating_sub(1),
        end: first.saturating_sub(1).saturating_add(count),
        inheritable,
    })?)
}

/// Appends what the numbers of a span from `from` on mean, up to where a run of the dump or a gap ends. The result is the
/// number after that.
fn push_meant(
    numbering: &Numbering,
    from: u64,
    span: Span,
    meant: &mut Meant,
) -> Result<u64, Memory> {
    match numbering.place_of(from) {
        Place::Own(number) => {
            let end = numbering.run_end(from).unwrap_or(from).min(span.end);
            let count = end.saturating_sub(from).saturating_add(1);
            push_numbers(&mut meant.sure, number, count, span.inheritable)?;
            Ok(end.saturating_add(1))
        }
        Place::Gap(number) => {
            push_numbers(&mut meant.possible, number, 1, span.inheritable)?;
            Ok(numbering.next_run(from).unwrap_or(u64::MAX))
        }
        Place::Before => {
            let next = numbering.next_run(from).unwrap_or(u64::MAX);
            // the repository has these revisions only if the dump goes on where it ends
            if numbering.before().saturating_add(1) == next {
                let end = next.saturating_sub(1).min(span.end);
                let count = end.saturating_sub(from).saturating_add(1);
                push_numbers(&mut meant.sure, from, count, span.inheritable)?;
            }
            Ok(next)
        }
        Place::After => Ok(u64::MAX),
    }
}

/// What these numbers mean. Of a number that the new repository has twice, one without the mark counts.
fn meant_by(alloc: Global, spans: &[Span], numbering: &Numbering) -> Result<Meant, Memory> {
    let mut meant = Meant {
        sure: Vec::new(alloc),
        possible: Vec::new(alloc),
    };
    for span in spans {
        let mut from = span.start.saturating_add(1);
        // no span has more numbers
        for _ in 0..u64::MAX {
            if from > span.end {
                break;
            }
            from = push_meant(numbering, from, *span, &mut meant)?;
        }
    }
    // several numbers of a gap may mean the same one
    let possible = union(alloc, &[], &meant.possible)?;
    Ok(Meant {
        sure: meant.sure,
        possible,
    })
}

/// The spans up to a number.
fn up_to(alloc: Global, spans: &[Span], last: u64) -> Result<Vec<Span>, Memory> {
    let mut found = Vec::new(alloc);
    for span in spans {
        if span.start < last {
            found.push(Span {
                end: span.end.min(last),
                ..*span
            })?;
        }
    }
    Ok(found)
}

/// What a load changes of a line: numbers that are lost, that lose the mark, and that are gained.
#[derive(Drop)]
struct Changes {
    lost: Vec<Span>,
    unmarked: Vec<Span>,
    gained: Vec<Span>,
}

/// What is other in `have` than what was meant.
fn changes_of(alloc: Global, meant: &Meant, have: &[Span]) -> Result<Changes, Memory> {
    let ends = ends_of(alloc, &[&meant.sure, &meant.possible, have])?;
    let mut changes = Changes {
        lost: Vec::new(alloc),
        unmarked: Vec::new(alloc),
        gained: Vec::new(alloc),
    };
    for (start, end) in ends.iter().zip(ends.iter().skip(1)) {
        let numbers = Span {
            start: *start,
            end: *end,
            inheritable: true,
        };
        let wanted = span_after(&meant.sure, *start);
        let found = span_after(have, *start);
        let is_possible = span_after(&meant.possible, *start).is_some();
        match (wanted, found) {
            (Some(_), None) => push_span(&mut changes.lost, numbers)?,
            (Some(wanted), Some(_)) if !wanted.inheritable && is_inheritable(found) => {
                push_span(&mut changes.unmarked, numbers)?;
            }
            (None, Some(_)) if !is_possible => push_span(&mut changes.gained, numbers)?,
            _ => {}
        }
    }
    Ok(changes)
}

/// Appends the numbers of a path, if there are any.
fn push_path(
    alloc: Global,
    all: &mut Vec<PathSpans>,
    path: &[u8],
    spans: Vec<Span>,
) -> Result<(), Memory> {
    if !spans.is_empty() {
        let path = Vec::from_slice(alloc, path)?;
        all.push(PathSpans { path, spans })?;
    }
    Ok(())
}

/// What is other in the loaded lines than in the given ones. A load makes no line of a path that has none.
fn compared(
    alloc: Global,
    lines: &Lines,
    loaded: &Lines,
    numbering: &Numbering,
) -> Result<ChangedMergeinfo, Memory> {
    let mut lost = Vec::new(alloc);
    let mut unmarked = Vec::new(alloc);
    let mut gained = Vec::new(alloc);
    for (path, spans) in lines {
        let meant = meant_by(alloc, spans, numbering)?;
        let have = match loaded.get(path.as_slice()) {
            Some(spans) => up_to(alloc, spans, numbering.youngest())?,
            None => Vec::new(alloc),
        };
        let changes = changes_of(alloc, &meant, &have)?;
        push_path(alloc, &mut lost, path, changes.lost)?;
        push_path(alloc, &mut unmarked, path, changes.unmarked)?;
        push_path(alloc, &mut gained, path, changes.gained)?;
    }
    if lost.is_empty() && unmarked.is_empty() && gained.is_empty() {
        return Ok(ChangedMergeinfo::Same);
    }
    Ok(ChangedMergeinfo::Changed {
        lost,
        unmarked,
        gained,
    })
}

/// What a load does to a value of `svn:mergeinfo` that is set in the revision `present`.
pub fn changed_mergeinfo(
    alloc: Global,
    value: &[u8],
    numbering: &Numbering,
    present: u64,
) -> Result<ChangedMergeinfo, Memory> {
    let Some(lines) = read_mergeinfo(alloc, value)? else {
        return Ok(ChangedMergeinfo::Rejected);
    };
    match loaded_mergeinfo(alloc, &lines, numbering, present)? {
        Some(loaded) => compared(alloc, &lines, &loaded, numbering),
        None => Ok(ChangedMergeinfo::Rejected),
    }
}
