//! What a load makes of mergeinfo.
use crate::numbering::{Numbering, Place};
use crate::read_mergeinfo::Lines;
use crate::spans::{Span, canonical, runs_of, union};
use dump_rules::Memory;
use std::alloc::Global;

/// The numbers below the dump's first one that stay: without the mark, and without each run that has 1.
fn earlier(alloc: Global, spans: &[Span], first: u64, offset: u64) -> Result<Vec<Span>, Memory> {
    let mut below = Vec::new(alloc);
    for span in spans {
        if span.start.saturating_add(1) < first {
            below.push(Span {
                start: span.start,
                end: span.end.min(first.saturating_sub(1)),
                inheritable: true,
            })?;
        }
    }
    let mut kept = Vec::new(alloc);
    for run in &runs_of(alloc, &below)? {
        if run.start > offset && run.end > offset {
            kept.push(Span {
                start: run.start - offset,
                end: run.end - offset,
                inheritable: true,
            })?;
        }
    }
    Ok(kept)
}

/// The runs of the numbers from the dump's first one on.
fn later(alloc: Global, spans: &[Span], first: u64) -> Result<Vec<Span>, Memory> {
    let mut above = Vec::new(alloc);
    for span in spans {
        if span.end >= first {
            above.push(Span {
                start: span.start.max(first.saturating_sub(1)),
                ..*span
            })?;
        }
    }
    runs_of(alloc, &above)
}

/// A span with the numbers that a load of the revision `present` has for its ends.
fn renumbered(numbering: &Numbering, first: u64, present: u64, span: Span) -> Span {
    let is_before_first = span.start.saturating_add(1) == first && first < present;
    let start = match numbering.known_at(present, span.start) {
        Some(start) => start,
        None if is_before_first => numbering.before(),
        None => return span,
    };
    Span {
        start,
        end: numbering.known_at(present, span.end).unwrap_or(span.end),
        inheritable: span.inheritable,
    }
}

/// Whether each span has a number.
fn have_numbers(spans: &[Span]) -> bool {
    spans.iter().all(|span| span.start < span.end)
}

/// The spans of a line after a load; `None` if the load stops there.
fn loaded_spans(
    alloc: Global,
    spans: &[Span],
    numbering: &Numbering,
    present: u64,
) -> Result<Option<Vec<Span>>, Memory> {
    let first = numbering.first().unwrap_or(0);
    let offset = match numbering.place_of(present) {
        Place::Own(number) => present.saturating_sub(number),
        _ => 0,
    };
    let (kept, above) = if first > 1 {
        (
            earlier(alloc, spans, first, offset)?,
            later(alloc, spans, first)?,
        )
    } else {
        (Vec::new(alloc), Vec::from_slice(alloc, spans)?)
    };
    let mut moved = Vec::new(alloc);
    for span in &above {
        moved.push(renumbered(numbering, first, present, *span))?;
    }
    let Some(found) = canonical(alloc, &moved)? else {
        return Ok(None);
    };
    if !have_numbers(&found) || !kept.is_empty() && (!have_numbers(&moved) || found != moved) {
        return Ok(None);
    }
    if kept.is_empty() {
        return Ok(Some(found));
    }
    Ok(Some(union(alloc, &found, &kept)?))
}

/// The lines of a value of the revision `present` after a load; `None` if the load stops there.
pub(crate) fn loaded_mergeinfo(
    alloc: Global,
    lines: &Lines,
    numbering: &Numbering,
    present: u64,
) -> Result<Option<Lines>, Memory> {
    let mut loaded = Lines::new(alloc);
    for (path, spans) in lines {
        let Some(found) = loaded_spans(alloc, spans, numbering, present)? else {
            return Ok(None);
        };
        if found.is_empty() {
            continue;
        }
        if std::str::from_utf8(path).is_err() {
            return Ok(None);
        }
        loaded.insert(Vec::from_slice(alloc, path)?, found)?;
    }
    Ok(Some(loaded))
}
