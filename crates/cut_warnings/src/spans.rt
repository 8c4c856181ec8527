//! Spans of revision numbers, and lists of them.
use dump_rules::Memory;
use std::alloc::Global;

/// Numbers that follow each other, as a load keeps a range of mergeinfo.
#[derive(Clone, Copy, Debug, PartialEq, Eq)]
pub struct Span {
    /// The number before the first.
    pub start: u64,
    /// The last number.
    pub end: u64,
    /// Whether the numbers lack the mark `*`.
    pub inheritable: bool,
}

/// How a span goes on from the one before it in a sorted list.
enum Next {
    /// Both are one, up to this number.
    Joined(u64),
    Apart,
    /// A number is in both, with the mark in one of them.
    Contradicts,
}

fn next_of(last: Span, next: Span) -> Next {
    if next.start > last.end || last.start > next.end {
        return Next::Apart;
    }
    if next.inheritable == last.inheritable {
        return Next::Joined(last.end.max(next.end));
    }
    if next.start < last.end {
        Next::Contradicts
    } else {
        Next::Apart
    }
}

/// The same numbers, sorted, with spans joined that touch and are of one kind. `None` if a number is there with the mark
/// and without it.
pub(crate) fn canonical(alloc: Global, spans: &[Span]) -> Result<Option<Vec<Span>>, Memory> {
    let mut sorted = Vec::from_slice(alloc, spans)?;
    sorted.sort_unstable_by(|a, b| a.start.cmp(&b.start).then(a.end.cmp(&b.end)));
    let mut found: Vec<Span> = Vec::new(alloc);
    for span in &sorted {
        let next = match found.last() {
            Some(last) => next_of(*last, *span),
            None => Next::Apart,
        };
        match next {
            Next::Joined(end) => end_at(&mut found, end),
            Next::Apart => found.push(*span)?,
            Next::Contradicts => return Ok(None),
        }
    }
    Ok(Some(found))
}

/// Moves the end of the last span.
fn end_at(spans: &mut Vec<Span>, end: u64) {
    if let Some(last) = spans.last_mut() {
        last.end = end;
    }
}

/// Appends a span to a sorted list, or joins it to the last one if it touches that and is of its kind.
pub(crate) fn push_span(spans: &mut Vec<Span>, span: Span) -> Result<(), Memory> {
    match spans.last() {
        Some(last) if last.end == span.start && last.inheritable == span.inheritable => {
            end_at(spans, span.end);
        }
        _ => spans.push(span)?,
    }
    Ok(())
}

/// The span of a sorted list that has the number after this one.
pub(crate) fn span_after(spans: &[Span], number: u64) -> Option<Span> {
    let place = spans.partition_point(|span| span.end <= number);
    match spans.get(place) {
        Some(span) if span.start <= number => Some(*span),
        _ => None,
    }
}

/// The starts and ends of the spans of some lists, sorted, each once.
pub(crate) fn ends_of(alloc: Global, lists: &[&[Span]]) -> Result<Vec<u64>, Memory> {
    let mut ends: Vec<u64> = Vec::new(alloc);
    for spans in lists {
        for span in *spans {
            ends.push(span.start)?;
            ends.push(span.end)?;
        }
    }
    ends.sort_unstable();
    let mut once: Vec<u64> = Vec::new(alloc);
    for end in &ends {
        if once.last() != Some(end) {
            once.push(*end)?;
        }
    }
    Ok(once)
}

/// The numbers of two sorted lists; one that lacks the mark in either lacks it.
pub(crate) fn union(alloc: Global, one: &[Span], other: &[Span]) -> Result<Vec<Span>, Memory> {
    let ends = ends_of(alloc, &[one, other])?;
    let mut found = Vec::new(alloc);
    for (start, end) in ends.iter().zip(ends.iter().skip(1)) {
        let kinds = [span_after(one, *start), span_after(other, *start)];
        if kinds.iter().all(|span| span.is_none()) {
            continue;
        }
        let span = Span {
            start: *start,
            end: *end,
            inheritable: kinds.iter().any(|span| is_inheritable(*span)),
        };
        push_span(&mut found, span)?;
    }
    Ok(found)
}

/// Whether there is a span, and its numbers lack the mark.
pub(crate) fn is_inheritable(span: Option<Span>) -> bool {
    match span {
        Some(span) => span.inheritable,
        None => false,
    }
}

/// The runs of numbers that follow each other in a sorted list. The numbers of a run have the mark only if it has it at
/// each of them.
pub(crate) fn runs_of(alloc: Global, spans: &[Span]) -> Result<Vec<Span>, Memory> {
    let mut runs: Vec<Span> = Vec::new(alloc);
    for span in spans {
        match runs.last_mut() {
            Some(run) if span.start <= run.end => {
                run.end = run.end.max(span.end);
                run.inheritable = run.inheritable || span.inheritable;
            }
            _ => runs.push(*span)?,
        }
    }
    Ok(runs)
}
