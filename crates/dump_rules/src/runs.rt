//! Computes the new ranges of a line of mergeinfo, and writes them.
ghost use Rattle.std.specs.Prelude.{◌≡◌, ◌+◌, ◌<◌, ◌++◌, ◌==◌, [], IfOk, OnOk, codes, drop, if◌then◌else◌, length, map, option_map, take};
ghost use Rattle.dump_text.specs.Number.{spelled_number};
ghost use Rattle.dump_rules.specs.steps.NewRanges.{list_new, part_range, parts_ranges};
ghost use Rattle.dump_rules.specs.RangeList.{IsConsistent, run_text, runs_text};
ghost use Rattle.dump_rules.specs.steps.ReadRanges.{range_of, range_parts, span_range};
ghost use Rattle.dump_rules.specs.steps.Runs.{HaveNumbers, joined, joined_from, reaching, runs_of, touches, with_range};

use crate::memory::Memory;
use crate::ranges::{Span, range};
use crate::reach::Reach;
use dump_text::{find, spell};
use std::alloc::Global;

impl Span {
    /// Whether the ranges are of one kind, and the other begins in this one or directly after it.
    fn touches(self, other: Span) -> bool
        ensures { result ≡ touches (span_range self) (span_range other) }
    {
        self.inheritable == other.inheritable && other.from <= self.to.saturating_add(1)
    }

    /// The range with its end raised to this number, if that is higher.
    fn reaching(self, to: u64) -> Span
        ensures { span_range result ≡ reaching (span_range self) to }
    {
        Span {
            from: self.from,
            to: self.to.max(to),
            inheritable: self.inheritable,
        }
    }
}

/// The range that a part of a list is, in new numbers if `renumber` is set. `None` if it has no kept revision then.
fn new_span(part: &[u8], renumber: bool, reach: &Reach) -> Option<Span>
    ensures { option_map span_range result ≡ part_range renumber reach.now (range_of part.now) }
{
    let span = range(part)?;
    if renumber {
        reach.span(span)
    } else {
        Some(span)
    }
}

/// Appends the new range of a part, if there is one.
fn push_new(spans: &mut Vec<Span>, part: &[u8], renumber: bool, reach: &Reach) -> Result<(), Memory>
    ensures { OnOk result (map span_range spans.new.items
        ≡ map span_range spans.old.items ++ with_range (part_range renumber reach.now (range_of part.now)) []) }
{
    match new_span(part, renumber, reach) {
        Some(span) => Ok(spans.push(span)?),
        None => Ok(()),
    }
}

/// The text before a place, and the text after the byte there.
pub(crate) fn cut_at(text: &[u8], place: usize) -> (&[u8], &[u8])
    requires { place < length text.now }
    ensures before { result.0.now ≡ take place text.now }
    ensures behind { result.1.now ≡ drop (place + 1) text.now }
{
    (&text[..place], &text[place + 1..])
}

/// The new ranges of a list that isn't empty.
fn parts_spans(
    alloc: Global,
    list: &[u8],
    renumber: bool,
    reach: &Reach,
) -> Result<Vec<Span>, Memory>
    ensures { IfOk result (λ v. map span_range v.items ≡ parts_ranges renumber reach.now (range_parts list.now)) }
{
    let mut spans = Vec::new(alloc);
    let mut rest = list;
    while let Some(comma) = find(b',', rest) {
        let (part, behind) = cut_at(rest, comma);
        push_new(&mut spans, part, renumber, reach)?;
        rest = behind;
    }
    push_new(&mut spans, rest, renumber, reach)?;
    Ok(spans)
}

/// The new ranges of a list, in the list's order.
pub(crate) fn new_spans(
    alloc: Global,
    list: &[u8],
    renumber: bool,
    reach: &Reach,
) -> Result<Vec<Span>, Memory>
    ensures { IfOk result (λ v. map span_range v.items ≡ list_new renumber reach.now list.now) }
{
    if list.is_empty() {
        return Ok(Vec::new(alloc));
    }
    parts_spans(alloc, list, renumber, reach)
}

/// Sorts ranges by their lower ends.
pub(crate) fn sort(spans: &mut Vec<Span>)
    requires numbers { HaveNumbers (map span_range spans.old.items) }
    requires consistent { IsConsistent (map span_range spans.old.items) }
    ensures { joined (map span_range spans.new.items) ≡ runs_of (map span_range spans.old.items) }
{
    spans.sort_unstable_by_key(|span| span.from);
}

/// Appends bytes.
pub(crate) fn push_bytes(out: &mut Vec<u8>, bytes: &[u8]) -> Result<(), Memory>
    ensures { OnOk result (out.new.items ≡ out.old.items ++ bytes.now) }
{
    Ok(out.extend_from_slice(bytes)?)
}

/// Appends the upper end of a run that has more than one number.
fn push_end(out: &mut Vec<u8>, run: Span) -> Result<(), Memory>
    ensures { OnOk result (out.new.items
        ≡ out.old.items ++ (if run.from == run.to then [] else codes "-" ++ spelled_number run.to)) }
{
    if run.from == run.to {
        return Ok(());
    }
    push_bytes(out, b"-")?;
    push_bytes(out, spell(run.to).bytes())
}

/// Appends a run.
fn push_run(out: &mut Vec<u8>, run: Span) -> Result<(), Memory>
    ensures { OnOk result (out.new.items ≡ out.old.items ++ run_text (span_range run)) }
{
    push_bytes(out, spell(run.from).bytes())?;
    push_end(out, run)?;
    if run.inheritable {
        Ok(())
    } else {
        push_bytes(out, b"*")
    }
}

/// Appends the runs of the range `first` and the sorted ranges `behind` that follow it.
fn push_from(out: &mut Vec<u8>, first: Span, behind: &[Span]) -> Result<(), Memory>
    ensures { OnOk result (out.new.items
        ≡ out.old.items ++ runs_text (joined_from (span_range first) (map span_range behind.now))) }
{
    let mut run = first;
    for span in behind {
        if run.touches(*span) {
            run = run.reaching(span.to);
        } else {
            push_run(out, run)?;
            push_bytes(out, b",")?;
            run = *span;
        }
    }
    push_run(out, run)
}

/// Appends the runs of sorted ranges.
pub(crate) fn push_runs(out: &mut Vec<u8>, spans: &[Span]) -> Result<(), Memory>
    ensures { OnOk result (out.new.items ≡ out.old.items ++ runs_text (joined (map span_range spans.now))) }
{
    match spans.split_first() {
        Some((first, behind)) => push_from(out, *first, behind),
        None => Ok(()),
    }
}
