//! New values of svn:mergeinfo.
ghost use Rattle.std.specs.Prelude.{◌≡◌, ◌==◌, ◌≤◌, ◌↔◌, [], All, Err, IfOk, OnOk, map, true};
ghost use Rattle.std.specs.List.{list_all, slice_split};
ghost use Rattle.dump_rules.specs.declared.rewriting.RewriteFault.TheVariants as faults;
ghost use Rattle.dump_rules.specs.Mergeinfo.{HasMergeLines};
ghost use Rattle.dump_rules.specs.steps.RewrittenLines.{text_lines, with_break, with_new_line, with_new_lines, with_runs};
ghost use Rattle.dump_rules.specs.RangeList.{IsConsistent};
ghost use Rattle.dump_rules.specs.steps.RisingNumbers.{RiseFrom};
ghost use Rattle.dump_rules.specs.steps.ReadMergeinfo.{line_reads, lines_read};
ghost use Rattle.dump_rules.specs.steps.ReadRanges.{span_range};
ghost use Rattle.dump_rules.specs.Rewriting.{IsNewMergeinfo, HasForeignNumber, HasMissingSource};
ghost use Rattle.dump_rules.specs.steps.Runs.{HaveNumbers, runs_of};

use crate::memory::Memory;
use crate::merged::Merged;
use crate::mergeinfo::{list_of, merge_path_of, without_lf};
use crate::options::{Options, keeps};
use crate::ranges::{Span, range};
use crate::reach::Reach;
use crate::runs::{cut_at, new_spans, push_bytes, push_runs, sort};
use dump_text::find;
use std::alloc::Global;

/// Why a value of svn:mergeinfo can't be rewritten.
#[derive(Clone, Copy, Debug, PartialEq, Eq)]
pub enum RewriteFault {
    /// The path of a line isn't kept, and missing sources aren't skipped.
    MergeSource,
    /// Revisions are renumbered, and a line whose path is kept has a number that the dump can't have.
    MergeRange,
    /// Memory ran out.
    Memory,
}

impl From<Memory> for RewriteFault {
    ghost from_gives = { λ _ r. r ≡ faults.Memory };

    fn from(_error: Memory) -> RewriteFault {
        RewriteFault::Memory
    }
}

/// Appends an LF, unless the output is empty.
fn push_break(out: &mut Vec<u8>) -> Result<(), Memory>
    ensures { OnOk result (out.new.items ≡ with_break out.old.items) }
{
    if out.is_empty() {
        return Ok(());
    }
    push_bytes(out, b"\n")
}

/// Appends a line with the runs of these ranges, if there are any.
fn push_spans(out: &mut Vec<u8>, path: &[u8], spans: Vec<Span>) -> Result<(), Memory>
    requires numbers { HaveNumbers (map span_range spans.items) }
    requires consistent { IsConsistent (map span_range spans.items) }
    ensures { OnOk result (out.new.items ≡ with_runs out.old.items path.now (runs_of (map span_range spans.items))) }
{
    if spans.is_empty() {
        return Ok(());
    }
    let mut spans = spans;
    sort(&mut spans);
    push_break(out)?;
    push_bytes(out, path)?;
    push_bytes(out, b":")?;
    push_runs(out, &spans)
}

/// Appends what the filter makes of a line.
fn push_line(
    alloc: Global,
    out: &mut Vec<u8>,
    line: &[u8],
    options: &Options,
    reach: &Reach,
) -> Result<(), Memory>
    requires rising { RiseFrom reach.now.first reach.now.numbers }
    requires reads { line_reads line.now ≡ true }
    ensures { OnOk result (out.new.items ≡ with_new_line options.now reach.now out.old.items line.now) }
{
    let path = merge_path_of(line);
    if !keeps(options, path) {
        return Ok(());
    }
    let spans = new_spans(alloc, list_of(line), options.renumber(), reach)?;
    push_spans(out, path, spans)
}

/// Appends what the filter makes of the lines of a text that isn't empty.
fn push_lines(
    alloc: Global,
    out: &mut Vec<u8>,
    text: &[u8],
    options: &Options,
    reach: &Reach,
) -> Result<(), Memory>
    requires rising { RiseFrom reach.now.first reach.now.numbers }
    requires reads { list_all line_reads (slice_split (λ b. b == 10) text.now) ≡ true }
    ensures { OnOk result (out.new.items
        ≡ with_new_lines options.now reach.now out.old.items (slice_split (λ b. b == 10) text.now)) }
{
    let mut rest = text;
    while let Some(lf) = find(b'\n', rest) {
        let (line, behind) = cut_at(rest, lf);
        push_line(alloc, out, line, options, reach)?;
        rest = behind;
    }
    push_line(alloc, out, rest, options, reach)
}

/// What the filter makes of the lines of a text.
fn new_text(alloc: Global, text: &[u8], options: &Options, reach: &Reach) -> Result<Vec<u8>, Memory>
    requires rising { RiseFrom reach.now.first reach.now.numbers }
    requires reads { lines_read text.now ≡ true }
    ensures { IfOk result (λ v. v.items ≡ with_new_lines options.now reach.now [] (text_lines text.now)) }
{
    let mut out = Vec::new(alloc);
    if !text.is_empty() {
        push_lines(alloc, &mut out, text, options, reach)?;
    }
    Ok(out)
}

/// The new value of mergeinfo whose faults the caller has already looked for: the lines whose paths are kept, in their
/// order, each with the runs of its map, in new numbers if revisions are renumbered. A line whose map is empty is
/// omitted.
///
/// The cost is that of sorting the ranges of each line, however many numbers they contain.
pub fn new_value(
    alloc: Global,
    value: &[u8],
    options: &Options,
    reach: &Reach,
) -> Result<Vec<u8>, Memory>
    requires reads { ¬ ¬ HasMergeLines value.now }
    ensures { IfOk result (λ v. IsNewMergeinfo options.now reach.now value.now v.items) }
{
    // this call is there for its contract: the numbers of the kept revisions rise
    let _first = reach.first();
    new_text(alloc, without_lf(value), options, reach)
}

/// The [`new_value`], or the fault of the value. `now` is the present revision, and `reach` has the kept revisions up
/// to it. All faults are found before anything is allocated.
pub fn rewrite(
    alloc: Global,
    value: &[u8],
    options: &Options,
    reach: &Reach,
    now: u64,
) -> Result<Vec<u8>, RewriteFault>
    requires reads { ¬ ¬ HasMergeLines value.now }
    requires present { All (λ k. k ≤ now) reach.now.numbers }
    ensures new { IfOk result (λ v. IsNewMergeinfo options.now reach.now value.now v.items) }
    ensures source { (result ≡ Err RewriteFault.MergeSource) ↔ HasMissingSource options.now value.now }
    ensures range { (result ≡ Err RewriteFault.MergeRange)
        ↔ (¬ HasMissingSource options.now value.now × HasForeignNumber options.now reach.now now value.now) }
{
    let Some(said) = Merged::new().with(value, options) else {
        unreachable!()
    };
    if said.misses_source() {
        return Err(RewriteFault::MergeSource);
    }
    if said.has_foreign_number(options, reach.first(), now) {
        return Err(RewriteFault::MergeRange);
    }
    Ok(new_value(alloc, value, options, reach)?)
}
