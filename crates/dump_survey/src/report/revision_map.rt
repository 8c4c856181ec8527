//! The map of revisions: the old and the new number of each revision that the filter keeps.
ghost use Rattle.std.specs.Prelude.{◌≡◌, ◌≢◌, ◌<◌, ◌++◌, ◌^◌, [], ◌∷◌, Err, IfOk, List, OnErr, OnOk, codes, decimal, ℕ};
ghost use Rattle.std.specs.List.{concat};
ghost use Rattle.std.specs.Io.KnownBytes.{Appends};
ghost use Rattle.std.specs.List.Sorted.{IsNonDecreasing, IsPermutation};
ghost use Rattle.dump_records.specs.steps.RecordViews.{record_item};
ghost use Rattle.dump_filter.specs.NewHeaders.{written_number};
ghost use Rattle.dump_writer.specs.SinkWords.{HasFailedSince};
ghost use Rattle.dump_survey.specs.RevisionMap.{IsRevisionMap, TakesSomeOfMap, map_line, map_lines};
ghost use Rattle.dump_survey.specs.steps.KeptNumbers.{AreKeptIn, HasKept, ended_numbers, kept_view, numbers_before};

use crate::findings::tally::Tally;
use crate::report::survey_lines::push_number;
use crate::report::survey_text::{SurveyFailure, write_lines};
use crate::visitor::{RecordVisitor, visit_records};
use dump_digest::is_kept;
use dump_records::Record;
use dump_rules::{Memory, Options};
use dump_writer::Sink;
use std::alloc::Global;

/// The number of a dump's first revision, and the numbers of the revisions that the filter keeps.
#[derive(Drop)]
struct KeptNumbers {
    first: u64,
    numbers: Vec<u64>,
}

/// Adds the number of the present revision, if the filter keeps it when no more nodes follow.
fn push_ended(numbers: &mut Vec<u64>, tally: &Tally, options: &Options) -> Result<(), Memory>
    ensures { OnOk result (numbers.new.items ≡ numbers.old.items ++ ended_numbers options.now tally.now.present) }
{
    if let Some(present) = tally.present {
        if present.stays(options) {
            numbers.push(present.number)?;
        }
    }
    Ok(())
}

/// Adds the number of the present revision if this record isn't one more node of it and the filter keeps it.
fn push_before(
    numbers: &mut Vec<u64>,
    tally: &Tally,
    item: &Record<'_>,
    options: &Options,
) -> Result<(), Memory>
    ensures { OnOk result (numbers.new.items
        ≡ numbers.old.items ++ numbers_before options.now tally.now.present (record_item item.now)) }
{
    if !item.is_node() {
        push_ended(numbers, tally, options)?;
    }
    Ok(())
}

/// Collects the numbers of the revisions that the filter keeps.
#[derive(Drop)]
struct NumberCollector<'o> {
    options: &'o Options,
    tally: Tally,
    /// The numbers up to the revision before the present one.
    numbers: Vec<u64>,
}

impl<'o, 'a> RecordVisitor<'a> for NumberCollector<'o> {
    type Error = Memory;

    ghost has_visited = { λ first records now. HasKept first records now };

    fn visit(&mut self, item: &Record<'a>) -> Result<(), Memory> {
        push_before(&mut self.numbers, &self.tally, item, self.options)?;
        self.tally
            .add(item, is_kept(item, self.options), self.options);
        Ok(())
    }
}

/// The revisions that the filter keeps, up to the end of the list of records.
fn kept_in(alloc: Global, dump: &[u8], options: &Options) -> Result<KeptNumbers, Memory>
    ensures { IfOk result (λ kept. AreKeptIn options.now dump.now (kept_view kept)) }
{
    let mut collector = NumberCollector {
        options,
        tally: Tally::new(),
        numbers: Vec::new(alloc),
    };
    visit_records(dump, &mut collector)?;
    let NumberCollector {
        tally,
        mut numbers,
        ..
    } = collector;
    push_ended(&mut numbers, &tally, options)?;
    Ok(KeptNumbers {
        first: tally.first,
        numbers,
    })
}

/// The same numbers in rising order. They already are in this order if the filter accepts the dump.
fn in_order(alloc: Global, numbers: &[u64]) -> Result<Vec<u64>, Memory>
    ensures same { IfOk result (λ sorted. IsPermutation numbers.now sorted.items) }
    ensures rising { IfOk result (λ sorted. IsNonDecreasing sorted.items) }
{
    let mut sorted = Vec::from_slice(alloc, numbers)?;
    sorted.sort()?;
    Ok(sorted)
}

/// The number under which the filter writes a revision. `first` is the number of the dump's first revision, and
/// `sorted` has the numbers of the kept revisions in rising order.
fn written_number(options: &Options, first: u64, sorted: &[u64], number: u64) -> u64
    requires rising { IsNonDecreasing sorted.now }
    requires small { first < 10 ^ 18 }
    ensures { result ≡ written_number options.now (record { first = first; numbers = sorted.now }) number }
{
    // This call shows the checker that the slice's length is small enough for the sum.
    let _count = sorted.len();
    if !options.renumber() {
        return number;
    }
    let below = sorted.partition_point(|kept| *kept < number);
    first + below as u64
}

/// Adds the line of a revision: its number, and the number under which the filter writes it.
fn push_numbers(lines: &mut Vec<u8>, number: u64, written: u64) -> Result<(), Memory>
    ensures { OnOk result (lines.new.items ≡ lines.old.items
        ++ concat (codes "r" ∷ decimal number ∷ codes " becomes r" ∷ decimal written ∷ codes "\n" ∷ [])) }
{
    lines.push(b'r')?;
    push_number(lines, number)?;
    lines.extend_from_slice(b" becomes r")?;
    push_number(lines, written)?;
    Ok(lines.push(b'\n')?)
}

/// Adds the line of one kept revision; `sorted` has the numbers of all kept revisions in rising order.
fn push_map_line(
    lines: &mut Vec<u8>,
    options: &Options,
    kept: &KeptNumbers,
    sorted: &[u64],
    number: u64,
) -> Result<(), Memory>
    requires same { IsPermutation kept.now.numbers.items sorted.now }
    requires rising { IsNonDecreasing sorted.now }
    requires small { kept.now.first < 10 ^ 18 }
    ensures { OnOk result (lines.new.items ≡ lines.old.items ++ map_line options.now (kept_view kept.now) number) }
{
    let written = written_number(options, kept.first, sorted, number);
    push_numbers(lines, number, written)
}

/// The lines for these kept revisions.
fn map_lines(alloc: Global, options: &Options, kept: &KeptNumbers) -> Result<Vec<u8>, Memory>
    requires { kept.now.first < 10 ^ 18 }
    ensures { IfOk result (λ lines. lines.items ≡ map_lines options.now (kept_view kept.now)) }
{
    let sorted = in_order(alloc, &kept.numbers)?;
    let mut lines = Vec::new(alloc);
    for number in &kept.numbers {
        push_map_line(&mut lines, options, kept, &sorted, *number)?;
    }
    Ok(lines)
}

/// The lines of the map of a dump's revisions.
fn map_of(alloc: Global, dump: &[u8], options: &Options) -> Result<Vec<u8>, Memory>
    ensures { IfOk result (λ lines. IsRevisionMap options.now dump.now lines.items) }
{
    let kept = kept_in(alloc, dump, options)?;
    map_lines(alloc, options, &kept)
}

/// Writes the old and the new number of each revision that the filter keeps under these options, one line for each, in
/// the dump's order. It writes nothing before all numbers are known.
pub fn write_map<S: Sink>(
    alloc: Global,
    dump: &[u8],
    options: &Options,
    sink: &mut S,
) -> Result<(), SurveyFailure>
    ensures whole { OnOk result ((text : List ℕ) × IsRevisionMap options.now dump.now text
        × Appends (S.taken sink.old) (S.taken sink.new) text) }
    ensures part { OnErr result (TakesSomeOfMap options.now dump.now (S.taken sink.old) (S.taken sink.new)) }
    ensures no_failure { result ≢ Err SurveyFailure.Sink → S.failure_count sink.new ≡ S.failure_count sink.old }
    ensures failed { result ≡ Err SurveyFailure.Sink
        → HasFailedSince (S.failure_count sink.old) (S.failure_count sink.new) }
    ensures through { S.through sink.new ≡ S.through sink.old }
{
    let lines = map_of(alloc, dump, options)?;
    write_lines(alloc, sink, lines)?;
    Ok(())
}
