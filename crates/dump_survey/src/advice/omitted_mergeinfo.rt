//! The lines of mergeinfo that the filter omits.
ghost use Rattle.std.specs.Prelude.{◌≡◌, List};
ghost use Rattle.dump_text.specs.PropertyList.{IsPropertyBlock, Property};
ghost use Rattle.dump_text.specs.steps.PropertyViews.{entry_property, props_bytes};
ghost use Rattle.dump_records.specs.steps.RecordViews.{record_item};
ghost use Rattle.dump_survey.specs.OmittedMergeinfo.{AreOmittedIn, AreOmittedFrom, AreOmittedFromRecords};
ghost use Rattle.dump_survey.specs.steps.OmittedCounts.{HasCounted, properties_count, property_count, text_lines_count, value_count};

use crate::visitor::{RecordVisitor, visit_records};
use dump_digest::{is_kept, is_mergeinfo, properties_of};
use dump_records::Record;
use dump_rules::{Options, keeps, merge_path_of, merge_reads, without_lf};
use dump_text::{Entry, Props};
use std::convert::Infallible;

/// The number of lines of a text that have a path that isn't kept.
fn omitted_in_text(text: &[u8], options: &Options) -> usize
    ensures { result ≡ text_lines_count options.now text.now }
{
    if text.is_empty() {
        return 0;
    }
    text.split(|b| *b == b'\n')
        .filter(|line| !keeps(options, merge_path_of(line)))
        .count()
}

/// The number of lines of a value that the filter omits; 0 if the value can't be read.
fn omitted_in_value(value: &[u8], options: &Options) -> usize
    ensures { result ≡ value_count options.now value.now }
{
    if merge_reads(value) {
        omitted_in_text(without_lf(value), options)
    } else {
        0
    }
}

/// The number of lines of a property that the filter omits.
fn omitted_in_entry(entry: &Entry<'_>, options: &Options) -> usize
    ensures { result ≡ property_count options.now (entry_property entry.now) }
{
    if is_mergeinfo(entry) {
        omitted_in_value(entry.value, options)
    } else {
        0
    }
}

/// The number of lines of some properties that the filter omits. A name may occur more than once.
fn omitted_in_properties(props: &Props<'_>, options: &Options) -> usize
    ensures { (ps : List Property) → IsPropertyBlock (props_bytes props.now) ps
        → result ≡ properties_count options.now ps }
{
    // This call shows the checker that the block's length, and so the count, fits into a `usize`.
    let _size = props.bytes().len();
    let mut count = 0;
    let mut entries = props.entries();
    while let Some(entry) = entries.next() {
        count += omitted_in_entry(&entry, options);
    }
    count
}

/// The number of lines of a record's mergeinfo that the filter omits.
fn omitted_in_record(item: &Record<'_>, options: &Options) -> usize
    ensures { AreOmittedFrom options.now (record_item item.now) result }
{
    if !is_kept(item, options) {
        return 0;
    }
    match properties_of(item) {
        Some(props) => omitted_in_properties(&props, options),
        None => 0,
    }
}

/// Counts the lines of mergeinfo that the filter omits.
#[derive(Drop)]
struct LineCounter<'o> {
    options: &'o Options,
    count: usize,
}

impl<'o, 'a> RecordVisitor<'a> for LineCounter<'o> {
    type Error = Infallible;

    ghost has_visited = { λ first records now. HasCounted first records now };

    fn visit(&mut self, item: &Record<'a>) -> Result<(), Infallible> {
        // This call shows the checker that the dump's length, and so the count, fits into a `usize`.
        let _size = item.block().dump().len();
        self.count += omitted_in_record(item, self.options);
        Ok(())
    }
}

/// The number of lines of mergeinfo that the filter omits from the records of a dump.
fn omitted_in_records(dump: &[u8], options: &Options) -> usize
    ensures { AreOmittedFromRecords options.now dump.now result }
{
    let mut counter = LineCounter { options, count: 0 };
    match visit_records(dump, &mut counter) {
        Ok(()) => counter.count,
        Err(never) => match never {},
    }
}

/// The number of lines of mergeinfo that the filter, under these options, omits from the kept nodes of a dump because
/// their paths aren't kept. Without `--skip-missing-merge-sources` the filter omits none, and this function doesn't
/// read the dump.
pub fn omitted_lines(dump: &[u8], options: &Options) -> usize
    ensures { AreOmittedIn options.now dump.now result }
{
    if options.skip_missing() {
        omitted_in_records(dump, options)
    } else {
        0
    }
}
