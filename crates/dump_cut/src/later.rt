//! The part of a dump up to a revision, and the part after it.
ghost use Rattle.std.specs.Prelude.{◌≡◌, ◌++◌, ◌≤◌, List, length};
ghost use Rattle.dump_records.specs.DumpText.{Ending, HasRecords};
ghost use Rattle.dump_records.specs.RecordText.{DumpRecord};
ghost use Rattle.dump_records.specs.steps.RecordViews.{record_item};
ghost use Rattle.dump_filter.specs.Groups.{revision_numbers};
ghost use Rattle.dump_cut.specs.LaterParts.{IsFirstPart, IsLaterPart, head_part, place_of_first};
ghost use Rattle.dump_cut.specs.steps.LaterParts.{IsWhyNoPart};
ghost use Rattle.dump_cut.specs.steps.CountedRevisions.{counted_from, is_after};

use dump_records::{Cut, Cutter, Record};

/// The part of a dump after a revision, in two slices.
#[derive(Clone, Copy, Debug, PartialEq, Eq)]
pub struct LaterPart<'t> {
    /// What the dump has before its first revision.
    pub head: &'t [u8],
    /// Its revisions after this one, with their nodes.
    pub revisions: &'t [u8],
}

/// Why a dump has no part after a revision.
#[derive(Clone, Copy, Debug, PartialEq, Eq)]
pub enum NoPart {
    /// Its revisions aren't numbered 0, 1, 2 and so on.
    NotNumbered,
    /// It doesn't have this revision.
    NoRevision,
}

/// Whether a record is a revision, with a number above this one if there is one.
fn is_after(item: &Record<'_>, number: Option<u64>) -> bool
    ensures { result ≡ is_after number (record_item item.now) }
{
    match (item.revision(), number) {
        (Some(revision), Some(number)) => revision > number,
        (Some(_), None) => true,
        (None, _) => false,
    }
}

/// The byte at which the first such record of a dump begins; the end of the dump if there is none.
fn first_place(dump: &[u8], number: Option<u64>) -> usize
    ensures place { (records : List DumpRecord) → HasRecords dump.now records Ending.Whole
        → result ≡ place_of_first (is_after number) (length dump.now) records }
    ensures inside { result ≤ length dump.now }
{
    let mut cutter = Cutter::new(dump);
    while let Cut::Item(item) = cutter.next() {
        if is_after(&item, number) {
            return item.place();
        }
    }
    dump.len()
}

/// The part of a whole dump up to the revision with this number, and with it.
pub fn first_part(dump: &[u8], number: u64) -> &[u8]
    ensures { IsFirstPart number dump.now result.now }
{
    &dump[..first_place(dump, Some(number))]
}

/// The part of a whole dump after the revision with this number.
pub fn later_part(dump: &[u8], number: u64) -> LaterPart<'_>
    ensures part { IsLaterPart number dump.now (result.head.now ++ result.revisions.now) }
    ensures head { (records : List DumpRecord) → HasRecords dump.now records Ending.Whole
        → result.head.now ≡ head_part dump.now records }
{
    let head = first_place(dump, None);
    let later = first_place(dump, Some(number));
    LaterPart {
        head: &dump[..head],
        revisions: &dump[later..],
    }
}

/// The number of revisions of a dump; `None` if they aren't numbered 0, 1, 2 and so on.
fn count_revisions(dump: &[u8]) -> Option<u64>
    ensures { (records : List DumpRecord) → HasRecords dump.now records Ending.Whole
        → result ≡ counted_from 0 (revision_numbers records) }
{
    let mut cutter = Cutter::new(dump);
    let mut count = 0;
    while let Cut::Item(item) = cutter.next() {
        if let Some(revision) = item.revision() {
            if revision != count {
                return None;
            }
            count = revision + 1;
        }
    }
    Some(count)
}

/// Why a whole dump has no part after the revision with this number, if it has none.
pub fn no_part_after(dump: &[u8], number: u64) -> Option<NoPart>
    ensures { (records : List DumpRecord) → HasRecords dump.now records Ending.Whole → IsWhyNoPart number records result }
{
    let Some(count) = count_revisions(dump) else {
        return Some(NoPart::NotNumbered);
    };
    if count == 0 {
        return Some(NoPart::NotNumbered);
    }
    if number < count {
        None
    } else {
        Some(NoPart::NoRevision)
    }
}
