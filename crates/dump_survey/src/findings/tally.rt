//! What the first records of a dump say about its revisions.
ghost use Rattle.std.specs.Prelude.{◌≡◌, ◌+◌, ◌<◌, ◌==◌, ◌^◌, IsTrue, Some};
ghost use Rattle.std.specs.List.{list_any};
ghost use Rattle.dump_records.specs.steps.RecordViews.{record_item};
ghost use Rattle.dump_digest.specs.RecordParts.{is_kept_node, is_node};
ghost use Rattle.dump_history.specs.Findings.{copies_from_before, every_dump_finding};
ghost use Rattle.dump_filter.specs.steps.Decision.{rises};
ghost use Rattle.dump_survey.specs.steps.Tally.{first_with, least_behind, lesser, no_tally, keeps_open, keeps_present, node_tally, next_tally, numbers_of, other_tally, revision_tally, tally_findings};
ghost use Rattle.dump_survey.specs.steps.NamedRevisions.{is_behind_dropped};
ghost use Rattle.dump_survey.specs.DumpFindings.{has_dump_finding, listed_findings};

use crate::findings::revision_numbers::Numbers;
use dump_filter::keeps_empty;
use dump_history::DumpFinding;
use dump_nodes::{copy_revision_of, makes_copy};
use dump_records::Record;
use dump_rules::Options;

/// The findings in a dump as a whole.
#[derive(Clone, Copy, Debug, PartialEq, Eq)]
pub struct DumpFindings {
    /// The dump has no revision.
    pub no_revision: bool,
    /// The revision numbers don't go up by one from the number of the first revision.
    pub other_numbers: bool,
    /// A revision's number isn't above that of the revision before it.
    pub number_falls: bool,
    /// The properties of a revision can't be read.
    pub unread_revision: bool,
    /// The first revision is revision 0, and it has a node.
    pub node_in_first: bool,
    /// A node of a revision is a copy from a revision before the first one.
    pub source_before: bool,
    /// A node is outside of any revision.
    pub node_outside: bool,
    /// A revision is dropped, the filter doesn't renumber, and a kept node after it names a revision by its number.
    pub numbers_left: bool,
}

impl DumpFindings {
    /// Whether this finding is one of them.
    pub(crate) fn has(&self, finding: DumpFinding) -> bool
        ensures { result ≡ has_dump_finding self.now finding }
    {
        match finding {
            DumpFinding::NoRevision => self.no_revision,
            DumpFinding::OtherNumbers => self.other_numbers,
            DumpFinding::NumberFalls => self.number_falls,
            DumpFinding::UnreadRevision => self.unread_revision,
            DumpFinding::NodeInFirst => self.node_in_first,
            DumpFinding::SourceBefore => self.source_before,
            DumpFinding::NodeOutside => self.node_outside,
            DumpFinding::NumbersLeft => self.numbers_left,
        }
    }

    /// Whether there is any finding.
    pub(crate) fn is_any(&self) -> bool
        ensures { result ≡ list_any (has_dump_finding self.now) every_dump_finding }
    {
        self.no_revision
            | self.other_numbers
            | self.number_falls
            | self.unread_revision
            | self.node_in_first
            | self.source_before
            | self.node_outside
            | self.numbers_left
    }
}

/// The present revision: the last one so far, to which the next nodes belong.
#[derive(Clone, Copy)]
pub(crate) struct Present {
    pub(crate) number: u64,
    /// Whether the revision has no node so far.
    bare: bool,
    /// Whether one of its nodes is kept.
    kept: bool,
}

impl Present {
    /// Whether the filter keeps the revision if no more nodes follow.
    pub(crate) fn stays(&self, options: &Options) -> bool
        ensures { result ≡ keeps_open options.now (Some self.now) }
    {
        self.number == 0 || self.kept || keeps_empty(options.empty(), self.bare)
    }
}

/// Whether `number` is `first` plus `count`.
fn is_above(first: u64, count: u64, number: u64) -> bool
    ensures { result ≡ (number == first + count) }
{
    number >= first && number - first == count
}

/// Whether the number is above the last one. True if there is no last one.
fn is_above_last(last: Option<u64>, number: u64) -> bool
    ensures { result ≡ rises last number }
{
    match last {
        Some(last) => last < number,
        None => true,
    }
}

/// The lesser of the two numbers; `number` if there is no `least`.
fn lesser(least: Option<u64>, number: u64) -> u64
    ensures { result ≡ lesser least number }
{
    match least {
        Some(least) if least <= number => least,
        _ => number,
    }
}

/// Whether a node is a copy from a revision before this one.
fn copies_from_before(item: &Record<'_>, first: u64) -> bool
    requires { IsTrue (is_node (record_item item.now)) }
    ensures { result ≡ copies_from_before first (record_item item.now) }
{
    copy_revision_of(item) < first && makes_copy(item)
}

/// What the records so far say about the dump's revisions.
#[derive(Clone, Copy)]
pub(crate) struct Tally {
    /// The number of revisions.
    count: u64,
    /// The number of the first revision; 0 if there is none.
    pub(crate) first: u64,
    /// Whether the revision numbers go up by one from the first number.
    numbered: bool,
    /// The number of the last revision.
    last: Option<u64>,
    /// Whether each revision number is above the one before it.
    rising: bool,
    /// Whether the first revision has a node.
    node_in_first: bool,
    /// Whether a node of a revision is a copy from a revision before the first one.
    source_before: bool,
    /// Whether a node is outside of any revision.
    node_outside: bool,
    /// Whether each revision before the present one is kept.
    all_kept: bool,
    /// The least number of the kept revisions before the present one.
    least: Option<u64>,
    pub(crate) present: Option<Present>,
}

impl Tally {
    /// The tally before the first record.
    pub(crate) fn new() -> Tally
        ensures { result ≡ no_tally }
    {
        Tally {
            count: 0,
            first: 0,
            numbered: true,
            last: None,
            rising: true,
            node_in_first: false,
            source_before: false,
            node_outside: false,
            all_kept: true,
            least: None,
            present: None,
        }
    }

    /// Whether each revision is kept, if the present one has no more nodes.
    fn keeps_all(&self, options: &Options) -> bool
        ensures { result ≡ keeps_present options.now self.now }
    {
        match self.present {
            Some(present) => self.all_kept && present.stays(options),
            None => self.all_kept,
        }
    }

    /// The least number of the kept revisions, if the present one has no more nodes.
    fn least_kept(&self, options: &Options) -> Option<u64>
        ensures { result ≡ least_behind options.now self.now.least self.now.present }
    {
        match self.present {
            Some(present) if present.stays(options) => Some(lesser(self.least, present.number)),
            _ => self.least,
        }
    }

    /// The numbers with which the survey compares the revisions that a node names; `present` is the node's revision.
    pub(crate) fn numbers(&self, present: u64) -> Numbers
        ensures { result ≡ numbers_of self.now present }
    {
        Numbers {
            first: self.first,
            least: self.least,
            present,
        }
    }

    /// The number of the first revision, if the next record is a revision with this number.
    fn first_with(&self, number: u64) -> u64
        ensures { result ≡ first_with self.now number }
    {
        if self.count == 0 { number } else { self.first }
    }

    /// Adds a record to the tally; `kept` says whether the record is a kept node.
    pub(crate) fn add(&mut self, item: &Record<'_>, kept: bool, options: &Options)
        requires room { self.old.count + 1 < 2 ^ 64 }
        requires kept { kept ≡ is_kept_node options.now (record_item item.now) }
        ensures { self.new ≡ next_tally options.now self.old (record_item item.now) }
    {
        if let Some(number) = item.revision() {
            self.add_revision(number, options);
        } else if item.is_node() {
            self.add_node(item, kept);
        } else {
            self.end_revision(options);
        }
    }

    /// Ends the present revision, if there is one.
    fn end_revision(&mut self, options: &Options)
        ensures { self.new ≡ other_tally options.now self.old }
    {
        self.all_kept = self.keeps_all(options);
        self.least = self.least_kept(options);
        self.present = None;
    }

    /// Adds a revision with this number.
    fn add_revision(&mut self, number: u64, options: &Options)
        requires room { self.old.count + 1 < 2 ^ 64 }
        ensures { self.new ≡ revision_tally options.now self.old number }
    {
        self.end_revision(options);
        self.first = self.first_with(number);
        self.numbered = self.numbered && is_above(self.first, self.count, number);
        self.rising = self.rising && is_above_last(self.last, number);
        self.count += 1;
        self.last = Some(number);
        self.present = Some(Present {
            number,
            bare: true,
            kept: false,
        });
    }

    /// Adds a node; `kept` says whether the node is kept.
    fn add_node(&mut self, item: &Record<'_>, kept: bool)
        requires { IsTrue (is_node (record_item item.now)) }
        ensures { self.new ≡ node_tally self.old kept (copies_from_before self.old.first (record_item item.now))
            self.old.present }
    {
        let Some(present) = self.present else {
            self.node_outside = true;
            return;
        };
        self.node_in_first = self.node_in_first || self.count == 1;
        self.source_before = self.source_before || copies_from_before(item, self.first);
        self.present = Some(Present {
            number: present.number,
            bare: false,
            kept: present.kept || kept,
        });
    }

    /// Whether there is a present revision, and a revision before it is dropped.
    pub(crate) fn is_behind_dropped(&self) -> bool
        ensures { result ≡ is_behind_dropped self.now }
    {
        self.present.is_some() && !self.all_kept
    }

    /// The findings in the dump if it ends here. `numbers_left` and `unread_revision` become the findings of these
    /// names.
    pub(crate) fn findings(&self, numbers_left: bool, unread_revision: bool) -> DumpFindings
        ensures { listed_findings result ≡ tally_findings self.now numbers_left unread_revision }
    {
        DumpFindings {
            no_revision: self.count == 0,
            other_numbers: !self.numbered,
            number_falls: !self.rising,
            unread_revision,
            node_in_first: self.first == 0 && self.node_in_first,
            source_before: self.source_before,
            node_outside: self.node_outside,
            numbers_left,
        }
    }
}
