//! Surveys a dump, record by record.
ghost use Rattle.std.specs.Prelude.{◌≡◌, ◌+◌, ◌<◌, ◌^◌, IfOk, map};
ghost use Rattle.dump_records.specs.steps.RecordViews.{record_item, record_number};
ghost use Rattle.dump_rules.specs.Prefix.{bare_prefix};
ghost use Rattle.dump_digest.specs.RecordParts.{is_kept_node};
ghost use Rattle.dump_survey.specs.PrefixFindings.{prefix_view};
ghost use Rattle.dump_survey.specs.steps.Steps.{IsStepOf, ReportsEnd};

use crate::findings::named_revisions::leaves_number;
use crate::findings::node::find;
use crate::findings::places::{DumpPlaces, Place};
use crate::findings::prefix_findings::{ReportedPrefix, leave_touched, reported_prefixes};
use crate::findings::prefix_set::PrefixSet;
use crate::findings::prefixes::{Prefixes, given_prefixes};
use crate::findings::reported::SurveyedNode;
use crate::findings::tally::{DumpFindings, Tally};
use crate::findings::unread_revision::is_unread_revision;
use dump_digest::is_kept;
use dump_records::{Cut, Cutter, Record};
use dump_rules::{Memory, Options};
use dump_text::FaultKind;
use std::alloc::Global;
use std::marker::Model;

/// How the list of a dump's records ends.
#[derive(Clone, Copy, Debug, PartialEq, Eq)]
pub enum End {
    /// The list ends at the end of the dump.
    Whole,
    /// No record begins at this byte of the dump; the fault says why.
    Broken { kind: FaultKind, place: usize },
}

/// What a surveyor reports after the last record.
#[derive(Clone, Copy, Debug, PartialEq, Eq)]
pub struct SurveyEnd {
    /// The findings in the dump as a whole.
    pub dump: DumpFindings,
    /// For each of these findings, the first record that causes it.
    pub places: DumpPlaces,
    pub end: End,
}

/// What one call of a surveyor returns.
#[derive(Clone, Copy)]
pub enum Step<'o, 'a> {
    /// The next record is a node of a revision.
    Node(SurveyedNode<'o, 'a>),
    /// The next record is another one, and no finding is reported for it.
    Other,
    /// There is no further record.
    Finished(SurveyEnd),
}

/// What a surveyor knows about the records that it has returned.
#[derive(Drop)]
pub(crate) struct Known {
    /// The prefixes that are idle so far.
    idle: PrefixSet,
    /// What the records say about the revisions.
    tally: Tally,
    /// Whether a kept node named a revision after a revision was dropped, if the filter doesn't renumber.
    numbers_left: bool,
    /// Whether there was a revision whose properties can't be read.
    unread_revision: bool,
    /// For each finding in the dump as a whole, the first record that causes it.
    places: DumpPlaces,
}

/// A surveyor: it returns the findings in each record of a dump, in the dump's order.
#[derive(Drop)]
pub struct Surveyor<'o, 'a> {
    cutter: Cutter<'a>,
    options: &'o Options,
    prefixes: Prefixes<'o>,
    known: Known,
}

impl<'o, 'a> Model for Surveyor<'o, 'a> {
    ghost use Rattle.dump_survey.specs.steps.Surveying.{Surveying, Surveys};

    ghost Value = { Surveying };

    ghost view = { λ s. record { dump = s.cutter.dump; settings = s.options.now; number = s.cutter.number } };

    ghost invariant = { λ s. Surveys s.options.now s.prefixes s.known s.cutter };
}

/// The place of a record.
fn place_of(item: &Record<'_>) -> Place
    ensures { result ≡ record { number = record_number item.now; place = (record_item item.now).place } }
{
    Place {
        number: item.number(),
        place: item.place(),
    }
}

/// What the surveyor returns for a record; `tally` describes the records before it. The record may be a kept node or
/// not.
fn step_of<'o, 'a>(
    alloc: Global,
    item: Record<'a>,
    kept: bool,
    options: &'o Options,
    prefixes: &Prefixes<'o>,
    tally: &Tally,
) -> Result<Step<'o, 'a>, Memory>
    requires kept { kept ≡ is_kept_node options.now (record_item item) }
    requires prefixes { prefixes.now ≡ map bare_prefix options.now.prefixes }
    ensures { IfOk result (λ step. IsStepOf options.now item.entry tally.now step) }
{
    let Some(present) = tally.present else {
        return Ok(Step::Other);
    };
    if !item.is_node() {
        return Ok(Step::Other);
    }
    let numbers = tally.numbers(present.number);
    let found = find(alloc, &item, kept, options, prefixes, &numbers)?;
    Ok(Step::Node(SurveyedNode {
        item,
        revision: present.number,
        found,
    }))
}

/// What a surveyor reports after the last record, from what it knows about the records and from how they end.
fn finished(known: &Known, end: End) -> SurveyEnd
    ensures { ReportsEnd known.now end result }
{
    SurveyEnd {
        dump: known
            .tally
            .findings(known.numbers_left, known.unread_revision),
        places: known.places,
        end,
    }
}

impl<'o, 'a> Surveyor<'o, 'a> {
    ghost use Rattle.dump_survey.specs.steps.Steps.{ArePrefixesReported, SurveyStep};

    /// Makes a surveyor that begins at the front of the dump, for the filter under these options.
    pub fn new(
        alloc: Global,
        dump: &'a [u8],
        options: &'o Options,
    ) -> Result<Surveyor<'o, 'a>, Memory>
        ensures { IfOk result (λ s. s ≡ record { dump = dump.now; settings = options.now; number = 0 }) }
    {
        let prefixes = Prefixes::of(alloc, options)?;
        let given = given_prefixes(alloc, options)?;
        let idle = PrefixSet::of(alloc, &given)?;
        Ok(Surveyor {
            cutter: Cutter::new(dump),
            options,
            prefixes,
            known: Known {
                idle,
                tally: Tally::new(),
                numbers_left: false,
                unread_revision: false,
                places: DumpPlaces::new(),
            },
        })
    }

    /// Returns the findings in the next record. After the last record it returns the findings in the dump as a whole,
    /// and so do all later calls. If memory runs out, the next call continues after the record.
    // inlined into a loop, it moves the fields of each record one by one, and several times
    #[inline(never)]
    pub fn next(&mut self, alloc: Global) -> Result<Step<'o, 'a>, Memory>
        ensures { IfOk result (λ step. SurveyStep self.old step self.new) }
    {
        let item = match self.cutter.next() {
            Cut::Item(item) => item,
            Cut::Finished => {
                let end = finished(&self.known, End::Whole);
                return Ok(Step::Finished(end));
            }
            Cut::Fault { kind, place } => {
                let end = finished(&self.known, End::Broken { kind, place });
                return Ok(Step::Finished(end));
            }
        };
        leave_touched(&mut self.known.idle, &item);
        let before = self.known.tally;
        let kept = is_kept(&item, self.options);
        self.known.numbers_left = self.known.numbers_left
            || leaves_number(&item, kept, self.options, &before);
        self.known.unread_revision = self.known.unread_revision || is_unread_revision(&item);
        self.known.tally.add(&item, kept, self.options);
        let found = self
            .known
            .tally
            .findings(self.known.numbers_left, self.known.unread_revision);
        self.known.places.note(&found, place_of(&item));
        step_of(alloc, item, kept, self.options, &self.prefixes, &before)
    }

    /// The findings in the options' prefixes, in their order, as far as the records that were returned so far show.
    pub fn reported_prefixes(&self, alloc: Global) -> Result<Vec<ReportedPrefix<'o>>, Memory>
        ensures { IfOk result (λ reported. ArePrefixesReported self.now (map prefix_view reported.items)) }
    {
        let given = given_prefixes(alloc, self.options)?;
        reported_prefixes(alloc, &given, &self.known.idle)
    }
}
