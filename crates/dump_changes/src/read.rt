//! Reads the changes of a whole dump.
ghost use Rattle.std.specs.Prelude.{◌≡◌, false, true, IfOk};
ghost use Rattle.dump_records.specs.steps.RecordViews.{record_item, record_number};
ghost use Rattle.dump_digest.specs.RecordParts.{is_node, is_revision_record};
ghost use Rattle.dump_changes.specs.steps.DumpReading.{IsReadingOfDump};
ghost use Rattle.dump_changes.specs.steps.Reading.{EndsAt, IsBeforeFirst, IsCountingStep, IsNumberedStep, IsPresentStep, IsReadingStep};

use crate::node::node_change;
use dump_index::NodeChange;
use dump_records::{Cut, Cutter, Record, RecordKind};
use dump_rules::Memory;
use dump_text::FaultKind;
use std::alloc::Global;

/// How the reading of a dump ends.
#[derive(Clone, Copy, Debug, PartialEq, Eq)]
pub enum End {
    /// At the dump's end.
    Whole,
    /// At the record with this number, a node that makes no change that is modelled.
    NoChange(u64),
    /// At the record with this number: a node of revision 0 or of no revision, or a revision whose number isn't above the one
    /// before, or is the largest that there is.
    OutOfOrder(u64),
    /// At this byte of the dump, where no record is because of this fault.
    Broken { kind: FaultKind, place: usize },
}

/// What was read from a dump.
#[derive(Drop)]
pub struct Reading<'a> {
    /// The changes of the nodes up to the end of the reading, in order. The numbers of revisions, also of copied ones,
    /// are those in the dump. No node is in revision 0.
    pub changes: Vec<NodeChange<'a>>,
    /// The numbers of the revisions up to there. Each is larger than the one before.
    pub numbers: Vec<u64>,
    /// Whether there is a revision, and the revisions are numbered 0, 1, 2 and so on.
    pub numbered: bool,
    pub end: End,
}

/// The position of a reader between two records.
#[derive(Clone, Copy)]
pub(crate) struct Position {
    /// The least number of the next revision.
    next: u64,
    /// The revision to which the next node belongs, if there is one.
    present: Option<u64>,
    /// Whether the revisions so far are numbered 0, 1, 2 and so on.
    numbered: bool,
}

/// What the next record is.
#[derive(Clone, Copy)]
pub(crate) enum Step<'a> {
    /// It is a node that makes no change that is modelled.
    NoChange,
    /// It isn't in order, as [`End::OutOfOrder`] says.
    OutOfOrder,
    /// It is the revision with this number, and after it the reader is at this position.
    Revision { number: u64, behind: Position },
    /// It is neither a revision nor a node, and after it the reader is at this position.
    Other(Position),
    /// It is a node that makes this change.
    Makes(NodeChange<'a>),
}

impl Position {
    /// Reads a revision.
    fn revision<'a>(&self, item: &Record<'a>) -> Step<'a>
        requires node { is_node (record_item item.now) ≡ false }
        requires revision { is_revision_record (record_item item.now) ≡ true }
        ensures reading { IsReadingStep (record_item item.now) self.now result }
        ensures first { IsBeforeFirst (record_item item.now) self.now result }
        ensures counting { IsCountingStep (record_item item.now) self.now result }
        ensures present { IsPresentStep (record_item item.now) self.now result }
        ensures number { IsNumberedStep (record_item item.now) (record_number item.now) result }
    {
        let Some(number) = item.revision() else {
            return Step::OutOfOrder;
        };
        if number < self.next || number == u64::MAX {
            return Step::OutOfOrder;
        }
        let behind = Position {
            next: number + 1,
            present: Some(number),
            numbered: self.numbered & (number == self.next),
        };
        Step::Revision { number, behind }
    }

    /// Reads a node.
    fn node<'a>(&self, item: &Record<'a>) -> Step<'a>
        requires node { is_node (record_item item.now) ≡ true }
        requires revision { is_revision_record (record_item item.now) ≡ false }
        ensures reading { IsReadingStep (record_item item.now) self.now result }
        ensures first { IsBeforeFirst (record_item item.now) self.now result }
        ensures counting { IsCountingStep (record_item item.now) self.now result }
        ensures present { IsPresentStep (record_item item.now) self.now result }
        ensures number { IsNumberedStep (record_item item.now) (record_number item.now) result }
    {
        match self.present {
            Some(number) if number > 0 => match node_change(item, number) {
                Some(change) => Step::Makes(change),
                None => Step::NoChange,
            },
            _ => Step::OutOfOrder,
        }
    }

    /// The result of the reading, if it ends here and in this way.
    fn ended<'a>(&self, changes: Vec<NodeChange<'a>>, numbers: Vec<u64>, end: End) -> Reading<'a>
        ensures { EndsAt self.now changes.entry numbers end result }
    {
        Reading {
            changes,
            numbers,
            numbered: self.numbered && self.next > 0,
            end,
        }
    }

    /// Reads a record.
    fn step<'a>(&self, item: &Record<'a>) -> Step<'a>
        ensures reading { IsReadingStep (record_item item.now) self.now result }
        ensures first { IsBeforeFirst (record_item item.now) self.now result }
        ensures counting { IsCountingStep (record_item item.now) self.now result }
        ensures present { IsPresentStep (record_item item.now) self.now result }
        ensures number { IsNumberedStep (record_item item.now) (record_number item.now) result }
    {
        match item.kind() {
            RecordKind::Revision => self.revision(item),
            RecordKind::Node => self.node(item),
            _ => Step::Other(Position {
                present: None,
                ..*self
            }),
        }
    }
}

/// Reads the changes of a dump, record by record.
pub fn read_changes<'a>(alloc: Global, dump: &'a [u8]) -> Result<Reading<'a>, Memory>
    ensures { IfOk result (λ reading. IsReadingOfDump dump.now reading) }
{
    let mut cutter = Cutter::new(dump);
    let mut changes = Vec::new(alloc);
    let mut numbers = Vec::new(alloc);
    let mut at = Position {
        next: 0,
        present: None,
        numbered: true,
    };
    loop {
        match cutter.next() {
            Cut::Item(item) => match at.step(&item) {
                Step::NoChange => {
                    return Ok(at.ended(changes, numbers, End::NoChange(item.number())));
                }
                Step::OutOfOrder => {
                    return Ok(at.ended(changes, numbers, End::OutOfOrder(item.number())));
                }
                Step::Revision { number, behind } => {
                    numbers.push(number)?;
                    at = behind;
                }
                Step::Other(behind) => at = behind,
                Step::Makes(change) => changes.push(change)?,
            },
            Cut::Finished => return Ok(at.ended(changes, numbers, End::Whole)),
            Cut::Fault { kind, place } => {
                return Ok(at.ended(changes, numbers, End::Broken { kind, place }));
            }
        }
    }
}
