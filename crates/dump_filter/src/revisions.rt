//! The kept revisions and the present one.
ghost use Rattle.std.specs.Prelude.{◌≡◌, ◌<◌, ◌+◌, ◌^◌, OnOk, IsSome, Some, length, IsTrue};
ghost use Rattle.dump_records.specs.steps.RecordViews.{record_item};
ghost use Rattle.dump_digest.specs.steps.DoneViews.{done_record};
ghost use Rattle.dump_digest.specs.RecordParts.{is_revision_record};
ghost use Rattle.dump_rules.specs.Renumbering.{image};
ghost use Rattle.dump_filter.specs.Groups.{revision_number};
ghost use Rattle.dump_filter.specs.steps.State.{view_pending, view_group, no_revisions, node_revision};
ghost use Rattle.dump_filter.specs.steps.State.PresentGroup.{Pending as IsPending};
ghost use Rattle.dump_filter.specs.steps.Advance.{next_number, with_kept, front_kept, started};
ghost use Rattle.dump_filter.specs.steps.Decision.{rises};
ghost use Rattle.dump_filter.specs.steps.Knowledge.{AreKept};

use crate::pending::Pending;
use crate::state::PresentGroup;
use dump_records::Record;
use dump_rules::{Options, Reach};
use dump_writer::Memory;
use std::alloc::Global;

/// The kept revisions, and the number of the present one, which is the last revision that was taken.
#[derive(Drop)]
pub(crate) struct Revisions {
    pub(crate) kept: Reach,
    pub(crate) present: Option<u64>,
}

/// The number of a revision record.
pub(crate) fn revision_number(item: &Record<'_>) -> u64
    requires { IsTrue (is_revision_record (record_item item.now)) }
    ensures { result ≡ revision_number (record_item item.now) }
{
    let Some(number) = item.revision() else {
        unreachable!()
    };
    number
}

impl Revisions {
    /// No revisions. It allocates nothing.
    pub(crate) fn new(alloc: Global) -> Revisions
        ensures { result ≡ no_revisions }
    {
        Revisions {
            kept: Reach::new(alloc, 0),
            present: None,
        }
    }

    /// The number of the revision to which the next node belongs.
    pub(crate) fn node_revision(&self) -> u64
        requires { IsSome self.now.present }
        ensures { result ≡ node_revision self.now }
    {
        let Some(number) = self.present else {
            unreachable!()
        };
        number
    }

    /// Whether a revision of this number may follow the present one.
    pub(crate) fn rises(&self, number: u64) -> bool
        ensures { result ≡ rises self.now.present number }
    {
        match self.present {
            Some(present) => present < number,
            None => true,
        }
    }

    /// The number that renumbering gives to the next kept revision.
    fn next_new_number(&self) -> u64
        requires { self.now.kept.first + length self.now.kept.numbers < 2 ^ 64 }
        ensures { result ≡ self.now.kept.first + length self.now.kept.numbers }
    {
        self.kept.first() + self.kept.count()
    }

    /// The number under which a pending revision is written.
    pub(crate) fn next_number(&self, options: &Options, pending: &Pending<'_>) -> u64
        requires { AreKept self.now (IsPending (view_pending pending.now)) }
        ensures { result ≡ next_number options.now self.now.kept (record_item (done_record pending.now.revision)) }
    {
        let number = revision_number(&pending.revision.item());
        if options.renumber() {
            self.next_new_number()
        } else {
            number
        }
    }

    /// The image of a copy's revision; a pending revision already counts as kept.
    pub(crate) fn image(&self, group: &PresentGroup<'_>, number: u64) -> Option<u64>
        requires { AreKept self.now (view_group group.now) }
        ensures { result ≡ image (front_kept self.now.kept (view_group group.now)) number }
    {
        match group {
            PresentGroup::Pending(pending) => {
                if revision_number(&pending.revision.item()) <= number {
                    Some(self.next_new_number())
                } else {
                    self.kept.reach(number)
                }
            }
            PresentGroup::None | PresentGroup::Written => self.kept.reach(number),
        }
    }

    /// Adds a pending revision to the kept ones.
    pub(crate) fn keep(&mut self, pending: &Pending<'_>) -> Result<(), Memory>
        requires { AreKept self.old (IsPending (view_pending pending.now)) }
        ensures { OnOk result (self.new ≡ record self.old {
          kept = with_kept self.old.kept (record_item (done_record pending.now.revision));
        }) }
    {
        match self.kept.push(revision_number(&pending.revision.item())) {
            Ok(()) => Ok(()),
            Err(_) => Err(Memory),
        }
    }

    /// Makes a revision the present one. If it is the dump's first revision, the table of new numbers begins with its
    /// number.
    pub(crate) fn begin(&mut self, alloc: Global, item: &Record<'_>)
        requires { IsTrue (is_revision_record (record_item item.now)) }
        ensures { self.new ≡ record {
          kept = started self.old.present (record_item item.now) self.old.kept;
          present = Some (revision_number (record_item item.now));
        } }
    {
        let number = revision_number(item);
        if self.present.is_none() {
            self.kept = Reach::new(alloc, number);
        }
        self.present = Some(number);
    }
}
