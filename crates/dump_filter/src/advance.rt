//! Carries out the fate of a record: returns what the filter writes for it, and updates what the filter stores and
//! counts.
ghost use Rattle.std.specs.Prelude.{◌≡◌, ◌<◌, ◌+◌, ◌^◌, [], Some, IfOk, IsTrue, OnOk, OnErr};
ghost use Rattle.dump_records.specs.steps.RecordViews.{record_item};
ghost use Rattle.dump_records.specs.RecordText.{DumpRecord};
ghost use Rattle.dump_rules.specs.Settings.{Settings};
ghost use Rattle.dump_digest.specs.steps.DoneViews.{done_record, done_verdict};
ghost use Rattle.dump_digest.specs.RecordParts.{is_revision_record};
ghost use Rattle.dump_filter.specs.steps.NewProperties.{IsReadNode};
ghost use Rattle.dump_filter.specs.steps.State.{CanCountMore, view_pending, view_group, view_state, revision_count};
ghost use Rattle.dump_filter.specs.steps.State.PresentGroup.{Pending as IsPending};
ghost use Rattle.dump_filter.specs.steps.Advance.{IsOwnRevision, IsEndText, IsFrontText, IsPiece, with_kept, with_kept_revision, opened, ended, text_count, fate_state, next_state};
ghost use Rattle.dump_filter.specs.steps.Knowledge.{AreKept};
ghost use Rattle.dump_filter.specs.declared.copies.CopyChange.{CopyChange as Change};

use crate::copies::CopyChange;
use crate::decide::Fate;
use crate::output::{push_lines, push_node, push_revision};
use crate::pending::Pending;
use crate::state::{PresentGroup, State};
use dump_digest::Done;
use dump_records::Record;
use dump_rules::Options;
use dump_writer::{Memory, Piece};
use std::alloc::Global;
use std::mem;

impl<'a> State<'a> {
    /// Writes a pending revision, padded or not, and adds it to the kept ones.
    fn write_pending(
        &mut self,
        alloc: Global,
        options: &Options,
        pending: &Pending<'a>,
        padded: bool,
    ) -> Result<Piece<'a>, Memory>
        requires kept { AreKept self.old.revisions (IsPending (view_pending pending.now)) }
        requires room { self.old.report.revisions_kept + 1 < 2 ^ 64 }
        ensures piece { let r = record_item (done_record pending.now.revision) in
            IfOk result (λ piece. IsOwnRevision options.now self.old.revisions.kept r padded piece) }
        ensures state { let s = view_state self.old in let r = record_item (done_record pending.now.revision) in
            OnOk result (view_state self.new ≡ record s {
              revisions = record s.revisions { kept = with_kept s.revisions.kept r };
              report = with_kept_revision s.report;
            }) }
        ensures last { self.new.last ≡ self.old.last }
    {
        let number = self.revisions.next_number(options, pending);
        let mut piece = Piece::new(alloc);
        push_revision(&mut piece, alloc, &pending.revision, number, padded)?;
        self.revisions.keep(pending)?;
        self.report.revisions_kept += 1;
        Ok(piece)
    }

    /// Writes the present group's revision before its first kept node, if the revision is pending.
    fn open_group(&mut self, alloc: Global, options: &Options) -> Result<Piece<'a>, Memory>
        requires kept { AreKept self.old.revisions (view_group self.old.group) }
        requires room { revision_count (view_state self.old) < 2 ^ 64 }
        ensures piece { let s = view_state self.old in
            IfOk result (λ piece. IsFrontText options.now s.revisions.kept s.group piece) }
        ensures state { OnOk result (view_state self.new ≡ opened (view_state self.old)) }
        ensures last { self.new.last ≡ self.old.last }
    {
        match mem::replace(&mut self.group, PresentGroup::Written) {
            PresentGroup::Pending(pending) => self.write_pending(alloc, options, &pending, false),
            PresentGroup::None | PresentGroup::Written => Ok(Piece::new(alloc)),
        }
    }

    /// Ends the present group: writes its revision, if this is pending and the options keep it.
    pub(crate) fn end_group(
        &mut self,
        alloc: Global,
        options: &Options,
    ) -> Result<Piece<'a>, Memory>
        requires kept { AreKept self.old.revisions (view_group self.old.group) }
        requires room { revision_count (view_state self.old) < 2 ^ 64 }
        ensures piece { let s = view_state self.old in
            IfOk result (λ piece. IsEndText options.now s.revisions.kept s.group piece) }
        ensures state { OnOk result (view_state self.new ≡ ended options.now (view_state self.old)) }
        ensures last { self.new.last ≡ self.old.last }
    {
        match mem::replace(&mut self.group, PresentGroup::None) {
            PresentGroup::Pending(pending) => {
                if pending.stays(options) {
                    self.write_pending(alloc, options, &pending, pending.pads(options))
                } else {
                    self.report.revisions_dropped += 1;
                    Ok(Piece::new(alloc))
                }
            }
            PresentGroup::None | PresentGroup::Written => Ok(Piece::new(alloc)),
        }
    }

    /// Writes a kept node. It first adds the present revision to the kept ones, since the node's mergeinfo may name
    /// it.
    fn keep_node(
        &mut self,
        alloc: Global,
        options: &Options,
        done: &Done<'a>,
        copy: CopyChange,
    ) -> Result<Piece<'a>, Memory>
        requires kept { AreKept self.old.revisions (view_group self.old.group) }
        requires room { CanCountMore (view_state self.old) }
        requires node { IsReadNode done.now }
        ensures piece { let r = record_item (done_record done.now) in
            IfOk result (λ piece. IsPiece options.now (view_state self.old) r (Fate.Keep copy) piece) }
        ensures state { let r = record_item (done_record done.now) in
            OnOk result (view_state self.new ≡ fate_state options.now (view_state self.old) r (Fate.Keep copy)) }
        ensures last { self.new.last ≡ self.old.last }
    {
        let nodes_kept = self.report.nodes_kept + 1;
        let mut piece = self.open_group(alloc, options)?;
        push_node(&mut piece, alloc, options, &self.revisions.kept, done, copy)?;
        self.report.nodes_kept = nodes_kept;
        Ok(piece)
    }

    /// Drops a node: writes nothing, and counts it.
    fn drop_node(&mut self, alloc: Global) -> Piece<'a>
        requires { CanCountMore (view_state self.old) }
        ensures piece { result ≡ [] }
        ensures state { (settings : Settings) (r : DumpRecord)
            → view_state self.new ≡ fate_state settings (view_state self.old) r Fate.Drop }
        ensures last { self.new.last ≡ self.old.last }
    {
        self.group.drop_node();
        self.report.nodes_dropped += 1;
        Piece::new(alloc)
    }

    /// Ends the present group, and holds back the revision that begins the next one.
    fn hold_revision(
        &mut self,
        alloc: Global,
        options: &Options,
        done: Done<'a>,
    ) -> Result<Piece<'a>, Memory>
        requires kept { AreKept self.old.revisions (view_group self.old.group) }
        requires room { CanCountMore (view_state self.old) }
        requires revision { IsTrue (is_revision_record (record_item (done_record done))) }
        requires read { IsTrue (done_verdict done).props_ok }
        ensures piece { let r = record_item (done_record done.entry) in
            IfOk result (λ piece. IsPiece options.now (view_state self.old) r Fate.Hold piece) }
        ensures state { let r = record_item (done_record done.entry) in
            OnOk result (view_state self.new ≡ fate_state options.now (view_state self.old) r Fate.Hold) }
        ensures last { self.new.last ≡ self.old.last }
    {
        let piece = self.end_group(alloc, options)?;
        self.revisions.begin(alloc, &done.item());
        self.group = PresentGroup::Pending(Pending {
            revision: done,
            bare: true,
        });
        Ok(piece)
    }

    /// Ends the present group, and writes a version or UUID record unchanged.
    fn pass_lines(
        &mut self,
        alloc: Global,
        options: &Options,
        item: &Record<'a>,
    ) -> Result<Piece<'a>, Memory>
        requires kept { AreKept self.old.revisions (view_group self.old.group) }
        requires room { CanCountMore (view_state self.old) }
        ensures piece { let r = record_item item.now in
            IfOk result (λ piece. IsPiece options.now (view_state self.old) r Fate.Pass piece) }
        ensures state { let r = record_item item.now in
            OnOk result (view_state self.new ≡ fate_state options.now (view_state self.old) r Fate.Pass) }
        ensures last { self.new.last ≡ self.old.last }
    {
        let mut piece = self.end_group(alloc, options)?;
        push_lines(&mut piece, item)?;
        Ok(piece)
    }

    /// The count of checked texts, with one more if `checked` is true.
    fn text_count(&self, checked: bool) -> u64
        requires { CanCountMore (view_state self.now) }
        ensures { result ≡ text_count checked self.now.report }
    {
        if checked {
            self.report.texts_checked + 1
        } else {
            self.report.texts_checked
        }
    }

    /// Carries out the fate of the next record, and returns what the filter writes for it.
    pub(crate) fn advance(
        &mut self,
        alloc: Global,
        options: &Options,
        done: Done<'a>,
        fate: Fate,
    ) -> Result<Piece<'a>, Memory>
        requires kept { AreKept self.old.revisions (view_group self.old.group) }
        requires room { CanCountMore (view_state self.old) }
        requires node { (copy : Change) → fate ≡ Fate.Keep copy → IsReadNode done }
        requires revision { fate ≡ Fate.Hold → IsTrue (is_revision_record (record_item (done_record done))) }
        requires read { IsTrue (done_verdict done).props_ok }
        ensures piece { let r = record_item (done_record done.entry) in
            IfOk result (λ piece. IsPiece options.now (view_state self.old) r fate piece) }
        ensures state { let r = record_item (done_record done.entry) in
            OnOk result (view_state self.new
            ≡ next_state options.now (view_state self.old) r fate (done_verdict done.entry).checked) }
        ensures last { OnOk result (self.new.last ≡ Some (done_record done.entry)) }
        ensures err { OnErr result (self.new.last ≡ self.old.last) }
    {
        let texts_checked = self.text_count(done.verdict().checked);
        let item = done.item();
        let piece = match fate {
            Fate::Keep(copy) => self.keep_node(alloc, options, &done, copy)?,
            Fate::Drop => self.drop_node(alloc),
            Fate::Hold => self.hold_revision(alloc, options, done)?,
            Fate::Pass => self.pass_lines(alloc, options, &item)?,
        };
        self.report.texts_checked = texts_checked;
        self.last = Some(item);
        Ok(piece)
    }
}
