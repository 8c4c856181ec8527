//! A revision that the filter holds back.
ghost use Rattle.std.specs.Prelude.{IsTrue};
ghost use Rattle.dump_records.specs.steps.RecordViews.{record_item};
ghost use Rattle.dump_digest.specs.steps.DoneViews.{done_record, done_verdict};
ghost use Rattle.dump_digest.specs.RecordParts.{is_revision_record};

use dump_digest::Done;

/// A revision that isn't written yet: its group has no kept node so far.
#[derive(Drop)]
pub(crate) struct Pending<'a> {
    pub(crate) revision: Done<'a>,
    /// Whether the group has had no node so far.
    pub(crate) bare: bool,
    pub ghost is_read: { IsTrue (done_verdict revision).props_ok },
    pub ghost is_revision: { IsTrue (is_revision_record (record_item (done_record revision))) },
}
