//! Revisions whose properties can't be read.
ghost use Rattle.std.specs.Prelude.{◌↔◌, IsTrue};
ghost use Rattle.dump_records.specs.steps.RecordViews.{record_item};
ghost use Rattle.dump_history.specs.Findings.{IsUnreadRevision};

use dump_digest::properties_of;
use dump_records::Record;

/// Whether the record is a revision whose properties can't be read.
pub(crate) fn is_unread_revision(item: &Record<'_>) -> bool
    ensures { IsTrue result ↔ IsUnreadRevision (record_item item.now) }
{
    item.revision().is_some() && properties_of(item).is_none()
}
