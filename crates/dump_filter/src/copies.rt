//! What the filter does with the copy source of a kept node.
ghost use Rattle.std.specs.Prelude.{◌≡◌, IsTrue};
ghost use Rattle.dump_records.specs.steps.RecordViews.{record_item};
ghost use Rattle.dump_filter.specs.NewHeaders.{is_whole_file};
ghost use Rattle.dump_digest.specs.steps.DoneViews.{done_record, done_settings};
ghost use Rattle.dump_digest.specs.RecordParts.{is_kept_node};
ghost use Rattle.dump_filter.specs.steps.State.{view_group, node_revision};
ghost use Rattle.dump_filter.specs.steps.Advance.{front_kept};
ghost use Rattle.dump_filter.specs.steps.Decision.{takes_node, source_change, copy_change};
ghost use Rattle.dump_filter.specs.steps.Knowledge.{AreKept};

use crate::state::State;
use dump_digest::Done;
use dump_records::Record;
use dump_rules::Options;
use dump_text::FaultKind;

/// What the filter does with the copy source of a kept node.
#[derive(Clone, Copy)]
pub(crate) enum CopyChange {
    /// The node has no copy source.
    Same,
    /// The copy is of the revision with this number, which is the old one if revisions aren't renumbered.
    Renumbered(u64),
    /// The filter removes the copy source; the node is no longer a copy.
    Dropped,
}

/// Whether the record is a file with its text and its properties, so that it needs no copy source.
fn is_whole_file(item: &Record<'_>) -> bool
    ensures { result ≡ is_whole_file (record_item item.now) }
{
    item.is_file() && item.has_text() && !item.text_delta() && !item.prop_delta()
}

/// What the filter does with the source of a kept node that remains a copy; `source` is the copy's revision, if the
/// node is a copy.
fn source_change(
    options: &Options,
    state: &State<'_>,
    source: Option<u64>,
) -> Result<CopyChange, FaultKind>
    requires kept { AreKept state.now.revisions (view_group state.now.group) }
    requires taken { IsTrue (takes_node (view_group state.now.group)) }
    ensures { let kept = front_kept state.now.revisions.kept (view_group state.now.group) in
        result ≡ source_change options.now kept (node_revision state.now.revisions) source }
{
    let Some(number) = source else {
        return Ok(CopyChange::Same);
    };
    if !options.renumber() {
        return Ok(CopyChange::Renumbered(number));
    }
    if state.revisions.node_revision() < number {
        return Err(FaultKind::CopyRevision);
    }
    match state.revisions.image(&state.group, number) {
        Some(image) => Ok(CopyChange::Renumbered(image)),
        None => Err(FaultKind::CopyRevision),
    }
}

/// What the filter does with the copy source of a kept node, or the fault of this source.
pub(crate) fn copy_change(
    options: &Options,
    state: &State<'_>,
    done: &Done<'_>,
) -> Result<CopyChange, FaultKind>
    requires kept { AreKept state.now.revisions (view_group state.now.group) }
    requires taken { IsTrue (takes_node (view_group state.now.group)) }
    requires options { done_settings done.now ≡ options.now }
    requires node { IsTrue (is_kept_node options.now (record_item (done_record done.now))) }
    ensures { let kept = front_kept state.now.revisions.kept (view_group state.now.group) in
        result ≡ copy_change options.now kept (node_revision state.now.revisions) (record_item (done_record done.now)) }
{
    let item = done.item();
    if !done.has_lost_source() {
        source_change(options, state, item.copy_revision())
    } else if is_whole_file(&item) {
        Ok(CopyChange::Dropped)
    } else {
        Err(FaultKind::CopySource)
    }
}
