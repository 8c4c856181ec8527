//! Decides the fate of the next record, or finds its fault.
ghost use Rattle.std.specs.Prelude.{◌≡◌, List, IsTrue};
ghost use Rattle.dump_text.specs.PropertyList.{Property};
ghost use Rattle.dump_records.specs.steps.RecordViews.{record_item};
ghost use Rattle.dump_digest.specs.RecordParts.{is_node, is_kept_node, HasPropertyList};
ghost use Rattle.dump_digest.specs.steps.DoneViews.{done_record, done_settings, done_verdict};
ghost use Rattle.dump_filter.specs.steps.State.{view_group, view_state};
ghost use Rattle.dump_filter.specs.steps.Decision.{takes_node, is_in_order, node_fate, fate_of, decided, AreAsked};
ghost use Rattle.dump_filter.specs.steps.Knowledge.{AreKept};

use crate::copies::{CopyChange, copy_change};
use crate::revisions::revision_number;
use crate::state::State;
use dump_digest::Done;
use dump_records::{Record, RecordKind};
use dump_rules::Options;
use dump_text::FaultKind;

/// What the filter does with a record.
#[derive(Clone, Copy)]
pub(crate) enum Fate {
    /// It writes the node, with this copy source.
    Keep(CopyChange),
    /// It drops the node.
    Drop,
    /// It holds back the revision until a node of it is kept or its group ends.
    Hold,
    /// It writes the version or UUID record unchanged.
    Pass,
}

/// Whether the record may come next in the dump.
fn is_in_order(state: &State<'_>, item: &Record<'_>) -> bool
    ensures { result ≡ is_in_order (view_state state.now) (record_item item.now) }
{
    match item.kind() {
        RecordKind::Node => state.group.takes_node(),
        RecordKind::Revision => state.revisions.rises(revision_number(item)),
        RecordKind::Version | RecordKind::Uuid => true,
    }
}

/// The fate of a node that the options keep, or the fault of its copy source or of its mergeinfo.
fn node_fate(options: &Options, state: &State<'_>, done: &Done<'_>) -> Result<Fate, FaultKind>
    requires kept { AreKept state.now.revisions (view_group state.now.group) }
    requires taken { IsTrue (takes_node (view_group state.now.group)) }
    requires options { done_settings done.now ≡ options.now }
    requires node { IsTrue (is_kept_node options.now (record_item (done_record done.now))) }
    ensures { let r = record_item (done_record done.now) in (ps : List Property) → HasPropertyList r ps
        → result ≡ node_fate options.now (view_state state.now) r (done_verdict done.now).merge_ok ps }
{
    let copy = copy_change(options, state, done)?;
    let present = state.revisions.node_revision();
    match done.merge_fault(options, state.revisions.kept.first(), present) {
        Some(fault) => Err(fault),
        None => Ok(Fate::Keep(copy)),
    }
}

/// The fate of a record that may come next and whose properties can be read, or its fault.
fn fate_of(options: &Options, state: &State<'_>, done: &Done<'_>) -> Result<Fate, FaultKind>
    requires kept { AreKept state.now.revisions (view_group state.now.group) }
    requires taken { IsTrue (is_kept_node options.now (record_item (done_record done.now)))
        → IsTrue (takes_node (view_group state.now.group)) }
    requires options { done_settings done.now ≡ options.now }
    ensures { let r = record_item (done_record done.now) in
        (ps : List Property) → (IsTrue (is_kept_node options.now r) → HasPropertyList r ps)
        → result ≡ fate_of options.now (view_state state.now) r (done_verdict done.now).merge_ok ps }
{
    match done.item().kind() {
        RecordKind::Node => {
            if done.is_kept() {
                node_fate(options, state, done)
            } else {
                Ok(Fate::Drop)
            }
        }
        RecordKind::Revision => Ok(Fate::Hold),
        RecordKind::Version | RecordKind::Uuid => Ok(Fate::Pass),
    }
}

/// The fate of the next record, or its fault.
pub(crate) fn decide(
    options: &Options,
    state: &State<'_>,
    done: &Done<'_>,
) -> Result<Fate, FaultKind>
    requires kept { AreKept state.now.revisions (view_group state.now.group) }
    requires options { done_settings done.now ≡ options.now }
    ensures { let r = record_item (done_record done.now) in let v = done_verdict done.now in
        (ps : List Property) → AreAsked options.now r v ps
        → result ≡ decided options.now (view_state state.now) r v ps }
{
    let item = done.item();
    let verdict = done.verdict();
    if !is_in_order(state, &item) {
        return Err(FaultKind::Order);
    }
    if !verdict.props_ok {
        return Err(FaultKind::Props);
    }
    if !verdict.md5_ok {
        return Err(FaultKind::Md5);
    }
    if !verdict.sha1_ok {
        return Err(FaultKind::Sha1);
    }
    fate_of(options, state, done)
}
