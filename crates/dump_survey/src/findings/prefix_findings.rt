//! What a survey finds in the prefixes of a call.
ghost use Rattle.std.specs.Prelude.{◌≡◌, IfOk, map};
ghost use Rattle.dump_records.specs.steps.RecordViews.{record_item};
ghost use Rattle.dump_survey.specs.PrefixFindings.{prefix_view};
ghost use Rattle.dump_survey.specs.steps.IdlePrefixes.{AreWithout, finding_by, is_begun_by, is_below_copy, is_touched_by, prefixes_by};

use crate::findings::prefix_set::PrefixSet;
use dump_nodes::{copy_path_of, is_canonical, is_copy, makes_copy, path_of};
use dump_records::Record;
use dump_rules::{Memory, bare_path, bare_prefix};
use std::alloc::Global;

/// What a survey can find in a prefix.
#[derive(Clone, Copy, Debug, PartialEq, Eq)]
pub enum PrefixFinding {
    /// The prefix isn't canonical, so no path of the loaded repository is at or below it.
    NotCanonical,
    /// No node has a path at or below the prefix, and no node is a copy from such a path or a copy to a path above it.
    Idle,
}

/// A prefix and a finding in it.
#[derive(Clone, Copy, Debug, PartialEq, Eq)]
pub struct ReportedPrefix<'o> {
    /// The prefix as the caller gave it.
    pub prefix: &'o [u8],
    pub finding: PrefixFinding,
}

/// Removes from `idle` the bare prefixes that match the node's path or its copy source.
fn leave_matched(idle: &mut PrefixSet, item: &Record<'_>)
    ensures { AreWithout (is_begun_by (record_item item.now)) idle.old idle.new }
{
    if !item.is_node() {
        return;
    }
    idle.leave(bare_path(path_of(item)));
    if is_copy(item) {
        idle.leave(bare_path(copy_path_of(item)));
    }
}

/// Removes from `idle` the bare prefixes at or below the node's path, if the node is a copy.
fn leave_copied(idle: &mut PrefixSet, item: &Record<'_>)
    ensures { AreWithout (is_below_copy (record_item item.now)) idle.old idle.new }
{
    if !item.is_node() {
        return;
    }
    if makes_copy(item) {
        idle.leave_below(bare_path(path_of(item)));
    }
}

/// Removes from `idle` the bare prefixes that aren't idle if the dump has this record.
pub(crate) fn leave_touched(idle: &mut PrefixSet, item: &Record<'_>)
    ensures { AreWithout (is_touched_by (record_item item.now)) idle.old idle.new }
{
    if idle.is_empty() {
        return;
    }
    leave_matched(idle, item);
    leave_copied(idle, item);
}

/// The finding in a prefix, if there is one; `idle` holds the idle bare prefixes.
fn finding_in(idle: &PrefixSet, prefix: &[u8]) -> Option<PrefixFinding>
    ensures { result ≡ finding_by idle.now prefix.now }
{
    let bare = bare_prefix(prefix);
    if !is_canonical(bare) {
        return Some(PrefixFinding::NotCanonical);
    }
    if idle.has(bare) {
        return Some(PrefixFinding::Idle);
    }
    None
}

/// The findings in the prefixes, in their order; `idle` holds the idle bare prefixes.
pub(crate) fn reported_prefixes<'o>(
    alloc: Global,
    prefixes: &[&'o [u8]],
    idle: &PrefixSet,
) -> Result<Vec<ReportedPrefix<'o>>, Memory>
    ensures { IfOk result (λ reported. map prefix_view reported.items
        ≡ prefixes_by idle.now (map (λ prefix. prefix.now) prefixes.now)) }
{
    let mut reported = Vec::new(alloc);
    for prefix in prefixes {
        if let Some(finding) = finding_in(idle, prefix) {
            reported.push(ReportedPrefix { prefix, finding })?;
        }
    }
    Ok(reported)
}
