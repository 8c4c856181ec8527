//! Nodes that name a revision by its number, and whether that number still is the revision's number after filtering.
ghost use Rattle.std.specs.Prelude.{◌≡◌, ◌↔◌, Bool, IsTrue, List};
ghost use Rattle.std.specs.List.{list_any};
ghost use Rattle.dump_text.specs.PropertyList.{IsPropertyBlock, Property};
ghost use Rattle.dump_text.specs.steps.PropertyViews.{props_bytes};
ghost use Rattle.dump_records.specs.RecordText.{DumpRecord};
ghost use Rattle.dump_records.specs.steps.RecordViews.{record_item};
ghost use Rattle.dump_digest.specs.RecordParts.{is_kept_node, is_mergeinfo, is_node};
ghost use Rattle.dump_history.specs.NumberGaps.{NamesRevision, SetsMergeinfo};
ghost use Rattle.dump_history.specs.steps.NamingTests.{TellsNaming};
ghost use Rattle.dump_survey.specs.steps.NamedRevisions.{leaves_number};

use crate::findings::tally::Tally;
use dump_digest::{is_mergeinfo, properties_of};
use dump_nodes::makes_copy;
use dump_records::Record;
use dump_rules::Options;
use dump_text::Props;

/// Whether the properties contain `svn:mergeinfo`.
fn has_mergeinfo(props: &Props<'_>) -> bool
    ensures { (ps : List Property) → IsPropertyBlock (props_bytes props.now) ps → result ≡ list_any is_mergeinfo ps }
{
    let mut entries = props.entries();
    while let Some(entry) = entries.next() {
        if is_mergeinfo(&entry) {
            return true;
        }
    }
    false
}

/// Whether a node sets mergeinfo in a property block that can be read.
fn sets_mergeinfo(item: &Record<'_>) -> bool
    ensures { IsTrue result ↔ SetsMergeinfo (record_item item.now) }
{
    match properties_of(item) {
        Some(props) => has_mergeinfo(&props),
        None => false,
    }
}

/// Whether a node names a revision: it is a copy, or it sets mergeinfo.
fn names_revision(item: &Record<'_>) -> bool
    requires { IsTrue (is_node (record_item item.now)) }
    ensures { IsTrue result ↔ NamesRevision (record_item item.now) }
{
    makes_copy(item) || sets_mergeinfo(item)
}

/// Whether this record is a kept node that names a revision, after a revision was dropped without renumbering. `tally`
/// describes the records before it, and `kept` says whether the record is a kept node.
pub(crate) fn leaves_number(item: &Record<'_>, kept: bool, options: &Options, tally: &Tally) -> bool
    requires { kept ≡ is_kept_node options.now (record_item item.now) }
    ensures { (names : DumpRecord → Bool) → TellsNaming names
        → result ≡ leaves_number options.now names tally.now (record_item item.now) }
{
    if options.renumber() || !tally.is_behind_dropped() || !kept {
        return false;
    }
    names_revision(item)
}
