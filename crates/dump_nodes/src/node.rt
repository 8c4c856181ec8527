//! Reads the parts of a node's record that say which change the node makes.
ghost use Rattle.std.specs.Prelude.{◌≡◌, IsTrue, unwrap_or};
ghost use Rattle.dump_text.specs.Names.{copy_revision_name};
ghost use Rattle.dump_records.specs.HeaderRules.{header_number};
ghost use Rattle.dump_records.specs.steps.RecordViews.{record_item};
ghost use Rattle.dump_digest.specs.RecordParts.{is_copy, is_node, node_path};
ghost use Rattle.dump_filter.specs.NewHeaders.{is_whole_file};
ghost use Rattle.dump_history.specs.RecordChanges.{copy_path};
ghost use Rattle.dump_history.specs.Findings.{makes_copy};

use crate::action::action_of;
use dump_records::Record;

/// The path of the node, as the dump spells it; empty for another record.
pub fn path_of<'a>(item: &Record<'a>) -> &'a [u8]
    ensures { result.now ≡ node_path (record_item item.now) }
{
    match item.path() {
        Some(path) => path,
        None => &[],
    }
}

/// The path of the node's copy source, as the dump spells it; empty if there is none.
pub fn copy_path_of<'a>(item: &Record<'a>) -> &'a [u8]
    requires { IsTrue (is_node (record_item item.now)) }
    ensures { result.now ≡ copy_path (record_item item.now) }
{
    match item.copy_path() {
        Some(path) => path,
        None => &[],
    }
}

/// The revision of the node's copy source; 0 if there is none.
pub fn copy_revision_of(item: &Record<'_>) -> u64
    requires { IsTrue (is_node (record_item item.now)) }
    ensures { result ≡ unwrap_or (header_number copy_revision_name (record_item item.now).headers) 0 }
{
    match item.copy_revision() {
        Some(number) => number,
        None => 0,
    }
}

/// Whether the node has a copy source. A node that changes or deletes may have the lines too, but a load ignores them.
pub fn is_copy(item: &Record<'_>) -> bool
    requires { IsTrue (is_node (record_item item.now)) }
    ensures { result ≡ is_copy (record_item item.now) }
{
    item.copy_path().is_some()
}

/// Whether the node makes a copy.
pub fn makes_copy(item: &Record<'_>) -> bool
    requires { IsTrue (is_node (record_item item.now)) }
    ensures { result ≡ makes_copy (record_item item.now) }
{
    is_copy(item) && action_of(item).makes()
}

/// Whether the node is a file with its text and its properties, neither of them a delta.
pub fn is_whole_file(item: &Record<'_>) -> bool
    ensures { result ≡ is_whole_file (record_item item.now) }
{
    item.is_file() && item.has_text() && !item.text_delta() && !item.prop_delta()
}
