//! Reads the change that a node makes.
ghost use Rattle.std.specs.Prelude.{◌≡◌, List, Option, [], IfSome, IsTrue, not, option_map, unwrap_or};
ghost use Rattle.std.specs.List.{list_all};
ghost use Rattle.dump_text.specs.Names.{copy_revision_name, property_length_name};
ghost use Rattle.dump_text.specs.HeaderLine.{has_byte};
ghost use Rattle.dump_text.specs.PropertyList.{IsPropertyBlock, Property};
ghost use Rattle.dump_text.specs.steps.PropertyViews.{props_bytes};
ghost use Rattle.dump_records.specs.HeaderRules.{header_number};
ghost use Rattle.dump_records.specs.steps.RecordViews.{record_item, record_number};
ghost use Rattle.dump_rules.specs.Prefix.{bare_path};
ghost use Rattle.dump_digest.specs.RecordParts.{HasPropertyList, is_copy, is_node, node_path};
ghost use Rattle.dump_digest.specs.steps.ContentViews.{ArePropertiesOf};
ghost use Rattle.dump_trees.specs.Changes.{PropertyChange};
ghost use Rattle.dump_history.specs.RecordChanges.{Patching, copy_path, loads_as_written, made_by_kind, made_of, property_change_of, text_change_of};
ghost use Rattle.dump_history.specs.Findings.{IsReadBlock};
ghost use Rattle.dump_index.specs.steps.Listed.{listed_made, listed_of};
ghost use Rattle.dump_index.specs.steps.IndexLaws.{HasProps, HasText};
ghost use Rattle.dump_nodes.specs.steps.Actions.{IsActionOf};
ghost use Rattle.dump_changes.specs.steps.Nodes.{IsChangeOf, has_entry, is_told};

use dump_digest::properties_of;
use dump_index::{NodeChange, NodeMade, Setting, Source};
use dump_nodes::{
    Action, action_of, copy_path_of, copy_revision_of, has_undefined_delta, is_copy, kind_of,
    loads_as_written, path_of,
};
use dump_records::Record;
use dump_rules::bare_path;
use dump_text::Props;

const DIRECTORY: &[u8] = b"dir";

const FILE: &[u8] = b"file";

/// Whether a node with this action and these properties makes a change that is modelled.
fn is_told(item: &Record<'_>, action: Action, props: &Option<Props<'_>>) -> bool
    requires node { IsTrue (is_node (record_item item.now)) }
    requires action { IsActionOf (record_item item.now) action }
    requires props { ArePropertiesOf (record_item item.now) props.now }
    ensures { (ps : Option (List Property)) → IsReadBlock (record_item item.now) ps
        → result ≡ is_told (record_item item.now) ps }
{
    let read = props.is_some();
    let delta = has_undefined_delta(item);
    let plain = loads_as_written(item, props);
    read & !delta & action.is_known() & plain
}

/// What a node makes, according to its kind.
fn made_by_kind<'a>(item: &Record<'_>) -> Option<NodeMade<'a>>
    ensures { option_map listed_made result ≡ made_by_kind (record_item item.now) }
{
    let kind = kind_of(item);
    if kind == DIRECTORY {
        Some(NodeMade::Directory)
    } else if kind == FILE {
        Some(NodeMade::File)
    } else {
        None
    }
}

/// What a node with this action makes.
fn made_of<'a>(item: &Record<'a>, action: Action) -> Option<NodeMade<'a>>
    requires node { IsTrue (is_node (record_item item.now)) }
    requires action { IsActionOf (record_item item.now) action }
    ensures { option_map listed_made result ≡ made_of (record_item item.now) }
{
    if !action.makes() {
        None
    } else if is_copy(item) {
        Some(NodeMade::CopyOf(Source {
            revision: copy_revision_of(item),
            path: bare_path(copy_path_of(item)),
        }))
    } else {
        made_by_kind(item)
    }
}

/// Whether the property block has an entry.
fn has_entry(props: &Props<'_>) -> bool
    ensures { (ps : List Property) → IsPropertyBlock (props_bytes props.now) ps → result ≡ has_entry ps }
{
    let mut entries = props.entries();
    match entries.next() {
        Some(_) => true,
        None => false,
    }
}

/// How a property delta changes the properties.
fn edit_of(item: &Record<'_>, props: &Option<Props<'_>>) -> Setting
    requires { ArePropertiesOf (record_item item.now) props.now }
    ensures { (ps : List Property) → HasPropertyList (record_item item.now) ps
        → HasProps result (Some (PropertyChange.Edited ps)) }
{
    match props {
        Some(props) => {
            if has_entry(props) {
                Setting::Edits
            } else {
                Setting::EditsNothing
            }
        }
        None => Setting::EditsNothing,
    }
}

/// How a node with these properties changes properties.
fn props_of(item: &Record<'_>, props: &Option<Props<'_>>) -> Setting
    requires { ArePropertiesOf (record_item item.now) props.now }
    ensures { (ps : List Property) → HasPropertyList (record_item item.now) ps
        → HasProps result (property_change_of (record_item item.now) ps) }
{
    if !item.has_props() {
        Setting::Keeps
    } else if item.prop_delta() {
        edit_of(item, props)
    } else {
        Setting::Replaces
    }
}

/// How a node changes a text.
fn text_of(item: &Record<'_>) -> Setting
    ensures { (patched : Patching) → HasText result (text_change_of patched (record_item item.now)) }
{
    if !item.has_text() {
        Setting::Keeps
    } else if item.text_delta() {
        Setting::Edits
    } else {
        Setting::Replaces
    }
}

/// The change that a node of the revision with this number makes; `None` if it makes none that is modelled.
pub fn node_change<'a>(item: &Record<'a>, revision: u64) -> Option<NodeChange<'a>>
    requires { IsTrue (is_node (record_item item.now)) }
    ensures change { IsChangeOf (record_item item.now) revision (option_map listed_of result) }
    ensures number { IfSome result (λ change. change.record_number ≡ record_number item.now) }
{
    let props = properties_of(item);
    let action = action_of(item);
    if !is_told(item, action, &props) {
        return None;
    }
    Some(NodeChange {
        path: bare_path(path_of(item)),
        deletes: action.deletes(),
        made: made_of(item, action),
        props: props_of(item, &props),
        text: text_of(item),
        revision,
        record_number: item.number(),
    })
}
