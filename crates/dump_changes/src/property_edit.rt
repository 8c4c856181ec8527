//! How the property block of a change changes a node's properties.
ghost use Rattle.std.specs.Prelude.{◌≡◌, List, Some, OnOk, map};
ghost use Rattle.dump_text.specs.PropertyList.{IsPropertyBlock, Property};
ghost use Rattle.dump_text.specs.steps.PropertyViews.{entry_property, props_bytes};
ghost use Rattle.dump_records.specs.RecordText.{DumpRecord};
ghost use Rattle.dump_trees.specs.Changes.{edited_with, with_entry};
ghost use Rattle.dump_history.specs.RecordChanges.{property_change_of};
ghost use Rattle.dump_index.specs.steps.IndexLaws.{HasProps, props_by};
ghost use Rattle.dump_changes.specs.steps.ChangedProperties.{as_property};

use dump_index::Setting;
use dump_rules::Memory;
use dump_text::{Entry, Props};

/// A property of a node. Its name and its value are parts of the dump.
#[derive(Clone, Copy, Debug, PartialEq, Eq)]
pub struct NodeProperty<'a> {
    pub name: &'a [u8],
    pub value: &'a [u8],
}

/// Sets the entry's property, or removes it.
fn apply_entry<'a>(props: &mut Vec<NodeProperty<'a>>, entry: &Entry<'a>) -> Result<(), Memory>
    ensures { OnOk result (map as_property props.new.items
        ≡ with_entry (entry_property entry.now) (map as_property props.old.items)) }
{
    props.retain(|prop| prop.name != entry.name);
    if !entry.gone {
        props.push(NodeProperty {
            name: entry.name,
            value: entry.value,
        })?;
    }
    Ok(())
}

/// Applies the entries of the block, one after the other.
fn apply_entries<'a>(props: &mut Vec<NodeProperty<'a>>, block: &Props<'a>) -> Result<(), Memory>
    ensures { OnOk result ((ps : List Property) → IsPropertyBlock (props_bytes block.now) ps
        → map as_property props.new.items ≡ edited_with ps (map as_property props.old.items)) }
{
    let mut entries = block.entries();
    while let Some(entry) = entries.next() {
        apply_entry(props, &entry)?;
    }
    Ok(())
}

/// Changes a node's properties as a change with this setting and this property block does.
pub(crate) fn apply_block<'a>(
    props: &mut Vec<NodeProperty<'a>>,
    setting: Setting,
    block: &'a [u8],
) -> Result<(), Memory>
    ensures { OnOk result ((r : DumpRecord) (ps : List Property) → r.props ≡ block.now → IsPropertyBlock r.props ps
        → HasProps setting (property_change_of r ps)
        → props_by (property_change_of r ps) (map as_property props.old.items)
        ≡ Some (map as_property props.new.items)) }
{
    let Some(block) = Props::read_with_deletes(block) else {
        // a node with such a block makes no change
        return Ok(());
    };
    match setting {
        Setting::Keeps | Setting::EditsNothing => Ok(()),
        Setting::Replaces => {
            props.clear();
            apply_entries(props, &block)
        }
        Setting::Edits => apply_entries(props, &block),
    }
}
