//! The properties of the node at a path, after some of a dump's changes.
ghost use Rattle.std.specs.Prelude.{◌≡◌, false, IfOk, OnOk, map};
ghost use Rattle.dump_index.specs.steps.InOrder.{ends_in_slash};
ghost use Rattle.dump_index.specs.steps.Listed.{listed_of};
ghost use Rattle.dump_changes.specs.steps.NodeProperties.{ArePropertiesAt};
ghost use Rattle.dump_changes.specs.steps.ChangedProperties.{AreMadeOnTrail, as_property, AreChangedBy};

use crate::property_edit::{NodeProperty, apply_block};
use crate::property_table::PropertyTable;
use dump_index::{ChangeIndex, NodeChange, Part};
use dump_rules::Memory;
use std::alloc::Global;

/// Changes a node's properties as the change does.
fn apply_change<'a>(
    props: &mut Vec<NodeProperty<'a>>,
    table: &PropertyTable<'a>,
    change: &NodeChange<'_>,
) -> Result<(), Memory>
    ensures { OnOk result (AreChangedBy table.now (listed_of change.now) (map as_property props.old.items)
        (map as_property props.new.items)) }
{
    match table.block(change.record_number) {
        Some(block) => apply_block(props, change.props, block),
        // the table has no such record if it is of another dump
        None => Ok(()),
    }
}

/// The properties of the node at the path after the first `count` changes. The table and the index have to be of one
/// dump.
///
/// If two properties were last set by different changes, the one that was set later comes later. If no node is at the
/// path, the result has no meaning.
pub fn properties_at<'a>(
    alloc: Global,
    table: &PropertyTable<'a>,
    index: &ChangeIndex<'_>,
    path: &[u8],
    count: usize,
) -> Result<Vec<NodeProperty<'a>>, Memory>
    requires { ends_in_slash path.now ≡ false }
    ensures trail { IfOk result (λ props. AreMadeOnTrail table.now index.now path.now count (map as_property props.items)) }
    ensures node { IfOk result (λ props. ArePropertiesAt table.now index.now path.now count (map as_property props.items)) }
{
    let places = index.settings_at(alloc, Part::Props, path, count)?;
    let mut props = Vec::new(alloc);
    for place in &places {
        if let Some(change) = index.get(*place) {
            apply_change(&mut props, table, change)?;
        }
    }
    Ok(props)
}
