//! The paths that mergeinfo in a dump names, whether something exists there or not.
ghost use Rattle.std.specs.Prelude.{IfOk, IsTrue, List, OnOk, map};
ghost use Rattle.std.specs.List.{list_all};
ghost use Rattle.dump_text.specs.PropertyList.{IsPropertyBlock, Property};
ghost use Rattle.dump_text.specs.steps.PropertyViews.{props_bytes};
ghost use Rattle.dump_records.specs.steps.RecordViews.{record_item};
ghost use Rattle.dump_trees.specs.Paths.{names_of};
ghost use Rattle.dump_trees.specs.Siblings.{has_node_names};
ghost use Rattle.dump_cut.specs.steps.NamedLines.{AreMergePaths};
ghost use Rattle.dump_cut.specs.steps.MergePaths.{AddsPaths, IsInProperties, IsInRecord, IsInValue};

use crate::canonical::canonical_prefix;
use dump_digest::{is_mergeinfo, properties_of};
use dump_records::{Cut, Cutter, Record};
use dump_rules::{Memory, merge_path_of};
use dump_text::Props;
use std::alloc::Global;
use std::collections::BTreeSet;

/// Adds the paths that the lines of a value name. A line without a colon names none.
fn add_value(alloc: Global, value: &[u8], paths: &mut BTreeSet<Vec<u8>>) -> Result<(), Memory>
    ensures { OnOk result (AddsPaths (map (λ path. names_of path.items) paths.old.keys)
        (map (λ path. names_of path.items) paths.new.keys) (IsInValue value.now)) }
{
    for line in value.split(|byte| *byte == b'\n') {
        if line.contains(&b':') {
            let path = canonical_prefix(alloc, merge_path_of(line))?;
            paths.insert(path)?;
        }
    }
    Ok(())
}

/// Adds the paths that the mergeinfo in these properties names. There may be several properties of the name.
fn add_properties(
    alloc: Global,
    props: &Props<'_>,
    paths: &mut BTreeSet<Vec<u8>>,
) -> Result<(), Memory>
    ensures { OnOk result ((ps : List Property) → IsPropertyBlock (props_bytes props.now) ps
        → AddsPaths (map (λ path. names_of path.items) paths.old.keys) (map (λ path. names_of path.items) paths.new.keys)
        (IsInProperties ps)) }
{
    let mut entries = props.entries();
    while let Some(entry) = entries.next() {
        if is_mergeinfo(&entry) {
            add_value(alloc, entry.value, paths)?;
        }
    }
    Ok(())
}

/// Adds the paths that the mergeinfo of a record names.
fn add_record(alloc: Global, item: &Record<'_>, paths: &mut BTreeSet<Vec<u8>>) -> Result<(), Memory>
    ensures { OnOk result (AddsPaths (map (λ path. names_of path.items) paths.old.keys)
        (map (λ path. names_of path.items) paths.new.keys) (IsInRecord (record_item item.now))) }
{
    if let Some(props) = properties_of(item) {
        add_properties(alloc, &props, paths)?;
    }
    Ok(())
}

/// The paths that mergeinfo in a dump names, in canonical form, each once and sorted by their bytes. Each name in them
/// can be the name of a node.
pub fn merge_paths(alloc: Global, dump: &[u8]) -> Result<BTreeSet<Vec<u8>>, Memory>
    ensures paths { IfOk result (λ paths. AreMergePaths dump.now (map (λ path. names_of path.items) paths.keys)) }
    ensures named { IfOk result (λ paths. IsTrue (list_all has_node_names (map (λ path. names_of path.items) paths.keys))) }
{
    let mut paths = BTreeSet::new(alloc);
    let mut cutter = Cutter::new(dump);
    while let Cut::Item(item) = cutter.next() {
        add_record(alloc, &item, &mut paths)?;
    }
    Ok(paths)
}
