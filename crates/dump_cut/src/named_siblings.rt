//! The siblings of included paths that mergeinfo names, whether something exists there or not.
ghost use Rattle.std.specs.Prelude.{◌≡◌, ◌||◌, IsTrue, OnOk};
ghost use Rattle.dump_trees.specs.CanonicalPaths.{canonical_path};
ghost use Rattle.dump_cut.specs.steps.NamedLines.{CoverMergeinfo, is_left_by};
ghost use Rattle.dump_cut.specs.steps.ExcludedPaths.{paths_of};
ghost use Rattle.dump_cut.specs.steps.MoreSiblings.{AreMore};

use crate::canonical::{is_node_name, push_name};
use crate::excluded::Excluded;
use crate::mergeinfo_paths::merge_paths;
use crate::siblings::is_in_cut;
use dump_rules::Memory;
use std::alloc::Global;

/// Adds the first path that isn't in the cut, on the way from the root to the path that this prefix names, if there is
/// one.
fn add_on_way(
    alloc: Global,
    included: &Excluded,
    prefix: &[u8],
    siblings: &mut Excluded,
) -> Result<(), Memory>
    ensures more { OnOk result (AreMore (paths_of included.now) (paths_of siblings.old) (paths_of siblings.new)) }
    ensures covered { OnOk result (IsTrue (is_left_by (paths_of included.now) (paths_of siblings.new) (canonical_path prefix.now))) }
{
    let mut path = Vec::new(alloc);
    for name in prefix.split(|byte| *byte == b'/') {
        if is_node_name(name) {
            push_name(&mut path, name)?;
            if !is_in_cut(alloc, included, &path)? {
                siblings.add(alloc, &path)?;
                return Ok(());
            }
        }
    }
    Ok(())
}

/// Adds the siblings of included paths that the mergeinfo in a dump names. So the filter omits lines that name paths
/// outside of the cut. It keeps lines with other paths, whether something exists there or not.
pub fn add_named_siblings(
    alloc: Global,
    dump: &[u8],
    included: &Excluded,
    siblings: &mut Excluded,
) -> Result<(), Memory>
    ensures more { OnOk result (AreMore (paths_of included.now) (paths_of siblings.old) (paths_of siblings.new)) }
    ensures covered { OnOk result (CoverMergeinfo (paths_of included.now) (paths_of siblings.new) dump.now) }
{
    let paths = merge_paths(alloc, dump)?;
    for path in &paths {
        add_on_way(alloc, included, path, siblings)?;
    }
    Ok(())
}
