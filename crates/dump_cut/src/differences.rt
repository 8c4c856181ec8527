//! The paths at which two cuts of a dump differ.
ghost use Rattle.std.specs.Prelude.{◌≡◌, ◌++◌, IfOk, IsTrue, List, OnOk, filter, map};
ghost use Rattle.std.specs.List.{list_all};
ghost use Rattle.dump_trees.specs.Paths.{names_of};
ghost use Rattle.dump_cut.specs.steps.CutAlike.{AreDifferences, covered_alone, is_covered_by_one};
ghost use Rattle.dump_cut.specs.steps.ExcludedPaths.{paths_of};

use crate::excluded::Excluded;
use crate::mergeinfo_paths::merge_paths;
use dump_index::ChangeIndex;
use dump_rules::Memory;
use std::alloc::Global;

/// Appends those of the paths at which something exists in some revision, and which the others don't cover.
fn push_alone(
    alloc: Global,
    index: &ChangeIndex<'_>,
    others: &Excluded,
    paths: &Excluded,
    found: &mut Vec<Vec<u8>>,
) -> Result<(), Memory>
    ensures { OnOk result (map (λ path. names_of path.items) found.new.items
        ≡ map (λ path. names_of path.items) found.old.items ++ covered_alone index.now (paths_of others.now) (paths_of paths.now)) }
{
    for path in &paths.paths(alloc)? {
        if !others.covers(path) && index.exists_ever(alloc, path)? {
            let copy = Vec::from_slice(alloc, path)?;
            found.push(copy)?;
        }
    }
    Ok(())
}

/// The paths at which two cuts of a dump differ; one excludes these paths, and the other one the others. They are of
/// two kinds: excluded paths at which something exists in some revision and which the other cut doesn't exclude, and
/// paths that mergeinfo names and only one of the cuts excludes.
pub fn cut_differences(
    alloc: Global,
    dump: &[u8],
    index: &ChangeIndex<'_>,
    paths: &Excluded,
    others: &Excluded,
) -> Result<Vec<Vec<u8>>, Memory>
    ensures { IfOk result (λ found. AreDifferences dump.now index.now (paths_of paths.now) (paths_of others.now)
        (map (λ path. names_of path.items) found.items)) }
{
    let mut found = Vec::new(alloc);
    push_alone(alloc, index, others, paths, &mut found)?;
    push_alone(alloc, index, paths, others, &mut found)?;
    for path in &merge_paths(alloc, dump)? {
        if paths.covers(path) != others.covers(path) {
            let copy = Vec::from_slice(alloc, path)?;
            found.push(copy)?;
        }
    }
    Ok(found)
}
