//! The paths to exclude so that only included paths, and the directories above them, are kept.
ghost use Rattle.std.specs.Prelude.{◌≡◌, ◌++◌, ◌∷◌, [], ℕ, List, IfOk, IsTrue, OnOk, map};
ghost use Rattle.std.specs.List.{list_all};
ghost use Rattle.dump_trees.specs.Paths.{names_of};
ghost use Rattle.dump_trees.specs.Siblings.{has_node_names};
ghost use Rattle.dump_trees.specs.steps.Siblings.{is_above_included, is_in_cut};
ghost use Rattle.dump_cut.specs.steps.FoundSiblings.{AreFoundSiblings};
ghost use Rattle.dump_cut.specs.steps.NamedPaths.{has_named_paths};
ghost use Rattle.dump_cut.specs.steps.ExcludedPaths.{paths_of};
ghost use Rattle.dump_cut.specs.steps.MoreSiblings.{AreMore, CoversSiblingsIn};

use crate::excluded::Excluded;
use dump_index::{ChangeIndex, joined};
use dump_rules::Memory;
use std::alloc::Global;

/// Whether the path is at, below or above one of the included paths. The root always is.
pub(crate) fn is_in_cut(alloc: Global, included: &Excluded, path: &[u8]) -> Result<bool, Memory>
    ensures { IfOk result (λ found. found ≡ is_in_cut (paths_of included.now) (names_of path.now)) }
{
    if path.is_empty() || included.covers(path) {
        return Ok(true);
    }
    Ok(!included.below(alloc, path)?.is_empty())
}

/// Adds what exists in some revision directly in a directory above included paths, and isn't in the cut.
fn add_siblings(
    alloc: Global,
    index: &ChangeIndex<'_>,
    included: &Excluded,
    directory: &[u8],
    siblings: &mut Excluded,
) -> Result<(), Memory>
    requires named { IsTrue (list_all has_named_paths index.now) }
    requires above { IsTrue (is_above_included (paths_of included.now) (names_of directory.now)) }
    requires directory { IsTrue (has_node_names (names_of directory.now)) }
    ensures more { OnOk result (AreMore (paths_of included.now) (paths_of siblings.old) (paths_of siblings.new)) }
    ensures covered { OnOk result (CoversSiblingsIn index.now (paths_of included.now) (names_of directory.now) (paths_of siblings.new)) }
{
    for name in &index.names_ever(alloc, directory)? {
        let path = joined(alloc, directory, name)?;
        if !is_in_cut(alloc, included, &path)? {
            siblings.add(alloc, &path)?;
        }
    }
    Ok(())
}

/// The siblings of included paths: what exists in some revision in a directory above one of them, and isn't in the
/// cut. A filter that excludes the siblings keeps what is at or below an included path, and the directories above.
pub fn find_siblings(
    alloc: Global,
    index: &ChangeIndex<'_>,
    included: &Excluded,
) -> Result<Excluded, Memory>
    requires { IsTrue (list_all has_named_paths index.now) }
    ensures { IfOk result (λ siblings. AreFoundSiblings index.now (paths_of included.now) (paths_of siblings)) }
{
    let mut siblings = Excluded::new(alloc);
    for directory in &included.directories_above(alloc)? {
        add_siblings(alloc, index, included, directory, &mut siblings)?;
    }
    Ok(siblings)
}
