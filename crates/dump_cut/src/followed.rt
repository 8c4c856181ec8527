//! The paths that are excluded too, because copies are followed from excluded paths.
ghost use Rattle.std.specs.Prelude.{◌≡◌, ◌<◌, ◌≤◌, [], ℕ, List, IfOk, IsTrue, OnOk, Some, length, map, option_map, slice_get};
ghost use Rattle.std.specs.List.{AllZip, list_all};
ghost use Rattle.dump_trees.specs.steps.FollowedRests.{all_rests};
ghost use Rattle.dump_trees.specs.Following as Following;
ghost use Rattle.dump_trees.specs.steps.Looking.{Placed};
ghost use Rattle.dump_trees.specs.Paths.{names_of};
ghost use Rattle.dump_trees.specs.Siblings.{has_node_names};
ghost use Rattle.dump_index.specs.steps.IndexLaws.{IsListed};
ghost use Rattle.dump_index.specs.steps.Listed.{Listed, listed_made, listed_of};
ghost use Rattle.dump_index.specs.steps.ToldKinds.{kinds_told_by};
ghost use Rattle.dump_cut.specs.steps.ExcludedPaths.{paths_of};
ghost use Rattle.dump_cut.specs.steps.FollowedCopies.{ComeByFollowing};
ghost use Rattle.dump_cut.specs.steps.FollowedPaths.{added_paths, AddsOne, AddsPath, AreFollowedTo, ArePlaced, IsIdle, IsIdleAt, KeepsFollowing, paths_made};
ghost use Rattle.dump_cut.specs.steps.Returned.{way_meant};
ghost use Rattle.dump_cut.specs.steps.NamedPaths.{has_named_paths};

use crate::copies::source_of;
use crate::excluded::Excluded;
use crate::joined_rests::joined_rests;
use crate::returns::{Way, followed_rests};
use dump_index::{ChangeIndex, NodeChange};
use dump_rules::Memory;
use std::alloc::Global;

/// A path that is excluded too.
#[derive(Drop)]
pub struct Addition {
    /// The index of the change in the dump whose copy is followed to the path, from 0.
    pub place: usize,
    /// The path, without a leading slash.
    pub path: Vec<u8>,
}

/// The paths to which the copy that the change makes is followed, if it makes one.
fn followed_paths(
    alloc: Global,
    index: &ChangeIndex<'_>,
    excluded: &Excluded,
    way: Way,
    change: &NodeChange<'_>,
) -> Result<Vec<Vec<u8>>, Memory>
    requires { IsTrue (has_named_paths (listed_of change.now)) }
    ensures named { IfOk result (λ paths. IsTrue (list_all (λ path. has_node_names (names_of path.items)) paths.items)) }
    ensures followed { IfOk result (λ paths. (place : ℕ) → slice_get index.now place ≡ Some (listed_of change.now)
        → AreFollowedTo (way_meant way) index.now (paths_of excluded.now) place (map (λ path. names_of path.items) paths.items)) }
    ensures exact { IfOk result (λ paths. (placed : List Placed) → AllZip IsListed index.now placed
        → map (λ path. names_of path.items) paths.items ≡ paths_made (way_meant way) (paths_of excluded.now)
        (kinds_told_by index.now) placed (names_of change.now.path.now) (option_map listed_made change.now.made)) }
{
    let Some(source) = source_of(change) else {
        return Ok(Vec::new(alloc));
    };
    let to = way.to(change.path, source.path);
    let rests = followed_rests(alloc, index, excluded, way, change.path, source)?;
    joined_rests(alloc, to, &rests)
}

/// Excludes the path, and adds it to the additions, if it isn't excluded yet.
fn add_path(
    alloc: Global,
    excluded: &mut Excluded,
    place: usize,
    path: &[u8],
    additions: &mut Vec<Addition>,
) -> Result<(), Memory>
    requires { IsTrue (has_node_names (names_of path.now)) }
    ensures one { OnOk result (AddsOne place (names_of path.now) additions.old.items additions.new.items) }
    ensures adds { OnOk result (AddsPath (paths_of excluded.old) (added_paths additions.old.items) (names_of path.now)
        (paths_of excluded.new) (added_paths additions.new.items)) }
{
    if !excluded.add(alloc, path)? {
        return Ok(());
    }
    let copy = Vec::from_slice(alloc, path)?;
    additions.push(Addition { place, path: copy })?;
    Ok(())
}

/// Excludes the paths that aren't excluded yet, and adds them to the additions.
fn add_paths(
    alloc: Global,
    excluded: &mut Excluded,
    place: usize,
    paths: &[Vec<u8>],
    additions: &mut Vec<Addition>,
) -> Result<(), Memory>
    requires { IsTrue (list_all (λ path. has_node_names (names_of path.items)) paths.now) }
    ensures placed { OnOk result ((way : Following.Way) (listed : List Listed)
        → AreFollowedTo way listed (paths_of excluded.old) place (map (λ path. names_of path.items) paths.now)
        → ArePlaced way listed additions.old.items → ArePlaced way listed additions.new.items) }
    ensures keeps { OnOk result ((way : Following.Way) (listed : List Listed)
        → AreFollowedTo way listed (paths_of excluded.old) place (map (λ path. names_of path.items) paths.now)
        → KeepsFollowing way listed (paths_of excluded.old) (added_paths additions.old.items) (paths_of excluded.new)
        (added_paths additions.new.items)) }
    ensures grows { OnOk result (length additions.old.items ≤ length additions.new.items) }
    ensures idle { OnOk result (length additions.new.items ≡ length additions.old.items
        → IsIdle (paths_of excluded.old) (map (λ path. names_of path.items) paths.now) (paths_of excluded.new)) }
{
    for path in paths {
        add_path(alloc, excluded, place, path, additions)?;
    }
    Ok(())
}

/// Follows the copy that the change at this place makes, if it makes one.
fn follow_at(
    alloc: Global,
    index: &ChangeIndex<'_>,
    excluded: &mut Excluded,
    way: Way,
    place: usize,
    additions: &mut Vec<Addition>,
) -> Result<(), Memory>
    requires named { IsTrue (list_all has_named_paths index.now) }
    requires inside { place < length index.now }
    ensures placed { OnOk result (ArePlaced (way_meant way) index.now additions.old.items
        → ArePlaced (way_meant way) index.now additions.new.items) }
    ensures keeps { OnOk result (KeepsFollowing (way_meant way) index.now (paths_of excluded.old) (added_paths additions.old.items)
        (paths_of excluded.new) (added_paths additions.new.items)) }
    ensures grows { OnOk result (length additions.old.items ≤ length additions.new.items) }
    ensures idle { OnOk result (length additions.new.items ≡ length additions.old.items
        → IsIdleAt (way_meant way) index.now (paths_of excluded.old) place (paths_of excluded.new)) }
{
    let change = &index.changes()[place];
    let paths = followed_paths(alloc, index, excluded, way, change)?;
    add_paths(alloc, excluded, place, &paths, additions)?;
    Ok(())
}

/// Follows each copy of the dump once. The order is that of the dump, or if copies are followed to sources, the
/// reverse, so that one pass follows a chain of copies.
fn follow_each(
    alloc: Global,
    index: &ChangeIndex<'_>,
    excluded: &mut Excluded,
    way: Way,
    additions: &mut Vec<Addition>,
) -> Result<(), Memory>
    requires { IsTrue (list_all has_named_paths index.now) }
    ensures placed { OnOk result (ArePlaced (way_meant way) index.now additions.old.items
        → ArePlaced (way_meant way) index.now additions.new.items) }
    ensures keeps { OnOk result (KeepsFollowing (way_meant way) index.now (paths_of excluded.old) (added_paths additions.old.items)
        (paths_of excluded.new) (added_paths additions.new.items)) }
    ensures idle { OnOk result (length additions.new.items ≡ length additions.old.items
        → (placed : List Placed) → AllZip IsListed index.now placed
        → all_rests (way_meant way) (paths_of excluded.new) (kinds_told_by index.now) placed (length placed) ≡ []) }
{
    let count = index.len();
    for turn in 0..count {
        let place = way.place_at_turn(turn, count);
        follow_at(alloc, index, excluded, way, place, additions)?;
    }
    Ok(())
}

/// Follows the copies of a dump that loads, until no copy is followed to a path that isn't excluded yet. Returns the
/// paths that are excluded too, in this order. If an allocation fails, some paths may already be excluded.
pub fn follow(
    alloc: Global,
    index: &ChangeIndex<'_>,
    excluded: &mut Excluded,
    way: Way,
) -> Result<Vec<Addition>, Memory>
    requires { IsTrue (list_all has_named_paths index.now) }
    ensures followed { IfOk result (λ additions. ComeByFollowing (way_meant way) index.now (paths_of excluded.old)
        (added_paths additions.items) (paths_of excluded.new)) }
    ensures placed { IfOk result (λ additions. ArePlaced (way_meant way) index.now additions.items) }
    ensures ended { OnOk result ((placed : List Placed) → AllZip IsListed index.now placed
        → all_rests (way_meant way) (paths_of excluded.new) (kinds_told_by index.now) placed (length placed) ≡ []) }
{
    let mut additions = Vec::new(alloc);
    // each pass except the last adds a path, and no memory holds this many
    for _ in 0..u64::MAX {
        let before = additions.len();
        follow_each(alloc, index, excluded, way, &mut additions)?;
        if additions.len() == before {
            return Ok(additions);
        }
    }
    Err(Memory)
}
