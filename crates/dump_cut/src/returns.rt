//! What copies bring back of excluded paths, and to which paths they would be followed.
ghost use Rattle.std.specs.Prelude.{◌≡◌, ◌<◌, ◌++◌, ◌&&◌, not, false, is_some, length, map, List, IfOk, IsTrue, OnOk, option_map};
ghost use Rattle.std.specs.List.{AllZip, list_all};
ghost use Rattle.dump_trees.specs.Following.{from_of, to_of};
ghost use Rattle.dump_trees.specs.steps.Following.{followed_told};
ghost use Rattle.dump_trees.specs.steps.FollowedRests.{all_rests, rests_made};
ghost use Rattle.dump_trees.specs.steps.Looking.{Placed};
ghost use Rattle.dump_trees.specs.Paths.{names_of};
ghost use Rattle.dump_trees.specs.Returns.{is_covered};
ghost use Rattle.dump_trees.specs.Siblings.{has_node_names};
ghost use Rattle.dump_index.specs.steps.InOrder.{ends_in_slash};
ghost use Rattle.dump_index.specs.steps.IndexLaws.{IsListed};
ghost use Rattle.dump_index.specs.steps.Listed.{listed_made, listed_of};
ghost use Rattle.dump_index.specs.steps.ToldKinds.{kinds_told_by};
ghost use Rattle.dump_cut.specs.steps.FollowedPaths.{place_at_turn};
ghost use Rattle.dump_cut.specs.steps.Returned.{placed_rests, rest_meant, way_meant};
ghost use Rattle.dump_cut.specs.steps.ExcludedPaths.{paths_of};
ghost use Rattle.dump_cut.specs.steps.NamedPaths.{has_named_paths};

use crate::copies::source_of;
use crate::excluded::Excluded;
use dump_index::{ChangeIndex, NodeChange, Source, joined};
use dump_rules::Memory;
use std::alloc::Global;

/// The direction in which copies are followed.
#[derive(Clone, Copy, Debug, PartialEq, Eq)]
pub enum Way {
    /// From paths that are covered at the source of a copy to the copy.
    ToCopies,
    /// From paths that are covered at a copy to its source.
    ToSources,
}

/// What a copy brings that is covered on one side only.
#[derive(Clone, Copy, Debug, PartialEq, Eq)]
pub struct PlacedRest<'e> {
    /// The index of the change in the dump that makes the copy, from 0.
    pub place: usize,
    /// The path below that of the copy, and below its source; empty if it is all that is copied.
    pub rest: &'e [u8],
}

impl Way {
    /// The path from which a copy is followed.
    fn from<'p>(self, path: &'p [u8], source: &'p [u8]) -> &'p [u8]
        ensures { names_of result.now ≡ from_of (way_meant self) (names_of path.now) (names_of source.now) }
    {
        match self {
            Way::ToCopies => source,
            Way::ToSources => path,
        }
    }

    /// The place of the change whose copy is followed at this turn of a pass over `count` changes.
    pub(crate) fn place_at_turn(self, turn: usize, count: usize) -> usize
        requires { turn < count }
        ensures place { result ≡ place_at_turn (way_meant self) turn count }
        ensures inside { result < count }
    {
        match self {
            Way::ToCopies => turn,
            Way::ToSources => count - 1 - turn,
        }
    }

    /// The path to which a copy is followed.
    pub(crate) fn to<'p>(self, path: &'p [u8], source: &'p [u8]) -> &'p [u8]
        ensures { names_of result.now ≡ to_of (way_meant self) (names_of path.now) (names_of source.now) }
    {
        match self {
            Way::ToCopies => path,
            Way::ToSources => source,
        }
    }
}

/// Whether something exists at this rest of the source after the first `count` changes, and `excluded` doesn't cover
/// this rest at the path to which the copy is followed.
fn is_new_there(
    alloc: Global,
    index: &ChangeIndex<'_>,
    excluded: &Excluded,
    source: &[u8],
    count: usize,
    to: &[u8],
    rest: &[u8],
) -> Result<bool, Memory>
    requires source { ends_in_slash source.now ≡ false }
    requires rest { ends_in_slash rest.now ≡ false }
    ensures { IfOk result (λ found. found
        ≡ (is_some (kinds_told_by index.now count (names_of source.now ++ names_of rest.now))
        && not (is_covered (paths_of excluded.now) (names_of to.now ++ names_of rest.now)))) }
{
    let at = joined(alloc, to, rest)?;
    if excluded.covers(&at) {
        return Ok(false);
    }
    let there = joined(alloc, source, rest)?;
    let kind = index.kind_at(alloc, &there, count)?;
    Ok(kind.is_some())
}

/// The rests at which a copy of this source is followed. At each, something exists in the copied revision of the
/// source, and `excluded` covers it on one side and not on the other.
pub fn followed_rests<'e>(
    alloc: Global,
    index: &ChangeIndex<'_>,
    excluded: &'e Excluded,
    way: Way,
    path: &[u8],
    source: Source<'_>,
) -> Result<Vec<&'e [u8]>, Memory>
    requires { IsTrue (has_node_names (names_of source.path.now)) }
    ensures named { IfOk result (λ rests. IsTrue (list_all (λ rest. has_node_names (names_of rest.now)) rests.items)) }
    ensures followed { IfOk result (λ rests. (placed : List Placed) → AllZip IsListed index.now placed
        → map (λ rest. names_of rest.now) rests.items
        ≡ followed_told (way_meant way) (paths_of excluded.now) (kinds_told_by index.now) placed source.entry.revision
        (names_of path.now) (names_of source.entry.path.now)) }
{
    let to = way.to(path, source.path);
    let count = index.end_of(source.revision);
    let covered = excluded.rests_covered(alloc, way.from(path, source.path))?;
    let mut rests = Vec::new(alloc);
    for rest in &covered {
        if is_new_there(alloc, index, excluded, source.path, count, to, rest)? {
            rests.push(*rest)?;
        }
    }
    Ok(rests)
}

/// Appends the rests of the copy that the change at this place makes, if it makes one.
fn push_followed<'e>(
    alloc: Global,
    index: &ChangeIndex<'_>,
    excluded: &'e Excluded,
    way: Way,
    place: usize,
    change: &NodeChange<'_>,
    found: &mut Vec<PlacedRest<'e>>,
) -> Result<(), Memory>
    requires { IsTrue (has_named_paths (listed_of change.now)) }
    ensures { OnOk result ((placed : List Placed) → AllZip IsListed index.now placed
        → map rest_meant found.new.items ≡ map rest_meant found.old.items
        ++ placed_rests place (rests_made (way_meant way) (paths_of excluded.now) (kinds_told_by index.now) placed
        (names_of change.now.path.now) (option_map listed_made change.now.made))) }
{
    let Some(source) = source_of(change) else {
        return Ok(());
    };
    let rests = followed_rests(alloc, index, excluded, way, change.path, source)?;
    for rest in &rests {
        found.push(PlacedRest { place, rest: *rest })?;
    }
    Ok(())
}

/// The rests of all copies of the dump, in the order of the dump.
pub fn all_followed<'e>(
    alloc: Global,
    index: &ChangeIndex<'_>,
    excluded: &'e Excluded,
    way: Way,
) -> Result<Vec<PlacedRest<'e>>, Memory>
    requires { IsTrue (list_all has_named_paths index.now) }
    ensures { IfOk result (λ found. (placed : List Placed) → AllZip IsListed index.now placed
        → map rest_meant found.items
        ≡ all_rests (way_meant way) (paths_of excluded.now) (kinds_told_by index.now) placed (length placed)) }
{
    let mut found = Vec::new(alloc);
    let changes = index.changes();
    for (place, change) in changes.iter().enumerate() {
        push_followed(alloc, index, excluded, way, place, change, &mut found)?;
    }
    Ok(found)
}
