//! The paths to delete after copies that take something to excluded paths.
ghost use Rattle.std.specs.Prelude.{◌≡◌, ◌==◌, ◌++◌, IfOk, IsTrue, List, length, map, option_map};
ghost use Rattle.std.specs.List.{AllZip, list_all};
ghost use Rattle.dump_history.specs.WrittenNodes.{is_plain_path};
ghost use Rattle.dump_index.specs.steps.IndexLaws.{IsListed};
ghost use Rattle.dump_index.specs.steps.Listed.{listed_made, listed_of};
ghost use Rattle.dump_index.specs.steps.ToldKinds.{kinds_told_by};
ghost use Rattle.dump_trees.specs.steps.FollowedRests.{rests_made};
ghost use Rattle.dump_trees.specs.Following as Following;
ghost use Rattle.dump_trees.specs.steps.Looking.{Placed};
ghost use Rattle.dump_trees.specs.Paths.{names_of};
ghost use Rattle.dump_trees.specs.Siblings.{has_node_names};
ghost use Rattle.dump_cut.specs.steps.NamedPaths.{has_named_paths};
ghost use Rattle.dump_cut.specs.TrimmedCopies.{IsTrimmedBy};
ghost use Rattle.dump_cut.specs.steps.TrimmedCopies.{deletes_nothing};
ghost use Rattle.dump_cut.specs.steps.Deletes.{AreFoundDeletes, delete_texts_of};
ghost use Rattle.dump_cut.specs.steps.ExcludedPaths.{paths_of};

use crate::copies::source_of;
use crate::excluded::Excluded;
use crate::joined_rests::joined_rests;
use crate::returns::{Way, followed_rests};
use crate::trimming::trimmed;
use dump_index::{ChangeIndex, NodeChange};
use dump_nodes::is_canonical;
use dump_rules::Memory;
use dump_writer::{Memory as NoMemory, Piece};
use std::alloc::Global;
use std::marker::Model;

/// Whether `svnadmin load` reads the text unchanged, as the path of a node.
fn is_plain_path(path: &[u8]) -> bool
    ensures { result ≡ is_plain_path path.now }
{
    !path.contains(&b'\n') && !path.contains(&0) && is_canonical(path)
}

/// Whether `svnadmin load` reads each of these texts unchanged, as the path of a node.
fn are_plain_paths(paths: &[Vec<u8>]) -> bool
    ensures { result ≡ list_all (λ path. is_plain_path path.items) paths.now }
{
    for path in paths {
        if !is_plain_path(path) {
            return false;
        }
    }
    true
}

/// Whether each of these lists is empty.
fn are_empty(deletes: &[Vec<Vec<u8>>]) -> bool
    ensures { result ≡ list_all (λ paths. length paths.items == 0) deletes.now }
{
    for paths in deletes {
        if !paths.is_empty() {
            return false;
        }
    }
    true
}

/// The topmost excluded paths to which the change takes what isn't excluded at its source, if it makes a copy.
fn lost_paths(
    alloc: Global,
    index: &ChangeIndex<'_>,
    excluded: &Excluded,
    change: &NodeChange<'_>,
) -> Result<Vec<Vec<u8>>, Memory>
    requires { IsTrue (has_named_paths (listed_of change.now)) }
    ensures named { IfOk result (λ paths. IsTrue (list_all (λ path. has_node_names (names_of path.items)) paths.items)) }
    ensures lost { IfOk result (λ paths. (placed : List Placed) → AllZip IsListed index.now placed
        → map (λ path. names_of path.items) paths.items
        ≡ map (λ rest. names_of change.now.path.now ++ rest) (rests_made Following.Way.ToSources (paths_of excluded.now)
        (kinds_told_by index.now) placed (names_of change.now.path.now) (option_map listed_made change.now.made))) }
{
    let Some(source) = source_of(change) else {
        return Ok(Vec::new(alloc));
    };
    let rests = followed_rests(alloc, index, excluded, Way::ToSources, change.path, source)?;
    joined_rests(alloc, change.path, &rests)
}

/// The paths to delete after each node that the filter keeps, which is each change of the dump at a path that isn't
/// excluded.
#[derive(Drop)]
pub struct Deletes {
    behind: Vec<Vec<Vec<u8>>>,
}

impl Model for Deletes {
    ghost use Rattle.std.specs.Prelude.{ℕ, List, IsTrue};
    ghost use Rattle.dump_cut.specs.steps.TrimmedCopies.{are_plain};
    ghost use Rattle.dump_cut.specs.steps.Deletes.{delete_texts_of};

    ghost Value = { List (List (List ℕ)) };

    ghost view = { λ deletes. delete_texts_of deletes.behind.items };

    ghost invariant = { λ deletes. IsTrue (are_plain (delete_texts_of deletes.behind.items)) };
}

impl Deletes {
    /// Finds the paths to delete after each kept change. After a copy they are the topmost excluded paths to which it
    /// takes what isn't excluded at its source: with these deletes the copy can stay. Other changes have no paths. The
    /// error is the place of a copy with a path that no header line can have.
    pub fn find(
        alloc: Global,
        index: &ChangeIndex<'_>,
        excluded: &Excluded,
    ) -> Result<Result<Deletes, usize>, Memory>
        requires { IsTrue (list_all has_named_paths index.now) }
        ensures { IfOk result (λ found. (placed : List Placed) → AllZip IsListed index.now placed
            → AreFoundDeletes (paths_of excluded.now) (kinds_told_by index.now) placed found) }
    {
        let mut behind = Vec::new(alloc);
        let changes = index.changes();
        for (place, change) in changes.iter().enumerate() {
            if excluded.covers(change.path) {
                continue;
            }
            let paths = lost_paths(alloc, index, excluded, change)?;
            if !are_plain_paths(&paths) {
                return Ok(Err(place));
            }
            behind.push(paths)?;
        }
        Ok(Ok(Deletes { behind }))
    }

    /// Whether nothing is to be deleted.
    pub fn is_empty(&self) -> bool
        ensures { result ≡ deletes_nothing self.now }
    {
        are_empty(&self.behind)
    }

    /// The paths to delete after each of these changes.
    pub fn behind(&self) -> &[Vec<Vec<u8>>]
        ensures { delete_texts_of result.now ≡ self.now }
    {
        self.behind.as_slice()
    }

    /// A whole dump, with these deletes after its nodes.
    pub fn write_behind<'t>(&self, alloc: Global, dump: &'t [u8]) -> Result<Piece<'t>, NoMemory>
        ensures { IfOk result (λ piece. IsTrimmedBy self.now dump.now piece) }
    {
        trimmed(alloc, dump, self.behind.as_slice())
    }
}
