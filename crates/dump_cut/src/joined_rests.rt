//! Joins rests to a path.
ghost use Rattle.std.specs.Prelude.{◌≡◌, ◌++◌, IfOk, map};
ghost use Rattle.dump_trees.specs.Paths.{names_of};

use dump_index::joined;
use dump_rules::Memory;
use std::alloc::Global;

/// The rests, each joined to the path.
pub(crate) fn joined_rests(
    alloc: Global,
    top: &[u8],
    rests: &[&[u8]],
) -> Result<Vec<Vec<u8>>, Memory>
    ensures { IfOk result (λ paths. map (λ path. names_of path.items) paths.items
        ≡ map (λ rest. names_of top.now ++ names_of rest.now) rests.now) }
{
    let mut paths = Vec::new(alloc);
    for rest in rests {
        let path = joined(alloc, top, rest)?;
        paths.push(path)?;
    }
    Ok(paths)
}
