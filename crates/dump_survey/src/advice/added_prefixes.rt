//! The prefixes that a caller has to add so that the filter stops at no copy.
ghost use Rattle.std.specs.Prelude.{◌≡◌, IfOk, map};
ghost use Rattle.dump_survey.specs.PrefixesToAdd.{ArePrefixesToAddIn, uncovered};

use crate::advice::copy_needs::needs_in;
use crate::advice::growing_prefixes::wanted_paths;
use crate::findings::prefix_set::PrefixSet;
use dump_rules::{Memory, Options, Side, bare_prefix};
use std::alloc::Global;

/// Returns, in their order, the paths that no later path covers.
fn uncovered<'a>(alloc: Global, paths: &[&'a [u8]]) -> Result<Vec<&'a [u8]>, Memory>
    ensures { IfOk result (λ top. map (λ path. path.now) top.items ≡ uncovered (map (λ path. path.now) paths.now)) }
{
    let mut behind = PrefixSet::new(alloc);
    let mut top = Vec::new(alloc);
    let mut left = paths;
    while let [before @ .., path] = left {
        if !behind.begin(bare_prefix(path)) {
            top.push(*path)?;
        }
        behind.add(alloc, path)?;
        left = before;
    }
    top.reverse();
    Ok(top)
}

/// Returns the prefixes to add so that the filter, under these options, stops at no copy. Under `include` they are
/// copy sources, which have to be included too. Under `exclude` they are copies, which have to be excluded too. A path
/// that begins with two slashes isn't among them, since no prefix can name it.
///
/// The function takes memory for each copy that needs its source. It repeats the pass over all copies until no copy
/// needs another prefix. Under `include` it begins with the last copy, since a source is mostly older than its copy;
/// so for a chain of copies mostly the first pass adds all prefixes, and a second one finds nothing to add.
pub fn prefixes_to_add<'a>(
    alloc: Global,
    dump: &'a [u8],
    options: &Options,
) -> Result<Vec<&'a [u8]>, Memory>
    ensures { IfOk result (λ paths. ArePrefixesToAddIn options.now dump.now (map (λ path. path.now) paths.items)) }
{
    let side = options.side();
    let mut needs = needs_in(alloc, dump, side)?;
    if side == Side::Include {
        needs.reverse();
    }
    let wanted = wanted_paths(alloc, options, &needs)?;
    uncovered(alloc, &wanted)
}
