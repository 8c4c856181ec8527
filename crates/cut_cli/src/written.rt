//! Reports copies that are written as additions.
ghost use Rattle.std.specs.Prelude.{IsTrue, ◌≤◌, length};
ghost use Rattle.std.specs.List.{list_all};
ghost use Rattle.dump_cut.specs.steps.NamedPaths.{has_named_paths};

use crate::copy_lines::{
    write_kept, write_replaced, write_returns, write_written, write_written_parents,
};
use crate::examine::Asked;
use crate::expansion::Expansion;
use crate::lines::shown;
use crate::prefixes::is_at_or_below;
use crate::sizes::sizes_of;
use crate::words::Call;
use dump_changes::Memory;
use dump_cut::{Excluded, PlacedRest, Way, all_followed};
use dump_index::{ChangeIndex, NodeChange};
use std::alloc::Global;
use std::io::Write;

/// Whether one of the two rests of a path is the other one or below it.
fn is_one_in_other(one: &[u8], other: &[u8]) -> bool {
    one.is_empty() || other.is_empty() || is_at_or_below(one, other) || is_at_or_below(other, one)
}

/// Whether a part of what comes back is at or below an included path. Otherwise only directories above included paths
/// come back. `sources` is what included paths have from elsewhere, in the order of the dump.
fn is_included(found: PlacedRest<'_>, sources: &[PlacedRest<'_>]) -> bool {
    let first = sources.partition_point(|source| source.place < found.place);
    for source in &sources[first..] {
        if source.place > found.place {
            break;
        }
        if is_one_in_other(source.rest, found.rest) {
            return true;
        }
    }
    false
}

/// What comes back at or below included paths, in the order of the dump.
fn included_returns<'e>(
    alloc: Global,
    index: &ChangeIndex<'_>,
    included: &Excluded,
    returns: &[PlacedRest<'e>],
) -> Result<Vec<PlacedRest<'e>>, Memory>
    requires { IsTrue (list_all has_named_paths index.now) }
{
    let sources = all_followed(alloc, index, included, Way::ToSources)?;
    let mut found = Vec::new(alloc);
    for one in returns {
        if is_included(*one, &sources) {
            found.push(*one)?;
        }
    }
    Ok(found)
}

/// How many changes are in revisions that aren't written: those up to `after`, if it names a revision.
pub fn count_earlier(changes: &[NodeChange<'_>], after: Option<u64>) -> usize
    ensures { result ≤ length changes.now }
{
    match after {
        Some(number) => changes.partition_point(|change| change.revision <= number),
        None => 0,
    }
}

/// What comes back in the revisions that are written, in the order of the dump.
fn written_returns<'r, 'e>(
    index: &ChangeIndex<'_>,
    call: &Call<'_>,
    returns: &'r [PlacedRest<'e>],
) -> &'r [PlacedRest<'e>] {
    let first = count_earlier(index.changes(), call.after);
    &returns[returns.partition_point(|found| found.place < first)..]
}

/// Lists what copies bring back, with the size of the first of them.
pub fn list_returns<E: Write>(
    alloc: Global,
    dump: &[u8],
    index: &ChangeIndex<'_>,
    excluded: &Excluded,
    call: &Call<'_>,
    returns: &[PlacedRest<'_>],
    errors: &mut E,
) -> Result<(), Memory> {
    let most = shown(call).min(returns.len());
    let sizes = sizes_of(alloc, dump, index, excluded, &returns[..most])?;
    let _ = write_returns(errors, index.changes(), returns, &sizes);
    Ok(())
}

/// Reports which copies are written as additions.
pub fn report_written<E: Write>(
    alloc: Global,
    dump: &[u8],
    index: &ChangeIndex<'_>,
    asked: &Asked,
    call: &Call<'_>,
    returns: &[PlacedRest<'_>],
    errors: &mut E,
) -> Result<(), Memory>
    requires { IsTrue (list_all has_named_paths index.now) }
{
    let returns = written_returns(index, call, returns);
    if call.quiet || returns.is_empty() {
        return Ok(());
    }
    let excluded = &asked.excluded;
    let Some(included) = &asked.included else {
        let _ = write_kept(errors, returns.len());
        return list_returns(alloc, dump, index, excluded, call, returns, errors);
    };
    let found = included_returns(alloc, index, included, returns)?;
    if !found.is_empty() {
        let _ = write_written(errors, found.len());
        list_returns(alloc, dump, index, excluded, call, &found, errors)?;
    }
    let parents = returns.len().saturating_sub(found.len());
    if call.verbose && parents > 0 {
        let _ = write_written_parents(errors, parents);
    }
    Ok(())
}

/// Lists the copies at paths that aren't excluded that other nodes replace, or before which one is added. The result
/// is how many there are, and how many nodes replace them; `None` if there are none.
pub fn report_replaced<E: Write>(
    index: &ChangeIndex<'_>,
    excluded: &Excluded,
    expansion: &Expansion,
    call: &Call<'_>,
    errors: &mut E,
) -> Option<(usize, usize)> {
    let first = count_earlier(index.changes(), call.after);
    let mut copies: usize = 0;
    let mut nodes: usize = 0;
    let mut left = expansion.replaced.as_slice();
    for (place, change) in index.changes().iter().enumerate() {
        let [one, others @ ..] = left else {
            break;
        };
        if one.record_number != change.record_number {
            continue;
        }
        left = others;
        if place < first || excluded.covers(change.path) {
            continue;
        }
        copies = copies.saturating_add(1);
        nodes = nodes.saturating_add(one.nodes);
        if call.verbose {
            let _ = write_replaced(errors, index.changes(), place, one.nodes);
        }
    }
    if copies > 0 {
        Some((copies, nodes))
    } else {
        None
    }
}
