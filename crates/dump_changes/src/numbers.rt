//! The revisions from which a load takes copies, if those of a dump aren't numbered 0, 1, 2 and so on.
ghost use Rattle.std.specs.Prelude.{◌≡◌, Some, true, MatchOption};
ghost use Rattle.dump_index.specs.steps.Listed.{listed_of};
ghost use Rattle.dump_changes.specs.steps.ListedDumps.{is_listed_copy, without_number};

use dump_index::{NodeChange, NodeMade, Source};

/// Whether the change copies from a revision that the dump doesn't have. `numbers` are those of the dump's revisions,
/// in order.
pub fn copies_from_gap(numbers: &[u64], change: &NodeChange<'_>) -> bool
    ensures { result ≡ true → is_listed_copy (listed_of change.now) ≡ true }
{
    match change.made {
        Some(NodeMade::CopyOf(source)) => numbers.binary_search(&source.revision).is_err(),
        _ => false,
    }
}

/// The revision from which `svnadmin load` takes a copy in the revision `at`, if the dump names `number`; both are
/// numbers of the dump, and so is the result. A load numbers the revisions one by one, from 1 on, or from 0 if the
/// dump has revision 0. It knows the new number of each revision that it has loaded, except of revision 0. If `number`
/// is between two of these revisions, the load uses the dump's number of the earlier one as a number in the
/// repository. It moves any other number by as much as that of the present revision. Revision 0 of the repository is
/// empty if the dump has none.
fn loaded_source(numbers: &[u64], at: u64, number: u64) -> Option<u64> {
    let first: u64 = match numbers {
        [0, ..] => 0,
        _ => 1,
    };
    let before = numbers.partition_point(|own| *own < at);
    let below = numbers.partition_point(|own| *own <= number).min(before);
    let last = match below.checked_sub(1) {
        Some(place) => numbers.get(place).copied()?,
        None => 0,
    };
    if last > 0 && last == number {
        return Some(number);
    }
    let loaded = if last > 0 && below < before {
        last
    } else {
        let back = at.checked_sub(number)?;
        (before as u64).saturating_add(first).checked_sub(back)?
    };
    let Some(place) = loaded.checked_sub(first) else {
        return Some(0);
    };
    if place < before as u64 {
        numbers.get(place as usize).copied()
    } else {
        None
    }
}

/// The change with the revision from which a load takes the copy, if it is a copy; `None` if the load has no revision
/// for it. `numbers` are those of the dump's revisions, in order.
pub fn with_loaded_source<'a>(numbers: &[u64], change: &NodeChange<'a>) -> Option<NodeChange<'a>>
    ensures { MatchOption result (is_listed_copy (listed_of change.now) ≡ true)
        (λ loaded. without_number (listed_of loaded) ≡ without_number (listed_of change.now)) }
{
    let Some(NodeMade::CopyOf(source)) = change.made else {
        return Some(*change);
    };
    let revision = loaded_source(numbers, change.revision, source.revision)?;
    Some(NodeChange {
        made: Some(NodeMade::CopyOf(Source { revision, ..source })),
        ..*change
    })
}
