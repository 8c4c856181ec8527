//! Whether `svnadmin load` accepts a dump, and at which change it would stop.
ghost use Rattle.std.specs.Prelude.{◌≡◌, IfOk, IsTrue, length, option_and_then, option_map};
ghost use Rattle.std.specs.List.{list_all};
ghost use Rattle.dump_trees.specs.Paths.{names_of, parent_of};
ghost use Rattle.dump_trees.specs.Siblings.{has_node_names};
ghost use Rattle.dump_index.specs.steps.Kinds.{kind_look};
ghost use Rattle.dump_index.specs.steps.Listed.{listed_made, listed_of};
ghost use Rattle.dump_index.specs.steps.KnownKinds.{AreKindsBehind, source_look};
ghost use Rattle.dump_cut.specs.steps.LoadChecks.{IsFirstRejected};
ghost use Rattle.dump_cut.specs.steps.NamedPaths.{has_named_paths};
ghost use Rattle.dump_cut.specs.steps.KindsBefore.{AreKindsBefore, AreSeen};

use crate::copies::source_of;
use crate::kinds::Kinds;
use crate::parent_path::{is_root, parent_text};
use crate::rejection::{Rejection, rejection_of};
use crate::seen_parent::{Seen, kind_seen, seen_behind};
use dump_index::{ChangeIndex, NodeChange, NodeKind};
use dump_rules::Memory;
use std::alloc::Global;

/// A change that a load would reject.
#[derive(Clone, Copy, Debug, PartialEq, Eq)]
pub struct Rejected {
    /// The index of the change in the dump, from 0.
    pub place: usize,
    pub rejection: Rejection,
}

/// What exists at the directory that contains the path, after the changes in `known`.
fn parent_kind(
    alloc: Global,
    index: &ChangeIndex<'_>,
    known: &[Option<NodeKind>],
    seen: &Seen<'_>,
    path: &[u8],
) -> Result<Option<NodeKind>, Memory>
    requires named { IsTrue (has_node_names (names_of path.now)) }
    requires known { AreKindsBehind index.now known.now }
    requires seen { AreSeen index.now (length known.now) seen.now }
    ensures { IfOk result (λ kind. kind
        ≡ option_and_then (kind_look index.now (length known.now)) (parent_of (names_of path.now))) }
{
    if is_root(path) {
        return Ok(None);
    }
    let parent = parent_text(path);
    match kind_seen(seen, parent) {
        Some(kind) => Ok(kind),
        None => index.kind_known(alloc, parent, known.len(), known),
    }
}

/// What exists at the source of the change, if it makes a copy of an earlier revision.
fn source_kind(
    alloc: Global,
    index: &ChangeIndex<'_>,
    known: &[Option<NodeKind>],
    change: &NodeChange<'_>,
) -> Result<Option<NodeKind>, Memory>
    requires named { IsTrue (has_named_paths (listed_of change.now)) }
    requires known { AreKindsBehind index.now known.now }
    ensures { IfOk result (λ kind. kind
        ≡ source_look index.now change.now.revision (option_map listed_made change.now.made)) }
{
    let Some(source) = source_of(change) else {
        return Ok(None);
    };
    if source.revision >= change.revision {
        return Ok(None);
    }
    let end = index.end_of(source.revision);
    index.kind_known(alloc, source.path, end, known)
}

/// What exists at the paths on which the change depends, after the changes in `known` and before this one.
fn kinds_before(
    alloc: Global,
    index: &ChangeIndex<'_>,
    known: &[Option<NodeKind>],
    seen: &Seen<'_>,
    change: &NodeChange<'_>,
) -> Result<Kinds, Memory>
    requires named { IsTrue (has_named_paths (listed_of change.now)) }
    requires known { AreKindsBehind index.now known.now }
    requires seen { AreSeen index.now (length known.now) seen.now }
    ensures { IfOk result (λ kinds. AreKindsBefore index.now (length known.now) (listed_of change.now) kinds) }
{
    let here = index.kind_known(alloc, change.path, known.len(), known)?;
    let parent = parent_kind(alloc, index, known, seen, change.path)?;
    let source = source_kind(alloc, index, known, change)?;
    Ok(Kinds {
        here,
        parent,
        source,
    })
}

/// The first change of the index that `svnadmin load` would reject, and why; `None` if it would accept them all. Only
/// what exists at paths is checked, not whether a text delta applies to the old text.
pub fn first_rejected(alloc: Global, index: &ChangeIndex<'_>) -> Result<Option<Rejected>, Memory>
    requires { IsTrue (list_all has_named_paths index.now) }
    ensures { IfOk result (λ found. IsFirstRejected index.now found) }
{
    let changes = index.changes();
    let mut known = Vec::new(alloc);
    let mut seen = Seen {
        last: None,
        other: None,
    };
    for (place, change) in changes.iter().enumerate() {
        let kinds = kinds_before(alloc, index, &known, &seen, change)?;
        if let Some(rejection) = rejection_of(change, &kinds) {
            return Ok(Some(Rejected { place, rejection }));
        }
        seen = seen_behind(&seen, change, kinds.parent);
        known.push(index.kind_behind(place, kinds.here, kinds.source))?;
    }
    Ok(None)
}
