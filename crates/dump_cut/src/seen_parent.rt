//! Caches the directories that contain the last changes.
ghost use Rattle.std.specs.Prelude.{◌≡◌, ◌<◌, ℕ, IfSome, List, MatchOption, length, true};
ghost use Rattle.dump_trees.specs.Paths.{names_of};
ghost use Rattle.dump_trees.specs.Restriction.{is_root};
ghost use Rattle.dump_index.specs.steps.Kinds.{kind_look};
ghost use Rattle.dump_index.specs.steps.Listed.{Listed};
ghost use Rattle.dump_cut.specs.steps.KindsBefore.{AreSeen, IsParentOf, IsSeen};

use crate::parent_path::{is_root, parent_text};
use dump_index::{NodeChange, NodeKind};

/// The directory that contains a change, and what exists there.
#[derive(Clone, Copy)]
pub(crate) struct SeenParent<'a> {
    pub(crate) path: &'a [u8],
    pub(crate) kind: Option<NodeKind>,
}

/// The directory that contains the last change, and another one that contains a change before it. The next changes are
/// often in one of these too.
#[derive(Clone, Copy)]
pub(crate) struct Seen<'a> {
    pub(crate) last: Option<SeenParent<'a>>,
    pub(crate) other: Option<SeenParent<'a>>,
}

/// What exists at this directory, if it is the cached one.
fn kind_if_seen(seen: Option<SeenParent<'_>>, path: &[u8]) -> Option<Option<NodeKind>>
    ensures { (listed : List Listed) (count : ℕ) → IsSeen listed count seen.entry
        → IfSome result (λ kind. kind ≡ kind_look listed count (names_of path.now)) }
{
    let seen = seen?;
    if seen.path == path {
        Some(seen.kind)
    } else {
        None
    }
}

/// What exists at this directory, if it is one of the cached ones.
pub(crate) fn kind_seen(seen: &Seen<'_>, path: &[u8]) -> Option<Option<NodeKind>>
    ensures { (listed : List Listed) (count : ℕ) → AreSeen listed count seen.now
        → IfSome result (λ kind. kind ≡ kind_look listed count (names_of path.now)) }
{
    match kind_if_seen(seen.last, path) {
        Some(kind) => Some(kind),
        None => kind_if_seen(seen.other, path),
    }
}

/// The cached directory that isn't this one; if neither is this one, the last.
fn seen_beside<'a>(seen: &Seen<'a>, path: &[u8]) -> Option<SeenParent<'a>>
    ensures { (listed : List Listed) (count : ℕ) → AreSeen listed count seen.now → IsSeen listed count result }
{
    match kind_if_seen(seen.last, path) {
        Some(_) => seen.other,
        None => seen.last,
    }
}

/// The cached directory, if its path is shorter than this one. In this case, a change at this path changes nothing
/// there.
fn seen_above<'a>(seen: Option<SeenParent<'a>>, path: &[u8]) -> Option<SeenParent<'a>>
    ensures same { (listed : List Listed) (count : ℕ) → IsSeen listed count seen.entry → IsSeen listed count result }
    ensures shorter { IfSome result (λ parent. length parent.path.now < length path.now) }
{
    let parent = seen?;
    if parent.path.len() < path.len() {
        Some(parent)
    } else {
        None
    }
}

/// The directory that contains the change, where this kind of node exists; `None` for the root.
fn seen_parent<'a>(change: &NodeChange<'a>, kind: Option<NodeKind>) -> Option<SeenParent<'a>>
    ensures { MatchOption result (is_root (names_of change.now.path.now) ≡ true) (IsParentOf change.now kind) }
{
    if is_root(change.path) {
        return None;
    }
    let path = parent_text(change.path);
    Some(SeenParent { path, kind })
}

/// The cached directories after a change whose directory has this kind.
pub(crate) fn seen_behind<'a>(
    seen: &Seen<'a>,
    change: &NodeChange<'a>,
    kind: Option<NodeKind>,
) -> Seen<'a>
    ensures last { MatchOption result.last (is_root (names_of change.now.path.now) ≡ true) (IsParentOf change.now kind) }
    ensures same { (listed : List Listed) (count : ℕ) → AreSeen listed count seen.now → IsSeen listed count result.other }
    ensures shorter { IfSome result.other (λ parent. length parent.path.now < length change.now.path.now) }
{
    let beside = seen_beside(seen, parent_text(change.path));
    Seen {
        last: seen_parent(change, kind),
        other: seen_above(beside, change.path),
    }
}
