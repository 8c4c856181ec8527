//! Why a load would reject a change.
ghost use Rattle.std.specs.Prelude.{◌≡◌, Bool, option_map};
ghost use Rattle.dump_trees.specs.steps.Looking.{Placed};
ghost use Rattle.dump_trees.specs.steps.LoadCheck.{kind_left, kind_made};
ghost use Rattle.dump_trees.specs.Paths.{names_of};
ghost use Rattle.dump_trees.specs.Restriction.{is_root};
ghost use Rattle.dump_index.specs.steps.IndexLaws.{IsListed};
ghost use Rattle.dump_index.specs.steps.Listed.{listed_made, listed_of};
ghost use Rattle.dump_index.specs.steps.ToldKinds.{kind_meant};
ghost use Rattle.dump_cut.specs.steps.Rejections.{copying_rejected, deletion_rejected, making_rejected, new_rejected, parent_rejected, props_rejected, rejected_for, setting_rejected, text_rejected};
ghost use Rattle.dump_cut.specs.steps.KindViews.{kinds_meant, sets_some};

use crate::kinds::Kinds;
use crate::parent_path::is_root;
use dump_index::{NodeChange, NodeKind, NodeMade, Setting};

/// Why `svnadmin load` would reject a node.
#[derive(Clone, Copy, Debug, PartialEq, Eq)]
pub enum Rejection {
    /// It adds or deletes the root.
    Root,
    /// The path does not exist.
    NoPath,
    /// The parent of the path is not a directory.
    NoParent,
    /// The path already exists.
    Exists,
    /// The copy source does not exist.
    NoSource,
    /// It sets a text on a directory.
    TextOnDirectory,
}

/// Why a load would reject the deletion that the change makes.
fn deletion_rejected(change: &NodeChange<'_>, here: Option<NodeKind>) -> Option<Rejection>
    ensures { result ≡ deletion_rejected change.now.deletes (is_root (names_of change.now.path.now)) (option_map kind_meant here) }
{
    if !change.deletes {
        return None;
    }
    if is_root(change.path) {
        return Some(Rejection::Root);
    }
    match here {
        Some(_) => None,
        None => Some(Rejection::NoPath),
    }
}

/// What exists at the path after the deletion, if the change makes one.
fn left_by(change: &NodeChange<'_>, here: Option<NodeKind>) -> Option<NodeKind>
    ensures { option_map kind_meant result ≡ kind_left change.now.deletes (option_map kind_meant here) }
{
    if change.deletes { None } else { here }
}

/// Why a load would reject a new node if its parent is of this kind.
fn parent_rejected(parent: Option<NodeKind>) -> Option<Rejection>
    ensures { result ≡ parent_rejected (option_map kind_meant parent) }
{
    match parent {
        Some(NodeKind::Directory) => None,
        _ => Some(Rejection::NoParent),
    }
}

/// Why a load would reject a new node if `left` exists at its path.
fn new_rejected(
    at_root: bool,
    left: Option<NodeKind>,
    parent: Option<NodeKind>,
) -> Option<Rejection>
    ensures { result ≡ new_rejected at_root (option_map kind_meant left) (option_map kind_meant parent) }
{
    if at_root {
        return Some(Rejection::Root);
    }
    match left {
        Some(_) => Some(Rejection::Exists),
        None => parent_rejected(parent),
    }
}

/// Why a load would reject a copy.
fn copying_rejected(
    at_root: bool,
    source: Option<NodeKind>,
    parent: Option<NodeKind>,
) -> Option<Rejection>
    ensures { result ≡ copying_rejected at_root (option_map kind_meant source) (option_map kind_meant parent) }
{
    if at_root {
        return Some(Rejection::Root);
    }
    match source {
        Some(_) => parent_rejected(parent),
        None => Some(Rejection::NoSource),
    }
}

/// Why a load would reject what the change makes, if `left` exists at its path.
fn making_rejected(
    change: &NodeChange<'_>,
    left: Option<NodeKind>,
    kinds: &Kinds,
) -> Option<Rejection>
    ensures { result ≡ making_rejected (option_map listed_made change.now.made) (is_root (names_of change.now.path.now))
        (option_map kind_meant left) (kinds_meant kinds.now) }
{
    match change.made {
        None => None,
        Some(NodeMade::Directory) => new_rejected(is_root(change.path), left, kinds.parent),
        Some(NodeMade::File) => new_rejected(is_root(change.path), left, kinds.parent),
        Some(NodeMade::CopyOf(_)) => copying_rejected(
            is_root(change.path),
            kinds.source,
            kinds.parent,
        ),
    }
}

/// What exists at the path after the change has made something, if `left` was there and `source` exists at its copy
/// source.
fn made_by(
    change: &NodeChange<'_>,
    left: Option<NodeKind>,
    source: Option<NodeKind>,
) -> Option<NodeKind>
    ensures { option_map kind_meant result
        ≡ kind_made (option_map listed_made change.now.made) (option_map kind_meant left) (option_map kind_meant source) }
{
    match change.made {
        None => left,
        Some(NodeMade::Directory) => Some(NodeKind::Directory),
        Some(NodeMade::File) => Some(NodeKind::File),
        Some(NodeMade::CopyOf(_)) => source,
    }
}

/// Whether properties or a text are set. Then a node has to exist.
fn sets_some(setting: Setting) -> bool
    ensures { result ≡ sets_some setting }
{
    matches!(setting, Setting::Replaces | Setting::Edits)
}

/// Why a load would reject the properties that are set on a node of this kind.
fn props_rejected(sets: bool, made: Option<NodeKind>) -> Option<Rejection>
    ensures { result ≡ props_rejected sets (option_map kind_meant made) }
{
    if !sets {
        return None;
    }
    match made {
        Some(_) => None,
        None => Some(Rejection::NoPath),
    }
}

/// Why a load would reject the text that is set on a node of this kind.
fn text_rejected(sets: bool, made: Option<NodeKind>) -> Option<Rejection>
    ensures { result ≡ text_rejected sets (option_map kind_meant made) }
{
    if !sets {
        return None;
    }
    match made {
        None => Some(Rejection::NoPath),
        Some(NodeKind::Directory) => Some(Rejection::TextOnDirectory),
        Some(NodeKind::File) => None,
    }
}

/// Why a load would reject the properties and the text that the change sets on a node of this kind.
fn setting_rejected(change: &NodeChange<'_>, made: Option<NodeKind>) -> Option<Rejection>
    ensures { result ≡ setting_rejected (sets_some change.now.props) (sets_some change.now.text) (option_map kind_meant made) }
{
    match props_rejected(sets_some(change.props), made) {
        Some(reason) => Some(reason),
        None => text_rejected(sets_some(change.text), made),
    }
}

/// Why `svnadmin load` would reject the change, if these kinds of nodes exist; `None` if it accepts the change. This
/// doesn't check whether a text delta applies to the old text.
pub fn rejection_of(change: &NodeChange<'_>, kinds: &Kinds) -> Option<Rejection>
    ensures { (p : Placed) → IsListed (listed_of change.now) p → result ≡ rejected_for p.change (kinds_meant kinds.now) }
{
    if let Some(reason) = deletion_rejected(change, kinds.here) {
        return Some(reason);
    }
    let left = left_by(change, kinds.here);
    if let Some(reason) = making_rejected(change, left, kinds) {
        return Some(reason);
    }
    setting_rejected(change, made_by(change, left, kinds.source))
}
