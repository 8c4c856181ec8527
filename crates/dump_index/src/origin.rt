//! The origins of what exists at paths.
ghost use Rattle.std.specs.Prelude.{◌≡◌, option_map};
ghost use Rattle.dump_index.specs.steps.Listed.{listed_made};
ghost use Rattle.dump_index.specs.steps.Looks.{IsMadeBy, kind_with_text};
ghost use Rattle.dump_index.specs.steps.KnownKinds.{left_kind, made_kind};

use crate::change::{NodeChange, NodeKind, NodeMade, Source};
use crate::path_text::rest_behind;

/// The origin of what a change leaves at a path, if the change decides what exists there.
#[derive(Clone, Copy)]
pub(crate) enum Origin<'p, 'a> {
    /// Nothing exists at the path.
    Nowhere,
    /// The node is new.
    New(NodeKind),
    /// The node existed at the source, or at this rest of the path below it.
    Copied(Source<'a>, &'p [u8]),
}

/// The origin of what the change leaves at the path. The path is the change's own path, or it is below that.
pub(crate) fn made_origin<'p, 'a>(change: &NodeChange<'a>, path: &'p [u8]) -> Origin<'p, 'a>
    ensures { IsMadeBy change.now path.now result }
{
    let rest = rest_behind(change.path, path);
    match change.made {
        Some(NodeMade::CopyOf(source)) => Origin::Copied(source, rest),
        Some(NodeMade::Directory) if rest.is_empty() => Origin::New(NodeKind::Directory),
        Some(NodeMade::File) if rest.is_empty() => Origin::New(NodeKind::File),
        _ => Origin::Nowhere,
    }
}

/// The kind of a node after a text is set on it, or not. No load sets a text on a directory, so the result is `None`
/// then.
pub(crate) fn with_text(kind: Option<NodeKind>, has_text: bool) -> Option<NodeKind>
    ensures { result ≡ kind_with_text has_text kind }
{
    match kind {
        Some(NodeKind::Directory) if has_text => None,
        _ => kind,
    }
}

/// What the change leaves at its path before it sets a text. The arguments are the kinds of nodes that exist before
/// the change at its path and at the source of the copy that it makes.
pub(crate) fn kind_made(
    change: &NodeChange<'_>,
    here: Option<NodeKind>,
    source: Option<NodeKind>,
) -> Option<NodeKind>
    ensures { result ≡ made_kind (option_map listed_made change.now.made) (left_kind change.now.deletes here) source }
{
    match change.made {
        None if change.deletes => None,
        None => here,
        Some(NodeMade::Directory) => Some(NodeKind::Directory),
        Some(NodeMade::File) => Some(NodeKind::File),
        Some(NodeMade::CopyOf(_)) => source,
    }
}
