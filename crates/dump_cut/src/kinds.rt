//! The kinds of nodes at the paths on which a change depends.
use dump_index::NodeKind;

/// The kind of node at the path of a change, at the directory that contains it, and at the source of its copy, if it
/// makes one. No directory contains the root.
#[derive(Clone, Copy, Debug, PartialEq, Eq)]
pub struct Kinds {
    pub here: Option<NodeKind>,
    pub parent: Option<NodeKind>,
    pub source: Option<NodeKind>,
}
