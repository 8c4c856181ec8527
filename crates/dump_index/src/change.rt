//! The changes that the nodes of a dump make, as data.

/// The copy source of a node.
#[derive(Clone, Copy, Debug, PartialEq, Eq)]
pub struct Source<'a> {
    pub revision: u64,
    /// Without a leading slash.
    pub path: &'a [u8],
}

/// What a node is.
#[derive(Clone, Copy, Debug, PartialEq, Eq)]
pub enum NodeKind {
    Directory,
    File,
}

/// What a change makes at its path: a new node, or a copy.
#[derive(Clone, Copy, Debug, PartialEq, Eq)]
pub enum NodeMade<'a> {
    Directory,
    File,
    CopyOf(Source<'a>),
}

/// What a change does to the properties of a node, or to its text.
#[derive(Clone, Copy, Debug, PartialEq, Eq)]
pub enum Setting {
    /// The change doesn't set them.
    Keeps,
    /// The change replaces them.
    Replaces,
    /// The change edits them, as a delta does.
    Edits,
    /// A delta of properties has no entry, so it edits nothing. `svnadmin load` accepts it even if no node exists.
    EditsNothing,
}

/// A change that a node of a dump makes. In this order, it deletes what exists at its path, makes something there, and
/// sets properties and a text; or it does only some of these.
#[derive(Clone, Copy, Debug, PartialEq, Eq)]
pub struct NodeChange<'a> {
    /// Without a leading slash.
    pub path: &'a [u8],
    pub made: Option<NodeMade<'a>>,
    /// The number of the revision that the node is in.
    pub revision: u64,
    /// Which record of the dump the node is.
    pub record_number: u64,
    // The smallest fields come last so that a value takes the least memory.
    pub deletes: bool,
    pub props: Setting,
    pub text: Setting,
}
