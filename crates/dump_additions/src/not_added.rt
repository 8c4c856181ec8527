//! Copies for which no other nodes can be written.

use dump_changes::NoText;

/// Why nothing can be written in place of a copy.
#[derive(Clone, Copy, Debug, PartialEq, Eq)]
pub enum Reason {
    /// The text of a file that comes back can't be made.
    Text(NoText),
    /// A load would reject the copy: nothing exists at its source, or a directory does and the change sets a text.
    NoLoad,
    /// A load would read one of the nodes in another way than the program means it, as
    /// [`dump_expansion::NewNode::can_be_written`] says. A path, a digest or the name of a property has a byte that it
    /// can't have, or a number is too large.
    NotWritable,
}

/// A copy that brings back excluded content, and for which no other nodes can be written.
#[derive(Clone, Copy, Debug, PartialEq, Eq)]
pub struct NotAdded {
    /// The copy's place in the index.
    pub place: usize,
    pub reason: Reason,
}
