//! Texts that can't be made.

use svndiff::Defect;

/// What is wrong with a text that a delta makes.
#[derive(Clone, Copy, Debug, PartialEq, Eq)]
pub enum TextDefect {
    /// The delta can't be applied: it has this defect, at this byte.
    Delta { defect: Defect, byte: usize },
    /// The dump gives another MD5 digest of the text.
    Md5,
    /// The dump gives another SHA-1 digest of the text.
    Sha1,
}

/// A text that can't be made of a dump.
#[derive(Clone, Copy, Debug, PartialEq, Eq)]
pub struct NoText {
    /// The place in the index of the change with the delta.
    pub place: usize,
    pub defect: TextDefect,
}
