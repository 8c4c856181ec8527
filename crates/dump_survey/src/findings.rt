//! What a survey finds in the nodes of a dump, in the prefixes, and in the dump as a whole.

pub(crate) mod named_revisions;
pub(crate) mod node;
pub(crate) mod places;
pub(crate) mod prefix_findings;
pub(crate) mod prefix_set;
pub(crate) mod prefixes;
pub(crate) mod refused;
pub(crate) mod reported;
pub(crate) mod revision_numbers;
pub(crate) mod survey;
pub(crate) mod surveyor;
pub(crate) mod tally;
pub(crate) mod unread_revision;
