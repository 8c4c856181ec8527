//! The advice of a survey: the prefixes to add, the directories to create, and the number of omitted lines of
//! mergeinfo.

pub(crate) mod added_prefixes;
pub(crate) mod copy_needs;
pub(crate) mod growing_prefixes;
pub(crate) mod omitted_mergeinfo;
pub(crate) mod parents;
