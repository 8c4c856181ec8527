//! What can go wrong around a cut: numbers that a dump lacks, mergeinfo that `svnadmin load` changes or rejects, and
//! externals that break. Nothing here decides what is written.
//!
//! [`Numbering`] is made of the numbers of a dump's revisions. It has the [`Hole`]s in them, and the number that a load
//! gives each revision:
//!
//! ```
//! let numbering = Numbering::of(alloc, &[0, 2, 5], None)?;
//! let holes = numbering.holes(alloc)?;
//! ```
//!
//! `warnings::holes_of` of `finding_tests` runs this. [`changed_mergeinfo`] says what a load does to a value of
//! `svn:mergeinfo` in one of these revisions, and [`read_externals`] reads a value of `svn:externals` as Subversion does.
//!
//! The rules are those of Subversion 1.14: `load-fs-vtable.c` and `mergeinfo.c` for mergeinfo, `externals.c` for externals.
//! They were compared with it.
#![tactic(auto)]

mod externals;
mod loaded_mergeinfo;
mod meaning;
mod names;
mod numbering;
mod read_mergeinfo;
mod spans;
mod tokens;

pub use externals::{External, Target, read_externals};
pub use meaning::{ChangedMergeinfo, PathSpans, changed_mergeinfo};
pub use numbering::{Hole, Numbering};
pub use spans::Span;
