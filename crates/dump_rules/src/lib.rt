//! The rules of the filter: its options, which paths they keep, the new numbers of revisions, and what
//! the filter makes of mergeinfo.
//!
//! [`Options`] hold what a user asked for: whether nodes are included or excluded, the prefixes, what
//! the filter does with revisions without a kept node, and three switches.
//!
//! ```
//! let [renumber, preserve, skip] = flags;
//! let given = Options::new(alloc, side, &prefixes, empty, renumber, preserve, skip)?;
//! ```
//!
//! `rules::prefixes::is_handed_in` of `filter_tests` runs this. A caller that needs few of them begins with plain
//! options:
//!
//! ```
//! let options = Options::include(alloc, &[prefix])?.with_empty(Empty::DropEmptied);
//! let options = options.with_renumber(renumber);
//! ```
//!
//! `rules::rewriting::rules` of `filter_tests` runs this. [`keeps`] says whether options keep a path. A prefix
//! matches whole names of a path: `trunk` matches `trunk` and `trunk/a`, but not `trunk2`. Slashes at
//! both ends of a prefix are ignored, and so is one at the front of a path. A prefix that is empty or
//! only slashes matches every path. Options that include the prefixes from `/p0000/` to `/p4999/` keep
//! none of these paths:
//!
//! ```
//! for path in [b"p5000/a".as_slice(), b"p", b"p000", b"o/p0000", b""] {
//!     if keeps(options, path) {
//!         return Ok(false);
//!     }
//! }
//! ```
//!
//! `rules::prefixes::keeps_five_thousand` of `filter_tests` runs this. [`bare_path`] and [`bare_prefix`] return what is
//! compared:
//!
//! ```
//! let prefix = bare_prefix(b"//trunk/");
//! let path = bare_path(b"/trunk/a");
//! ```
//!
//! `rules::slashes_at_the_ends_do_not_count` of `filter_tests` runs this.
//!
//! A [`Reach`] is a table of the revisions that were kept so far. Renumbering closes the gaps: the new
//! numbers of kept revisions count up from the dump's first number, whether or not the filter keeps that
//! revision. A dropped revision has the new number of the last kept one before it, if there is one.
//!
//! ```
//! let mut reach = Reach::new(rt.alloc(), 5);
//! // ..
//! reach.push(6)?;
//! reach.push(9)?;
//! let (fifth, sixth) = (Some(5), Some(6));
//! let rows = [(5, None), (6, fifth), (8, fifth), (9, sixth), (100, sixth)];
//! ```
//!
//! `rules::images_are_of_the_last_kept_revision` of `filter_tests` runs this, and compares the image of each revision
//! of `rows`:
//!
//! ```
//! for (revision, image) in rows {
//!     if reach.reach(*revision) != *image {
//!         return false;
//!     }
//! }
//! ```
//!
//! `rules::has_images` of `filter_tests` runs this.
//!
//! [`merge_reads`] says whether a value of `svn:mergeinfo` is lines of a path, a colon and ranges of
//! revisions, as `/trunk:1-4,6*`. A line can't have a revision both with `*` and without. [`without_lf`]
//! returns the value without an LF at its end, and [`merge_path_of`] returns the path of one of its
//! lines.
//!
//! [`rewrite`] returns the new value: the lines whose paths are kept, each with the runs of its map, in
//! new numbers if revisions are renumbered. [`laws`] says that a map has exactly one spelling.
//! [`rewrite`] reports two faults before it writes anything: a line whose path is dropped, and a number
//! that the dump can't have. A caller with several values reads them with [`Merged::with`], asks for the
//! faults of all of them, and then calls [`new_value`] for each.
//!
//! ```
//! let reach = Reach::new(rt.alloc(), 0);
//! // ..
//! let value = b"/a:4,1-3\n/b:9,7,5,3,1".as_slice();
//! if !merge_reads(value) {
//!     return Err("no mergeinfo".into());
//! }
//! let answered = match rewrite(rt.alloc(), value, &options, &reach, 1) {
//!     Ok(new) => new.as_slice() == b"/a:1-4\n/b:1,3,5,7,9".as_slice(),
//!     Err(fault) => fault == RewriteFault::Memory,
//! };
//! ```
//!
//! `rules::rewriting::new_value_or_no_memory` of `filter_tests` runs this with options that include all paths.
//!
//! `Options::new` allocates memory for copies of the prefixes, `Reach::push` allocates if its table
//! grows, and `rewrite` allocates the value; each returns an error if an allocation fails. Prefixes are
//! bytes: patterns, letter case and `..` have no special meaning. `rewrite` reads two of the switches;
//! the filter reads the others. A `Reach` renumbers whether or not the options ask for it.
#![tactic(auto)]

mod blocks;
pub mod laws;
mod memory;
mod merged;
mod mergeinfo;
mod options;
mod prefix;
mod prefix_index;
mod ranges;
mod reach;
mod rewriting;
mod runs;

pub use memory::Memory;
pub use merged::{Bounds, Merged};
pub use mergeinfo::{merge_path_of, merge_reads, without_lf};
pub use options::{Empty, Options, Side, keeps};
pub use prefix::{bare_path, bare_prefix};
pub use reach::Reach;
pub use rewriting::{RewriteFault, new_value, rewrite};
