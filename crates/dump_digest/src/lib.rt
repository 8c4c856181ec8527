//! The verdict on a record: what a worker can say about its content before the filter sees it.
//!
//! [`check`] returns the [`Verdict`] on a record under some options. A [`Done`] is a record with its
//! verdict and with what the check read. Only [`Done::of`] makes one, so the verdict is always that of
//! its record. The verdict on a record doesn't depend on other records, so a caller may check them in
//! any order.
//!
//! ```
//! let options = Options::include(rt.alloc(), &[b"trunk"])?.with_renumber(true);
//! let done = Done::of(kept, &options);
//! ```
//!
//! `digest::a_done_tells_what_its_check_read` of `filter_tests` runs this on the record of a node
//! `trunk`, which is copied from `tags` and has the mergeinfo `/trunk:2-4`. It compares these answers of
//! `done`:
//!
//! ```
//! let range = Some(FaultKind::MergeRange);
//! done.is_kept()
//!     && done.has_mergeinfo()
//!     && done.has_lost_source()
//!     && done.merge_fault(options, 2, 4).is_none()
//!     && done.merge_fault(options, 3, 4) == range
//!     && done.merge_fault(options, 2, 3) == range
//! ```
//!
//! `digest::is_read` of `filter_tests` runs this.
//!
//! In a node that the options keep, [`check`] looks at the properties, the two digests of the text and
//! the mergeinfo. In a revision, kept or dropped, it looks at the properties; in other records at
//! nothing. What it doesn't check is ok. It checks a text if the record has a length for it and it is no
//! delta. It reads the text in place: nothing is copied or allocated, and nothing waits. A node under
//! format version 3 may delete properties, and deleted mergeinfo is no mergeinfo. This crate checks
//! nothing that depends on other records: the order of revisions, copy sources and the numbers in
//! mergeinfo. [`md5_ok`] and [`sha1_ok`] compare the digests of a header with those of any text.
#![tactic(auto)]

mod content;
mod digests;
mod done;
mod node_mergeinfo;
mod verdict;

pub use content::{is_kept, properties_of};
pub use digests::{md5_ok, sha1_ok};
pub use done::Done;
pub use node_mergeinfo::is_mergeinfo;
pub use verdict::{Verdict, check};
