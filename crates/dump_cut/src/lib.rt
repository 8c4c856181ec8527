//! Examines a dump before the cut is written.
//!
//! [`canonical_prefix`] reads a prefix as `svnadmin load` reads paths. [`first_rejected`] finds the first
//! change of a dump that a load would reject, and why, as far as paths and kinds of nodes go.
//!
//! ```
//! let text = canonical_prefix(alloc, prefix.as_bytes())?;
//! Ok(text.as_slice() == wanted.as_bytes())
//! ```
//!
//! `cut::is_read` of `finding_tests` runs this.
//!
//! An [`Excluded`] is the set of paths that a cut excludes. [`all_followed`] finds what copies bring
//! back of them:
//!
//! ```
//! let excluded = Excluded::of(alloc, prefixes)?;
//! let found = all_followed(alloc, &index, &excluded, Way::ToCopies)?;
//! ```
//!
//! `cut::brings` of `finding_tests` runs this. [`Deletes`] are the paths to delete after copies that take something to
//! excluded paths. If nothing excluded comes back, the output of the filter with these deletes after its
//! nodes is the cut:
//!
//! ```
//! let Ok(deletes) = Deletes::find(alloc, &index, &excluded)? else {
//!     return Ok(false);
//! };
//! let Ok(piece) = deletes.write_behind(alloc, &dump) else {
//!     return Err(Memory);
//! };
//! ```
//!
//! `cut::deletes` of `finding_tests` runs this. [`follow`] also excludes the paths to which copies bring excluded
//! content, until nothing more comes back:
//!
//! ```
//! let additions = follow(alloc, &index, &mut excluded, way)?;
//! ```
//!
//! `cut::follows` of `finding_tests` runs this. [`find_siblings`] finds the paths to exclude so that only included
//! paths, and the directories above them, are kept:
//!
//! ```
//! let included = Excluded::of(alloc, &[prefix])?;
//! let siblings = find_siblings(alloc, &index, &included)?;
//! ```
//!
//! `cut::leaves` of `finding_tests` runs this. [`merge_paths`] returns the paths that mergeinfo in a dump names, each
//! once:
//!
//! ```
//! let found = merge_paths(alloc, MERGED.as_bytes())?;
//! ```
//!
//! `cut::names_paths` of `finding_tests` runs this. [`revision_fates`] returns the revisions of a dump, and whether the
//! filter keeps each:
//!
//! ```
//! let options = excluded.filter_options(alloc, true)?;
//! let fates = revision_fates(alloc, &dump, &options)?;
//! ```
//!
//! `cut::drops` of `finding_tests` runs this. [`later_part`] returns what a dump has after a revision, with what is
//! before its first revision:
//!
//! ```
//! let part = later_part(dump, number);
//! part.head == head.as_bytes() && part.revisions == revisions.as_bytes()
//! ```
//!
//! `cut::is_part` of `finding_tests` runs this.
#![tactic(auto)]

mod canonical;
mod copies;
mod deletes;
mod differences;
mod excluded;
mod fates;
mod followed;
mod joined_rests;
mod kinds;
mod later;
pub mod laws;
mod load_check;
mod mergeinfo_paths;
mod named_siblings;
mod parent_path;
mod rejection;
mod returns;
mod seen_parent;
mod siblings;
mod trimming;

pub use canonical::canonical_prefix;
pub use copies::source_of;
pub use deletes::Deletes;
pub use differences::cut_differences;
pub use dump_rules::Memory;
pub use excluded::Excluded;
pub use fates::{RevisionFate, revision_fates};
pub use followed::{Addition, follow};
pub use kinds::Kinds;
pub use later::{LaterPart, NoPart, first_part, later_part, no_part_after};
pub use load_check::{Rejected, first_rejected};
pub use mergeinfo_paths::merge_paths;
pub use named_siblings::add_named_siblings;
pub use rejection::{Rejection, rejection_of};
pub use returns::{PlacedRest, Way, all_followed, followed_rests};
pub use siblings::find_siblings;
