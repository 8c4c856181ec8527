//! Finds what to write in place of a copy that brings back excluded content.
//!
//! [`parts_of`] divides what a copy takes into parts. A part is copied if no excluded content comes back
//! with it. Otherwise it is written as a directory, followed by the parts in it, or as a file.
//!
//! ```
//! let source = Source {
//!     revision: 1,
//!     path: b"old",
//! };
//! let parts = parts_of(alloc, &index, &excluded, path, source)?;
//! ```
//!
//! `additions::divides` of `finding_tests` runs this. [`additions`] finds what to write in place of each
//! such copy of a dump, and `dump_expansion` writes the dump with it:
//!
//! ```
//! let table = PropertyTable::of(alloc, &dump)?;
//! let texts = TextTable::of(alloc, &dump)?;
//! let Ok(steads) = additions(alloc, &table, &texts, &index, &excluded)? else {
//!     return Ok(false);
//! };
//! // ..
//! let text = expanded(alloc, &dump, &steads)?;
//! ```
//!
//! `additions::expands` of `finding_tests` runs this. A file is written with its whole text, which is a
//! slice of the dump, or is made of deltas of the dump. If a delta can't be applied, or makes a text with
//! another digest than the dump gives, nothing can be written in place of the copy; [`NotAdded`] says
//! which copy that is, and why. [`laws`] says that the new dump loads to the same trees.
#![tactic(auto)]

mod addition;
pub mod laws;
mod not_added;
mod parts;

pub use addition::additions;
pub use dump_rules::Memory;
pub use not_added::{NotAdded, Reason};
pub use parts::{Form, Part, parts_of};
