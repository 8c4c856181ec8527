//! The records of a Subversion dump: a cutter returns them one after another, as views of the dump.
//!
//! A [`Record`] is a block of header lines, then its properties, then its text. [`Cutter::next`] returns
//! the next record, or says how the list of records ends: at the end of the dump, or at a byte where
//! there is no record, with the first fault that holds there. After the end a cutter returns the same
//! end at each call. A record is a view that can be copied. It holds places in the dump and what its
//! header lines say, which the cutter reads once, and it returns slices of the dump.
//!
//! ```
//! let mut cutter = Cutter::new(dump);
//! for version in versions {
//!     match cutter.next() {
//!         Cut::Item(record) if record.version() == version => {}
//!         _ => return false,
//!     }
//! }
//! ```
//!
//! `records::are_in_force` of `format_tests` runs this: it compares the format version in force for each record. `next`
//! returns one of these three:
//!
//! ```
//! match cut {
//!     Cut::Item(record) => Seen::Item(record.number()),
//!     Cut::Finished => Seen::Finished,
//!     Cut::Fault { kind, place } => Seen::Fault(kind, place),
//! }
//! ```
//!
//! `records::seen_in` of `format_tests` runs this.
//!
//! [`laws`] states two laws of dumps: no record begins another, and each dump has exactly one list of
//! records. This crate looks at each record by itself. It checks neither the order of nodes and
//! revisions nor property blocks, digests, copy sources and mergeinfo. It reads format versions 2 and 3
//! and no other; a concatenated dump may have both. It allocates nothing.
#![tactic(auto)]

mod cutter;
mod header;
mod kind;
pub mod laws;
mod record;

pub use cutter::{Cut, Cutter};
pub use kind::RecordKind;
pub use record::{Record, RecordPart};
