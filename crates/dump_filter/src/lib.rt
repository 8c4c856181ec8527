//! The filter: what it writes for each record, which records it rejects, and its counts.
//!
//! A [`Filter`] takes the records of a dump one after another, each as a [`Done`](dump_digest::Done)
//! with the filter's options. For each record it returns the piece to write: nothing, the record, or a
//! revision that it held back and then the record. [`Filter::finish`] returns the last piece and the
//! [`Report`]. After a step that finds a fault or runs out of memory, the filter is closed: each further
//! call fails.
//!
//! ```
//! let Cut::Item(record) = cutter.next() else {
//!     return Err(None);
//! };
//! // ..
//! let done = Done::of(record, options);
//! match filter.step(alloc, done) {
//!     Ok(piece) => {
//!         // ..
//!         Ok(())
//!     }
//!     Err(fault) => {
//!         // ..
//!         Err(Some(fault))
//!     }
//! }
//! ```
//!
//! `filter::pass` of `filter_tests` runs this for each record of the example dumps, and collects the
//! bytes of each piece. A run begins and ends with these calls:
//!
//! ```
//! let mut filter = Filter::new(alloc, options);
//! // ..
//! let (piece, report) = filter.finish(alloc)?;
//! ```
//!
//! `filter::run` of `filter_tests` runs this.
//!
//! A piece borrows the bytes of the dump that are unchanged, and owns only the new ones.
#![tactic(auto)]

mod advance;
mod copies;
mod decide;
mod filter;
pub mod laws;
mod new_lines;
mod new_properties;
mod output;
mod pending;
mod revisions;
mod state;

pub use filter::{Filter, StepFault};
pub use state::{Report, keeps_empty};
