//! A whole run of the filter: from a dump to a sink and an answer.
//!
//! [`run_plain`] cuts a dump into its records, filters them and writes what is kept, on one thread;
//! [`run`] does this with the threads of a [`Plan`]. The [`Answer`] is the counts of a run without a
//! fault, or the first fault with its record's number and place. If a failure stopped the run, the
//! answer is the failure and the number of bytes that the sink took.
//!
//! ```
//! let mut sink = MemorySink::new(alloc, 1000, Trouble::Never);
//! let answer = run_plain(alloc, DUMP, &options, &mut sink);
//! ```
//!
//! `tests::runs::out_of_memory_leaves_a_first_part` of `dump_cli` runs this. It compares the answer and
//! the bytes that the sink took with those of a run without a failure:
//!
//! ```
//! match answer {
//!     Answer::Failed { failure, written } => {
//!         clean.1.starts_with(taken)
//!             && taken.len() as u64 == written
//!             && (failure != Failure::Threads || written == 0)
//!     }
//!     _ => answer == clean.0 && taken == clean.1,
//! }
//! ```
//!
//! `tests::runs::is_first_part` of `dump_cli` runs this. The tests of whole runs are in `dump_cli`.
#![tactic(auto)]

mod answer;
mod count;
mod cut;
mod gate;
mod join;
pub mod laws;
mod make;
mod message;
mod pipeline;
mod plain;
mod plan;
mod sequence;
mod stage;
mod stops;
mod threads;
mod work;
mod write;

pub use answer::{Answer, Failure};
pub use gate::{FreeGate, Gate};
pub use pipeline::run;
pub use plain::run_plain;
pub use plan::Plan;
