//! What `svndumpcut` does: it reads its arguments, examines the dump, and writes the cut, or says why it writes
//! nothing.
//!
//! [`drive::drive`] is the whole program, with any reader and writers. [`call_of`] reads the arguments alone:
//!
//! ```
//! let mut lines = Vec::new(rt.alloc());
//! let answer = call_of(rt.alloc(), &FILE, &mut lines);
//! ```
//!
//! `tests::arguments_or_no_memory` of `svndumpcut` runs this; `FILE` are the arguments `exclude --follow-copies d/f`,
//! after the name of the program.
#![tactic(auto)]

mod command;
mod copy_lines;
pub mod drive;
mod earlier;
mod examine;
mod expansion;
mod faults;
mod input;
mod lines;
mod map;
mod memory;
mod mistakes;
mod numbers;
mod own_lives;
mod parents;
mod prefixes;
mod read;
mod sizes;
mod spot;
mod summary;
mod texts;
mod words;
mod written;

pub use mistakes::{Mistake, write_mistake};
pub use words::{Call, call_of};
