//! Writes the expanded form of a dump: in place of some of its nodes it writes other nodes.
//!
//! A [`NewNode`] is a deletion, a copy, a directory with its properties or a file with its properties and its text. A
//! [`Stead`] says which node of the dump has such nodes in its place, and whether the node itself follows them.
//! [`expanded`] takes only nodes that a load reads as they are meant:
//!
//! ```
//! steads.push(Stead {
//!     record_number: COPY_NUMBER,
//!     nodes,
//!     keeps: false,
//! })?;
//! if !can_all_be_written(&steads) {
//!     return Ok(false);
//! }
//! let text = expanded(alloc, &dump, &steads)?;
//! ```
//!
//! `expansion::replaces` of `model_tests` runs this. If a node isn't kept, the empty lines after it are removed too.
//! Everything else in the dump is copied unchanged, even bytes that can't be read. This crate doesn't
//! check whether the new dump loads to the same trees: the caller has to choose the nodes so that it
//! does. [`laws::steads_are_by_changes`] says which changes the nodes make in each revision.
#![tactic(auto)]

mod expanding;
pub mod laws;
mod written_node;

pub use dump_changes::{FileText, NodeProperty, NodeText};
pub use dump_index::NodeKind;
pub use dump_rules::Memory;
pub use expanding::{Stead, can_all_be_written, expanded};
pub use written_node::NewNode;
