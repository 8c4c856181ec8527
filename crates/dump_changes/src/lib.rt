//! Reads the changes that the nodes of a dump make from its bytes, in the form that `dump_index` takes.
//!
//! [`read_changes`] reads the changes of a whole dump, and [`node_change`] that of one node. If a node
//! makes no change that is modelled, or the numbers of the revisions don't rise, the reading ends there
//! and says at which record. If the revisions aren't numbered 0, 1, 2 and so on, [`with_loaded_source`]
//! says from which one a load takes a copy.
//!
//! ```
//! let none = read_changes(rt.alloc(), b"SVN-fs-dump-format-version: 2\n\n")?;
//! assert!(rt; none.changes.is_empty() && none.end == End::Whole);
//! let broken = read_changes(rt.alloc(), b"SVN-fs-dump-format-version: 2\n\nx")?;
//! let place = End::Broken {
//!     kind: FaultKind::HeaderCut,
//!     place: 31,
//! };
//! assert!(rt; broken.end == place);
//! ```
//!
//! `changes::other_ends_are_told` of `model_tests` runs this.
//!
//! [`properties_at`] finds the properties of the node at a path after some of the changes, with a
//! [`PropertyTable`] of the dump. [`text_at`] finds the text of a file in the same way, with a
//! [`TextTable`]: it is a part of the dump, or deltas of the dump make it. If they don't, [`NoText`]
//! says why.
#![tactic(auto)]

mod file_text;
pub mod laws;
mod made_text;
mod no_text;
mod node;
mod node_text;
mod numbers;
mod properties;
mod property_edit;
mod property_table;
mod read;
mod text_bytes;
mod text_table;
mod texts;

pub use dump_rules::Memory;
pub use file_text::FileText;
pub use no_text::{NoText, TextDefect};
pub use node::node_change;
pub use node_text::NodeText;
pub use numbers::{copies_from_gap, with_loaded_source};
pub use properties::properties_at;
pub use property_edit::NodeProperty;
pub use property_table::PropertyTable;
pub use read::{End, Reading, read_changes};
pub use svndiff::Defect;
pub use text_table::TextTable;
pub use texts::text_at;
