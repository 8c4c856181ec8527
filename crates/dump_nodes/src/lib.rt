//! Reads from the record of a node which change the node makes.
//!
//! [`action_of`] reads what the node does at its path. [`path_of`], [`copy_path_of`] and
//! [`copy_revision_of`] read where it does so, and [`kind_of`] and [`is_whole_file`] what kind of node
//! it is. [`loads_as_written`] and [`has_undefined_delta`] find the nodes whose change isn't modelled.
//! [`is_canonical`] tests a path.
//!
//! ```
//! let action = action_of(item);
//! let path = bare_path(path_of(item));
//! let source = bare_path(copy_path_of(item));
//! action.makes() && !action.deletes() && path == B && source == A && copy_revision_of(item) == 1
//! ```
//!
//! `nodes::is_copied` of `model_tests` runs this on a node that copies `a` of revision 1 to `b`; `A` and `B` are these
//! paths, and `bare_path` is in `dump_rules`. These paths are canonical or not:
//!
//! ```
//! assert!(rt; is_canonical(b"/a/b") && !is_canonical(b"a/./b") && !is_canonical(b"a/"));
//! ```
//!
//! `nodes::names_between_single_slashes_are_canonical` of `model_tests` runs this.
//!
//! Each function searches the lines of the record by name, except for those whose places the cutter has
//! stored. Nothing is allocated.
#![tactic(auto)]

mod action;
mod canonical_path;
mod loaded_texts;
mod node;

pub use action::{Action, action_of, has_undefined_delta, kind_of};
pub use canonical_path::is_canonical;
pub use loaded_texts::loads_as_written;
pub use node::{copy_path_of, copy_revision_of, is_copy, is_whole_file, makes_copy, path_of};
