//! Finds what exists at a path of a repository after the first changes of a dump, without building trees.
//!
//! A [`ChangeIndex`] is made of the changes of a dump in their order. [`first_out_of_order`] finds the first change
//! that can't be indexed, such as a copy that isn't of an earlier revision. [`ChangeIndex::kind_at`] returns what
//! exists at a path. [`ChangeIndex::settings_at`] returns the changes that set its properties or its text, and
//! [`ChangeIndex::children`] the names in a directory. [`ChangeIndex::names_ever`] returns the names that can ever be
//! in it. [`ChangeIndex::exists_ever`] returns whether something exists at a path at some time.
//! [`ChangeIndex::end_of`] returns how many changes are in the revisions up to a number.
//!
//! A caller that looks at the changes one after the other can collect what each change leaves at its path, as
//! [`ChangeIndex::kind_behind`] returns it, and pass that to [`ChangeIndex::kind_known`]. Then no look follows a long
//! chain of copies again.
//!
//! ```
//! if first_out_of_order(&changes).is_none() {
//!     let index = ChangeIndex::new(alloc, changes)?;
//!     // ..
//!     return Ok(());
//! }
//! ```
//!
//! `index::directories_are_listed` of `model_tests` runs this, and asks for the names in directories:
//!
//! ```
//! match index.children(alloc, path, count) {
//!     Ok(found) => found.as_slice() == names,
//!     Err(_) => false,
//! }
//! ```
//!
//! `index::names_are` of `model_tests` runs this.
#![tactic(auto)]

mod change;
mod index;
pub mod laws;
mod look;
mod order;
mod origin;
mod path_text;
mod trail;

pub use change::{NodeChange, NodeKind, NodeMade, Setting, Source};
pub use dump_rules::Memory;
pub use index::{ChangeIndex, first_out_of_order};
pub use path_text::{ends_in_slash, joined, rest_behind, top_of};
pub use trail::Part;
