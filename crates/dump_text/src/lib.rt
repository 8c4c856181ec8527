//! Numbers, blocks of header lines and property blocks of a Subversion dump, read in place.
//!
//! A [`Block`] is one or more lines `name: value` and the empty line after them. [`Headers::read`] finds
//! the block at a place of the dump, with the values of the names that have a meaning; if there is none,
//! it returns the fault. It reads the lines once; looking up a [`HeaderName`] afterwards reads none of
//! them again. The lines and values of a block are slices of the dump: nothing is copied, and nothing is
//! allocated. [`find`] returns the first position of a byte. [`number`] reads a number in the format
//! that headers use, and [`spell`] writes one. [`Props`] is a property block: names and values, each
//! after its length, and an end line. In a node under format version 3 it may delete properties too.
//! [`FaultKind`] lists the faults that a record of a dump can have, with the number and the name that
//! users see.
//!
//! ```
//! let uuid = Block::cut(UUID, 0)?;
//! assert_eq!(rt; uuid.after(), 44);
//! let value = b"7bf7a5ef-cabf-0310-b7d4-93df341afa7e".as_slice();
//! assert_eq!(rt; uuid.get(b"UUID"), Some(value));
//! assert_eq!(rt; uuid.get(b"uuid"), None);
//! ```
//!
//! `text::a_block_is_cut_where_it_stands` of `format_tests` runs this; `UUID` is a block of that one line. This
//! looks up several names:
//!
//! ```
//! let text = b"Node-path: a: b\nNote: c\nNode-kind: \nProp-delta: true\n\nbehind: it\n\n";
//! let headers = Headers::read(text, 0)?;
//! assert!(rt; headers.block().after() == 54);
//! let rows = [
//!     (HeaderName::NodePath, Some(b"a: b".as_slice())),
//!     (HeaderName::NodeKind, Some(b"")),
//!     (HeaderName::PropDelta, Some(b"true")),
//!     (HeaderName::TextDelta, None),
//!     (HeaderName::NodeAction, None),
//! ];
//! ```
//!
//! `text::values_of_known_names_are_found` of `format_tests` runs this, and looks up each name and value of `rows`:
//!
//! ```
//! headers.value(name) == value
//!     && headers.has(name) == value.is_some()
//!     && headers.block().get(name.bytes()) == value
//! ```
//!
//! `text::has_value` of `format_tests` runs this. This reads properties:
//!
//! ```
//! let block = b"D 1\na\nK 1\na\nV 1\nb\nD 1\nc\nPROPS-END\n".as_slice();
//! assert!(rt; Props::read(block).is_none(), "without deletes");
//! let props = Props::read_with_deletes(block).ok_or("deletes are refused")?;
//! let first = Some(b"b".as_slice());
//! assert!(rt; props.get(b"a") == first, "the first that isn't deleted");
//! assert!(rt; props.get(b"c").is_none(), "a deleted one");
//! ```
//!
//! `text::deleted_properties_are_read_where_they_may_stand` of `format_tests` runs this.
//!
//! A name that has a meaning in a dump may occur only once in a block. Any other name may occur several
//! times, and then `get` returns the first value. This crate does not interpret the values, and reads no
//! bytes after the empty line. The name of a property may occur several times too. [`Props::read`] reads
//! the whole slice, and fails if anything follows the end line; it reads an empty slice as a list
//! without properties. A number has 1 to 18 digits, so that the sum of two fits a `u64`.
#![tactic(auto)]

mod block;
mod fault;
mod headers;
pub mod laws;
mod lines;
mod names;
mod numbers;
mod parts;
mod props;
mod scan;
mod value_place;
mod writing;

pub use block::Block;
pub use fault::FaultKind;
pub use headers::Headers;
pub use lines::{Line, Lines};
pub use names::HeaderName;
pub use numbers::{Digits, is_shortest, number, spell};
pub use props::{Entries, Entry, Props, PropsReading};
pub use scan::find;
pub use value_place::ValuePlace;
pub use writing::{push_block_end, push_deletion, push_header, push_property};
