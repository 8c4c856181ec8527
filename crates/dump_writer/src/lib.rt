//! Sinks of bytes, and pieces of text that are written to them.
//!
//! A [`Sink`] takes some of the bytes that a caller passes, or fails and takes none of them; it counts
//! its failures. There are three sinks: [`Out`] over a writer that it owns, [`OutMut`] over a writer
//! that it borrows, and [`MemorySink`], which keeps what it takes and fails where a test asks for it. A
//! [`Piece`] is a text in chunks, each borrowed or owned:
//!
//! ```
//! let mut piece = Piece::new(alloc);
//! piece.push(Chunk::Lent(b"ab"))?;
//! piece.push(Chunk::Lent(b""))?;
//! piece.push(Chunk::Own(Vec::from_slice(alloc, b"cde")?))?;
//! ```
//!
//! `writer::five` of `filter_tests` runs this. [`write_piece`] writes a whole piece, or returns how many of its first
//! bytes the sink took:
//!
//! ```
//! let mut sink = OutMut::new(writer, buffer);
//! let answer = match write_piece(&mut sink, piece) {
//!     Ok(()) => sink.flush(),
//!     Err(_) => Err(SinkDown),
//! };
//! let written = sink.written();
//! let _ = sink.into_inner();
//! ```
//!
//! `writer::write_through` of `filter_tests` runs this, for `writer::a_lent_writer_is_written_and_counted` and others.
//!
//! This crate never repeats a call that failed: the caller may continue after the bytes that were taken.
//! An [`Out`] has no buffer, so each chunk makes at least one call of its writer. An [`OutMut`] keeps
//! small texts in the buffer that it was given; it passes them on when the buffer is full or the caller
//! calls [`OutMut::flush`]. Only `Piece::push`, and a `MemorySink` that grows, allocate memory.
#![tactic(auto)]

mod counted;
mod memory_sink;
mod out;
mod out_mut;
mod piece;
mod sink;

pub use memory_sink::{MemorySink, Trouble};
pub use out::Out;
pub use out_mut::OutMut;
pub use piece::{Chunk, Memory, Piece, write_piece};
pub use sink::{Sink, SinkDown, SinkFault};
