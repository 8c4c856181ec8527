//! Pieces of the output, in chunks, and how to write a piece to a sink.
ghost use Rattle.std.specs.Prelude.{◌≡◌, ◌<◌, ◌≤◌, ◌++◌, [], length, take, OnOk, OnErr, IfErr};
ghost use Rattle.std.specs.Io.KnownBytes.{Appends};
ghost use Rattle.dump_writer.specs.steps.ChunkBytes.{chunk_bytes, bytes_of_chunks};
ghost use Rattle.dump_writer.specs.SinkWords.{HasFailedSince};
ghost use Rattle.dump_writer.specs.steps.SinkCalls.{TakesOnlyFirst};

use crate::sink::{Sink, SinkDown, SinkFault};
use smallvec::SmallVec;
use std::alloc::{AllocError, AllocFailed, Global};
use std::marker::Model;

/// A part of a piece: bytes of the dump, or new ones.
#[derive(Drop)]
pub enum Chunk<'a> {
    /// Bytes of the dump, unchanged.
    Lent(&'a [u8]),
    /// Bytes that the filter made.
    Own(Vec<u8>),
}

impl<'a> Chunk<'a> {
    /// Its bytes.
    pub fn bytes(&self) -> &[u8]
        ensures { result.now ≡ chunk_bytes self.now }
    {
        match self {
            Chunk::Lent(bytes) => *bytes,
            Chunk::Own(bytes) => bytes.as_slice(),
        }
    }
}

impl<'a> Default for Chunk<'a> {
    /// An empty chunk, for the places of a piece that hold no chunk.
    fn default() -> Chunk<'a> {
        Chunk::Lent(b"")
    }
}

/// How many chunks a piece holds without an allocation. A record that is written unchanged has one chunk, or two if
/// the line feeds after it aren't those of the dump.
const NEAR: usize = 2;

/// An allocation failed.
#[derive(Clone, Copy, Debug, PartialEq, Eq)]
pub struct Memory;

impl From<AllocError> for Memory {
    fn from(_error: AllocError) -> Memory {
        Memory
    }
}

impl<T: Drop> From<AllocFailed<T>> for Memory {
    fn from(_error: AllocFailed<T>) -> Memory {
        Memory
    }
}

/// A part of the output: chunks in order.
#[derive(Drop)]
pub struct Piece<'a> {
    chunks: SmallVec<Chunk<'a>, NEAR>,
}

impl<'a> Model for Piece<'a> {
    ghost use Rattle.std.specs.Prelude.{List, ℕ};
    ghost use Rattle.dump_writer.specs.steps.ChunkBytes.{bytes_of_chunks};

    ghost Value = { List ℕ };

    ghost view = { λ p. bytes_of_chunks p.chunks.items };
}

impl<'a> Piece<'a> {
    /// A piece without chunks. It allocates nothing.
    pub fn new(alloc: Global) -> Piece<'a>
        ensures { result ≡ [] }
    {
        Piece {
            chunks: SmallVec::new(alloc),
        }
    }

    /// Adds a chunk at the end. If the allocation fails, the chunk is dropped and the piece is unchanged.
    pub fn push(&mut self, chunk: Chunk<'a>) -> Result<(), Memory>
        ensures ok { OnOk result (self.new ≡ self.old ++ chunk_bytes chunk.entry) }
        ensures err { OnErr result (self.new ≡ self.old) }
    {
        Ok(self.chunks.push(chunk)?)
    }

    /// Its chunks, in order.
    pub fn chunks(&self) -> &[Chunk<'a>]
        ensures { bytes_of_chunks result.now ≡ self.entry.now }
    {
        self.chunks.as_slice()
    }
}

/// Writes a piece, chunk after chunk, and stops at the first failure of the sink.
pub fn write_piece<S: Sink>(sink: &mut S, piece: &Piece<'_>) -> Result<(), SinkFault>
    ensures whole { OnOk result (Appends (S.taken sink.old) (S.taken sink.new) piece.now) }
    ensures cut { IfErr result (λ e.
        TakesOnlyFirst (S.taken sink.old) (S.taken sink.new) piece.now e.written) }
    ensures no_failure { OnOk result (S.failure_count sink.new ≡ S.failure_count sink.old) }
    ensures failed { OnErr result
        (HasFailedSince (S.failure_count sink.old) (S.failure_count sink.new)) }
    ensures through { S.through sink.new ≡ S.through sink.old }
{
    let mut written: u64 = 0;
    let chunks = piece.chunks();
    for chunk in chunks {
        let bytes = chunk.bytes();
        match write_bytes(sink, bytes) {
            Ok(()) => written = written.saturating_add(bytes.len() as u64),
            Err(fault) => {
                let written = written.saturating_add(fault.written);
                return Err(SinkFault { written });
            }
        }
    }
    Ok(())
}

/// Writes all the bytes, in as many calls as the sink needs; no call if there are no bytes.
fn write_bytes<S: Sink>(sink: &mut S, bytes: &[u8]) -> Result<(), SinkFault>
    ensures whole { OnOk result (Appends (S.taken sink.old) (S.taken sink.new) bytes.now) }
    ensures short { IfErr result (λ e. e.written < length bytes.now) }
    ensures cut { IfErr result (λ e.
        Appends (S.taken sink.old) (S.taken sink.new) (take e.written bytes.now)) }
    ensures no_failure { OnOk result (S.failure_count sink.new ≡ S.failure_count sink.old) }
    ensures failed { OnErr result
        (HasFailedSince (S.failure_count sink.old) (S.failure_count sink.new)) }
    ensures through { S.through sink.new ≡ S.through sink.old }
{
    let mut at = 0;
    while at < bytes.len() {
        match sink.accept(&bytes[at..]) {
            Ok(count) => at += count,
            Err(SinkDown) => return Err(SinkFault { written: at as u64 }),
        }
    }
    Ok(())
}
