//! Reads the whole input into one buffer.
ghost use Rattle.std.specs.Prelude.{◌≡◌, [], IfOk, OnOk, IfSome};
ghost use Rattle.std.specs.Io.KnownBytes.{IsAtEnd};

use std::alloc::Global;
use std::io::{ErrorKind, Read};

/// Why the input couldn't be read.
#[derive(Clone, Copy, Debug, PartialEq, Eq)]
pub enum Unread {
    /// The reader failed, or it had not ended after the largest number of calls that the library makes.
    Source,
    /// The allocation of the buffer failed.
    Memory,
}

/// Reads all that the reader has left. `size` is a guess of its size; if it is right, the buffer needn't grow.
pub fn read_all<R: Read>(alloc: Global, reader: &mut R, size: u64) -> Result<Vec<u8>, Unread>
    ensures whole { IfOk result (λ input. IfSome (R.remaining reader.old) (λ left. input.items ≡ left)) }
    ensures end { OnOk result (IsAtEnd (R.remaining reader.new)) }
{
    let mut input = room(alloc, size);
    match reader.read_to_end(&mut input) {
        Ok(_) => Ok(input),
        Err(error) if error.kind() == ErrorKind::OutOfMemory => Err(Unread::Memory),
        Err(_) => Err(Unread::Source),
    }
}

/// An empty buffer with room for an input of this size and one more byte, so that the end of the input is found
/// without growing. If the size is wrong or can't be allocated, reading makes the buffer grow.
fn room(alloc: Global, size: u64) -> Vec<u8>
    ensures { result.items ≡ [] }
{
    if size == 0 {
        return Vec::new(alloc);
    }
    match Vec::with_capacity(alloc, size.saturating_add(1) as usize) {
        Ok(room) => room,
        Err(_) => Vec::new(alloc),
    }
}
