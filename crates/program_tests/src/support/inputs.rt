//! Inputs that can be read completely, or not.

use cli_support::{Unread, read_all};
use std::alloc::Global;
use std::io::{self, ErrorKind, Read};
use std::process::Abort;
use std::test::Fail;

/// A reader that returns one byte at a time, and then ends, or fails at each call.
#[derive(Drop)]
struct Dripping<'a> {
    rest: &'a [u8],
    interruptions: u8,
    fails: bool,
}

impl Read for Dripping<'_> {
    fn read(&mut self, room: &mut [u8]) -> io::Result<usize> {
        if self.interruptions > 0 {
            self.interruptions -= 1;
            return Err(ErrorKind::Interrupted.into());
        }
        match (self.rest, room) {
            ([byte, rest @ ..], [place, ..]) => {
                *place = *byte;
                self.rest = rest;
                Ok(1)
            }
            _ if self.fails => Err(ErrorKind::BrokenPipe.into()),
            _ => Ok(0),
        }
    }
}

/// Whether the whole input is read if this is the guess of its size.
fn is_read_whole(alloc: Global, bytes: &[u8], size: u64) -> Result<bool, Fail> {
    let mut reader = bytes;
    let input = read_all(alloc, &mut reader, size)?;
    Ok(input.as_slice() == bytes && reader.is_empty())
}

#[test]
fn input_is_read_whole(rt: HostRuntime) -> Result<(), Fail> {
    let long = vec![in rt.alloc(); 7; 200_000]?;
    for size in [0, 3, 200_000, 1 << 62, u64::MAX] {
        assert!(rt; is_read_whole(rt.alloc(), &long, size)?, "{size}");
    }
    Ok(())
}

#[test]
fn input_that_comes_in_drops_is_read_whole(rt: HostRuntime) -> Result<(), Fail> {
    let mut dripping = Dripping {
        rest: b"some text",
        interruptions: 3,
        fails: false,
    };
    let input = read_all(rt.alloc(), &mut dripping, 4)?;
    assert!(rt; input.as_slice() == b"some text".as_slice());
    Ok(())
}

#[test]
fn an_error_is_no_end(rt: HostRuntime) {
    let mut dripping = Dripping {
        rest: b"some text",
        interruptions: 0,
        fails: true,
    };
    let answer = read_all(rt.alloc(), &mut dripping, 4);
    assert!(rt; matches!(answer, Err(Unread::Source)));
}

/// Run with each allocation failing in turn: the whole input is read, or the error is that of memory.
#[test]
fn an_input_or_no_memory(rt: HostRuntime) {
    let mut reader = b"some text".as_slice();
    let answered = match read_all(rt.alloc(), &mut reader, 9) {
        Ok(input) => input.as_slice() == b"some text".as_slice(),
        Err(unread) => unread == Unread::Memory,
    };
    assert!(rt; answered);
}
