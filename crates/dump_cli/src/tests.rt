//! What no contract says: runs with readers and writers that the tests define, and the line of a fault as users see
//! it.

mod drive;
mod runs;
mod words;

use crate::messages::write_fault;
use dump_text::FaultKind;
use std::io::{self, ErrorKind, Write};
use std::process::Abort;

#[test]
fn a_line_says_which_fault_ends_a_run(rt: HostRuntime) {
    let mut lines = Vec::new(rt.alloc());
    write_fault(&mut lines, FaultKind::Sha1, 2, 151);
    let wanted = b"svndumpfilter: fault 11 Sha1 in record 2 at byte 151\n".as_slice();
    assert!(rt; lines.as_slice() == wanted);
}

/// A terminal that was closed.
#[derive(Drop)]
struct Gone;

impl Write for Gone {
    fn write(&mut self, _bytes: &[u8]) -> io::Result<usize> {
        Err(ErrorKind::BrokenPipe.into())
    }

    fn flush(&mut self) -> io::Result<()> {
        Err(ErrorKind::BrokenPipe.into())
    }
}

#[test]
fn a_line_that_nobody_reads_is_let_go() {
    write_fault(&mut Gone, FaultKind::Order, 1, 31);
}
