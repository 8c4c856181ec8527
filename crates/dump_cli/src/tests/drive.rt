//! The whole program with readers and writers that the tests define.

use crate::drive::drive;
use std::alloc::{AllocError, Global};
use std::io::{self, ErrorKind, Write};
use std::process::Abort;
use std::sync::Wait;
use std::test::Fail;
use std::thread::Threads;

/// A dump whose revision 0 adds `a`.
const KEPT: &[u8] = b"SVN-fs-dump-format-version: 2\n\n\
Revision-number: 0\nProp-content-length: 10\nContent-length: 10\n\nPROPS-END\n\n\
Node-path: a\nNode-kind: dir\nNode-action: add\nProp-content-length: 10\nContent-length: 10\n\nPROPS-END\n\n\n";

/// A node that adds `b`.
const LEFT_OUT: &[u8] =
    b"Node-path: b\nNode-kind: dir\nNode-action: add\nProp-content-length: 10\nContent-length: 10\n\nPROPS-END\n\n\n";

const ORDER: [&str; 3] = ["svndumpfilter", "include", "a"];

fn dump(alloc: Global) -> Result<Vec<u8>, AllocError> {
    let mut dump = Vec::new(alloc);
    dump.extend_from_slice(KEPT)?;
    dump.extend_from_slice(LEFT_OUT)?;
    Ok(dump)
}

/// A writer with room for `room` bytes; `loses` says whether its flush fails.
#[derive(Drop)]
struct Disk {
    held: Vec<u8>,
    room: usize,
    loses: bool,
}

impl Write for Disk {
    fn write(&mut self, bytes: &[u8]) -> io::Result<usize> {
        let count = bytes.len().min(self.room);
        if count == 0 {
            return Err(ErrorKind::BrokenPipe.into());
        }
        self.held.extend_from_slice(&bytes[..count])?;
        self.room -= count;
        Ok(count)
    }

    fn flush(&mut self) -> io::Result<()> {
        if self.loses {
            return Err(ErrorKind::BrokenPipe.into());
        }
        Ok(())
    }
}

/// The status of a run, and its lines on standard error.
fn run<'a, R: Threads + Wait + Sync, W: Write>(
    rt: &R,
    alloc: Global,
    words: &'a [&'a str],
    dump: &[u8],
    output: &mut W,
) -> (u8, Vec<u8>) {
    let mut reader = dump;
    let mut errors = Vec::new(alloc);
    let status = drive(rt, alloc, words, &mut reader, output, &mut errors);
    (status, errors)
}

/// Whether a run with these arguments filters the dump and writes this line.
fn is_filtered<'a, R: Threads + Wait + Sync>(
    rt: &R,
    alloc: Global,
    words: &'a [&'a str],
    line: &[u8],
) -> Result<bool, Fail> {
    let dump = dump(alloc)?;
    let mut output = Vec::new(alloc);
    let (status, errors) = run(rt, alloc, words, &dump, &mut output);
    Ok(status == 0 && errors.as_slice() == line && output.as_slice() == KEPT)
}

#[test]
fn a_dump_is_filtered(rt: HostRuntime) -> Result<(), Fail> {
    let line = b"revisions kept 1, dropped 0; nodes kept 1, dropped 1; texts checked 0\n";
    assert!(rt; is_filtered(&rt, rt.alloc(), &ORDER, line.as_slice())?);
    Ok(())
}

/// The line of a sink that failed after this many bytes.
fn sink_line(alloc: Global, written: usize) -> Result<Vec<u8>, Fail> {
    let mut line = Vec::new(alloc);
    writeln!(
        &mut line,
        "svndumpfilter: failure 20 Sink after {written} bytes"
    )?;
    Ok(line)
}

/// Whether a run reports the count of bytes if the disk is full, or if its flush fails.
fn is_full<R: Threads + Wait + Sync>(
    rt: &R,
    alloc: Global,
    dump: &[u8],
    mut disk: Disk,
    count: usize,
) -> Result<bool, Fail> {
    let line = sink_line(alloc, count)?;
    let (status, errors) = run(rt, alloc, &ORDER, dump, &mut disk);
    Ok(status == 1 && errors == line && Some(disk.held.as_slice()) == KEPT.get(..count))
}

#[test]
fn a_full_disk_is_told_with_the_count(rt: HostRuntime) -> Result<(), Fail> {
    let dump = dump(rt.alloc())?;
    for room in 0..KEPT.len() {
        let disk = Disk {
            held: Vec::new(rt.alloc()),
            room,
            loses: false,
        };
        assert!(rt; is_full(&rt, rt.alloc(), &dump, disk, room)?);
    }
    Ok(())
}

#[test]
fn a_failed_flush_is_a_failure(rt: HostRuntime) -> Result<(), Fail> {
    let dump = dump(rt.alloc())?;
    let disk = Disk {
        held: Vec::new(rt.alloc()),
        room: 1000,
        loses: true,
    };
    assert!(rt; is_full(&rt, rt.alloc(), &dump, disk, KEPT.len())?);
    Ok(())
}

/// A writer that fails at its first call, and then takes all bytes.
#[derive(Drop)]
struct Hiccup {
    held: Vec<u8>,
    failed: bool,
}

impl Write for Hiccup {
    fn write(&mut self, bytes: &[u8]) -> io::Result<usize> {
        if !self.failed {
            self.failed = true;
            return Err(ErrorKind::BrokenPipe.into());
        }
        self.held.extend_from_slice(bytes)?;
        Ok(bytes.len())
    }

    fn flush(&mut self) -> io::Result<()> {
        Ok(())
    }
}

/// The kept part, and then a file with a long text.
fn long_dump(alloc: Global) -> Result<Vec<u8>, Fail> {
    let mut dump = Vec::from_slice(alloc, KEPT)?;
    let head = b"Node-path: a/f\nText-content-length: 100000\nContent-length: 100000\n\n";
    dump.extend_from_slice(head)?;
    dump.extend_from_slice(&vec![in alloc; 7; 100_000]?)?;
    Ok(dump)
}

/// Whether a run writes nothing more to a writer after it has failed once.
fn is_given_up<R: Threads + Wait + Sync>(rt: &R, alloc: Global, dump: &[u8]) -> bool {
    let mut output = Hiccup {
        held: Vec::new(alloc),
        failed: false,
    };
    let line = b"svndumpfilter: failure 20 Sink after 0 bytes\n".as_slice();
    let (status, errors) = run(rt, alloc, &ORDER, dump, &mut output);
    status == 1 && errors.as_slice() == line && output.held.is_empty()
}

#[test]
fn nothing_is_tried_behind_a_failure(rt: HostRuntime) -> Result<(), Fail> {
    let dump = long_dump(rt.alloc())?;
    assert!(rt; is_given_up(&rt, rt.alloc(), &dump));
    Ok(())
}

/// Whether a run writes a first part of what is kept, and all of it exactly if it ends well.
fn leaves_first_part<R: Threads + Wait + Sync>(rt: &R, alloc: Global, dump: &[u8]) -> bool {
    let mut output = Vec::new(alloc);
    let (status, _) = run(rt, alloc, &ORDER, dump, &mut output);
    KEPT.starts_with(output.as_slice()) && (status == 0) == (output.as_slice() == KEPT)
}

/// Run with each allocation failing in turn.
#[test]
fn out_of_memory_leaves_a_first_part(rt: HostRuntime) {
    let Ok(dump) = dump(rt.alloc()) else {
        return;
    };
    assert!(rt; leaves_first_part(&rt, rt.alloc(), &dump));
}
