//! The whole program with readers and writers that the tests define.

use crate::drive::drive;
use std::alloc::Global;
use std::io::{self, ErrorKind, Read, Write};
use std::process::Abort;

/// Revision 1 copies `trunk` to `tags/one`.
const COPIED: &[u8] = b"SVN-fs-dump-format-version: 2\n\n\
Revision-number: 0\n\n\
Revision-number: 1\n\n\
Node-path: tags/one\nNode-kind: dir\nNode-action: add\nNode-copyfrom-rev: 0\nNode-copyfrom-path: trunk\n\n\n";

const KEEP_LINES: &[u8] =
    b"r1: /tags/one, copied from /trunk@0: the source is excluded: svndumpfilter stops here (fault 12, record 3, byte 71)\n\
r1: /tags/one, copied from /trunk@0: the source is excluded: the copy may lack its properties (record 3, byte 71)\n\
total 1: copies whose source is excluded (fault 12): include the source too, or exclude the copy\n\
total 1: copies that may lack the properties of their excluded source: include the source too\n\
also include: /trunk\n";

const LEAVE_OUT_LINES: &[u8] =
    b"r1: /tags/one, copied from /trunk@0: the source is excluded: svndumpfilter stops here (fault 12, record 3, byte 71)\n\
r1: /tags/one, copied from /trunk@0: the source is excluded: the copy may lack its properties (record 3, byte 71)\n\
total 1: copies whose source is excluded (fault 12): include the source too, or exclude the copy\n\
total 1: copies that may lack the properties of their excluded source: include the source too\n\
also exclude: /tags/one\n";

/// A stream that fails at each call, in reading and in writing.
#[derive(Drop)]
struct Broken;

impl Read for Broken {
    fn read(&mut self, _bytes: &mut [u8]) -> io::Result<usize> {
        Err(ErrorKind::BrokenPipe.into())
    }
}

impl Write for Broken {
    fn write(&mut self, _bytes: &[u8]) -> io::Result<usize> {
        Err(ErrorKind::BrokenPipe.into())
    }

    fn flush(&mut self) -> io::Result<()> {
        Err(ErrorKind::BrokenPipe.into())
    }
}

/// Whether a survey with these arguments has this status, and writes these lines and this text.
fn is_survey<'a>(alloc: Global, words: &'a [&'a str], wanted: (u8, &[u8], &[u8])) -> bool {
    let mut reader = COPIED;
    let mut output = Vec::new(alloc);
    let mut errors = Vec::new(alloc);
    let status = drive(alloc, words, 0, &mut reader, &mut output, &mut errors);
    status == wanted.0 && output.as_slice() == wanted.1 && errors.as_slice() == wanted.2
}

#[test]
fn the_status_says_whether_something_is_found(rt: HostRuntime) {
    let words = ["svndumpsurvey", "include", "trunk", "tags"];
    assert!(rt; is_survey(rt.alloc(), &words, (0, b"", b"")));
    let words = ["svndumpsurvey", "include", "tags"];
    assert!(rt; is_survey(rt.alloc(), &words, (1, KEEP_LINES, b"")));
    let words = ["svndumpsurvey", "exclude", "trunk"];
    assert!(rt; is_survey(rt.alloc(), &words, (1, LEAVE_OUT_LINES, b"")));
    let usage = b"usage: svndumpsurvey include|exclude [OPTIONS] PREFIX...\n".as_slice();
    assert!(rt; is_survey(rt.alloc(), &["svndumpsurvey", "include"], (2, b"", usage)));
}

const TAGS: [&str; 3] = ["svndumpsurvey", "include", "tags"];

fn is_unread(alloc: Global) -> bool {
    let mut output = Vec::new(alloc);
    let mut errors = Vec::new(alloc);
    let status = drive(alloc, &TAGS, 0, &mut Broken, &mut output, &mut errors);
    let line = b"svndumpsurvey: failure 24 Source after 0 bytes\n".as_slice();
    status == 3 && errors.as_slice() == line && output.is_empty()
}

fn is_unwritten(alloc: Global) -> bool {
    let mut reader = COPIED;
    let mut errors = Vec::new(alloc);
    let status = drive(alloc, &TAGS, 0, &mut reader, &mut Broken, &mut errors);
    let line = b"svndumpsurvey: failure 20 Sink after 0 bytes\n".as_slice();
    status == 3 && errors.as_slice() == line
}

#[test]
fn broken_streams_are_failures(rt: HostRuntime) {
    assert!(rt; is_unread(rt.alloc()));
    assert!(rt; is_unwritten(rt.alloc()));
}
