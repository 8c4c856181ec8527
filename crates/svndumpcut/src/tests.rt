//! What no contract says: the lines as users see them, and streams that fail.

ghost use Rattle.std.specs.Prelude.{None};

use cli_support::{NamedFiles, NamedOutput, NewFile, Unread, Usage};
use cut_cli::call_of;
use cut_cli::drive::drive;
use dump_rules::Side;
use std::alloc::{AllocError, Global};
use std::io::{self, ErrorKind, Read, Write};
use std::process::Abort;
use std::sync::Wait;
use std::test::Fail;
use std::thread::Threads;

/// Revision 1 adds `d` and `d/f`, and revision 2 copies `d` to `e`.
const COPIED: &[u8] = b"SVN-fs-dump-format-version: 2\n\n\
Revision-number: 0\nProp-content-length: 10\nContent-length: 10\n\nPROPS-END\n\n\
Revision-number: 1\nProp-content-length: 10\nContent-length: 10\n\nPROPS-END\n\n\
Node-path: d\nNode-kind: dir\nNode-action: add\n\n\n\n\
Node-path: d/f\nNode-kind: file\nNode-action: add\nText-content-length: 2\nContent-length: 2\n\na\n\n\n\
Revision-number: 2\nProp-content-length: 10\nContent-length: 10\n\nPROPS-END\n\n\
Node-path: e\nNode-action: add\nNode-copyfrom-rev: 1\nNode-copyfrom-path: d\n\n\n\n";

/// The same without `d/f`.
const CUT: &[u8] = b"SVN-fs-dump-format-version: 2\n\n\
Revision-number: 0\nProp-content-length: 10\nContent-length: 10\n\nPROPS-END\n\n\
Revision-number: 1\nProp-content-length: 10\nContent-length: 10\n\nPROPS-END\n\n\
Node-path: d\nNode-kind: dir\nNode-action: add\n\n\n\n\
Revision-number: 2\nProp-content-length: 10\nContent-length: 10\n\nPROPS-END\n\n\
Node-path: e\nNode-action: add\nNode-copyfrom-rev: 1\nNode-copyfrom-path: d\n\n\n\n";

/// The same with `d/f`, and without `e`.
const INCLUDED: &[u8] = b"SVN-fs-dump-format-version: 2\n\n\
Revision-number: 0\nProp-content-length: 10\nContent-length: 10\n\nPROPS-END\n\n\
Revision-number: 1\nProp-content-length: 10\nContent-length: 10\n\nPROPS-END\n\n\
Node-path: d\nNode-kind: dir\nNode-action: add\n\n\n\n\
Node-path: d/f\nNode-kind: file\nNode-action: add\nText-content-length: 2\nContent-length: 2\n\na\n\n\n\
Revision-number: 2\nProp-content-length: 10\nContent-length: 10\n\nPROPS-END\n\n";

const INCLUDED_LINES: &[u8] =
    b"revisions kept 3 (1 of them emptied), dropped 0; nodes kept 2, dropped 1; texts checked 0\n";

/// The same without `d`: `e` and what it has are added.
const ADDED: &[u8] = b"SVN-fs-dump-format-version: 2\n\n\
Revision-number: 0\nProp-content-length: 10\nContent-length: 10\n\nPROPS-END\n\n\
Revision-number: 1\nProp-content-length: 10\nContent-length: 10\n\nPROPS-END\n\n\
Revision-number: 2\nProp-content-length: 10\nContent-length: 10\n\nPROPS-END\n\n\
Node-path: e\nNode-kind: dir\nNode-action: add\nProp-content-length: 10\nContent-length: 10\n\nPROPS-END\n\n\n\
Node-path: e/f\nNode-kind: file\nNode-action: add\nProp-content-length: 10\nText-content-length: 2\nContent-length: 12\n\n\
PROPS-END\na\n\n\n";

const ADDED_LINES: &[u8] =
    b"1 copy is written as an addition, because its source is not included: svn merge does not take it for a copy; --follow-copies includes the source\n  \
r2: /e, copied from /d@1: 1 file, 2 bytes\n\
revisions kept 3 (1 of them emptied), dropped 0; nodes kept 2, dropped 2; 1 node written as 2; texts checked 0\n";

const RETURN_LINES: &[u8] =
    b"svndumpcut: nothing written: copies would bring excluded content back, in 1 place\n  \
r2: /e/f, copied from /d/f@1: 1 file, 2 bytes\n\
use --follow-copies to exclude these too, 1 path in all, or --keep-copies to keep them\n";

const FOLLOW_LINES: &[u8] = b"also excluded, as copies of excluded content: 1 path\n  \
/e/f (r2, copied from /d/f@1)\n\
revisions kept 3, dropped 0; nodes kept 2, dropped 1; texts checked 0\n";

/// A stream that fails at each call, in reading and in writing.
#[derive(Drop)]
struct Broken;

impl Read for Broken {
    fn read(&mut self, _bytes: &mut [u8]) -> io::Result<usize> {
        Err(ErrorKind::BrokenPipe.into())
    }
}

impl Write for Broken {
    fn write(&mut self, _bytes: &[u8]) -> io::Result<usize> {
        Err(ErrorKind::BrokenPipe.into())
    }

    fn flush(&mut self) -> io::Result<()> {
        Err(ErrorKind::BrokenPipe.into())
    }
}

/// A set of files without any file.
#[derive(Drop)]
struct NoFiles;

impl NamedFiles for NoFiles {
    ghost text_of = { λ _ _. None };

    fn read_named(&self, _alloc: Global, _name: &str) -> Result<Vec<u8>, Unread> {
        Err(Unread::Source)
    }
}

/// The old content of a file for a map.
const OLD: &[u8] = b"old";

/// A file for a map.
#[derive(Drop)]
struct MapFile {
    text: Vec<u8>,
    /// Whether it can be created.
    can_be_created: bool,
    /// Whether it is written to.
    is_open: bool,
    /// How many bytes fit into it.
    room: usize,
}

impl MapFile {
    /// A file that can be created, with room for this many bytes. It has a text already.
    fn with_room(alloc: Global, room: usize) -> Result<MapFile, AllocError> {
        Ok(MapFile {
            text: Vec::from_slice(alloc, OLD)?,
            can_be_created: true,
            is_open: false,
            room,
        })
    }
}

impl Write for MapFile {
    fn write(&mut self, bytes: &[u8]) -> io::Result<usize> {
        if !self.is_open || self.room < bytes.len() {
            return Err(ErrorKind::StorageFull.into());
        }
        self.text.extend_from_slice(bytes)?;
        self.room -= bytes.len();
        Ok(bytes.len())
    }

    fn flush(&mut self) -> io::Result<()> {
        Ok(())
    }
}

impl NamedOutput for MapFile {
    fn create(&mut self, name: &str) -> io::Result<()> {
        if !self.can_be_created || name != "m" {
            return Err(ErrorKind::PermissionDenied.into());
        }
        self.text.clear();
        self.is_open = true;
        Ok(())
    }
}

/// Whether a cut with these arguments has this status, and leaves these bytes and lines on the streams.
fn is_cut<'a, H: Threads + Wait + Sync>(
    rt: &H,
    alloc: Global,
    words: &'a [&'a str],
    wanted: (u8, &[u8], &[u8]),
) -> bool {
    let Ok(mut map) = MapFile::with_room(alloc, 0) else {
        return false;
    };
    is_cut_with(rt, alloc, words, &mut map, wanted) && map.text.as_slice() == OLD
}

/// The same with this file for a map.
fn is_cut_with<'a, H: Threads + Wait + Sync>(
    rt: &H,
    alloc: Global,
    words: &'a [&'a str],
    map: &mut MapFile,
    wanted: (u8, &[u8], &[u8]),
) -> bool {
    let mut reader = COPIED;
    let mut output = Vec::new(alloc);
    let mut errors = Vec::new(alloc);
    let status = drive(
        rt,
        alloc,
        words,
        &NoFiles,
        0,
        &mut reader,
        &mut output,
        map,
        &mut errors,
    );
    status == wanted.0 && output.as_slice() == wanted.1 && errors.as_slice() == wanted.2
}

#[test]
fn copies_are_reported_or_followed(rt: HostRuntime) {
    let words = ["svndumpcut", "exclude", "d/f"];
    assert!(rt; is_cut(&rt, rt.alloc(), &words, (3, b"", RETURN_LINES)));
    let words = ["svndumpcut", "exclude", "--follow-copies", "d/f"];
    assert!(rt; is_cut(&rt, rt.alloc(), &words, (0, CUT, FOLLOW_LINES)));
    let words = [
        "svndumpcut",
        "exclude",
        "--follow-copies",
        "--dry-run",
        "d/f",
    ];
    assert!(rt; is_cut(&rt, rt.alloc(), &words, (0, b"", FOLLOW_LINES)));
}

#[test]
fn siblings_are_excluded(rt: HostRuntime) {
    let words = ["svndumpcut", "include", "d"];
    assert!(rt; is_cut(&rt, rt.alloc(), &words, (0, INCLUDED, INCLUDED_LINES)));
    let words = ["svndumpcut", "include", "e"];
    assert!(rt; is_cut(&rt, rt.alloc(), &words, (0, ADDED, ADDED_LINES)));
}

#[test]
fn other_calls_are_refused(rt: HostRuntime) {
    let empty = b"svndumpcut: a prefix is empty; the root is /\n\
usage: svndumpcut include|exclude [OPTIONS] PREFIX...\n"
        .as_slice();
    assert!(rt;
        is_cut(
            &rt,
            rt.alloc(),
            &["svndumpcut", "exclude", ""],
            (2, b"", empty)
        )
    );
    let words = ["svndumpcut", "exclude", "--quiet", "--verbose", "d"];
    let both = b"svndumpcut: --quiet and --verbose exclude each other\n\
usage: svndumpcut include|exclude [OPTIONS] PREFIX...\n"
        .as_slice();
    assert!(rt; is_cut(&rt, rt.alloc(), &words, (2, b"", both)));
}

const FILE: [&str; 4] = ["svndumpcut", "exclude", "--follow-copies", "d/f"];

fn is_unread<H: Threads + Wait + Sync>(rt: &H, files: &HostRuntime, alloc: Global) -> bool {
    let mut output = Vec::new(alloc);
    let mut errors = Vec::new(alloc);
    let status = drive(
        rt,
        alloc,
        &FILE,
        &NoFiles,
        0,
        &mut Broken,
        &mut output,
        &mut NewFile::new(files),
        &mut errors,
    );
    let line = b"svndumpcut: failure 24 Source after 0 bytes\n".as_slice();
    status == 1 && errors.as_slice() == line && output.is_empty()
}

fn is_unwritten<H: Threads + Wait + Sync>(rt: &H, files: &HostRuntime, alloc: Global) -> bool {
    let mut reader = COPIED;
    let mut errors = Vec::new(alloc);
    let status = drive(
        rt,
        alloc,
        &FILE,
        &NoFiles,
        0,
        &mut reader,
        &mut Broken,
        &mut NewFile::new(files),
        &mut errors,
    );
    status == 1
}

#[test]
fn broken_streams_are_failures(rt: HostRuntime) {
    assert!(rt; is_unread(&rt, &rt, rt.alloc()));
    assert!(rt; is_unwritten(&rt, &rt, rt.alloc()));
}

#[test]
fn arguments_or_no_memory(rt: HostRuntime) {
    let mut lines = Vec::new(rt.alloc());
    let answer = call_of(rt.alloc(), &FILE, &mut lines);
    let is_read = match answer {
        Ok(call) => call.side == Side::Exclude && call.follow && !call.dry_run && !call.quiet,
        Err(usage) => usage == Usage::Memory,
    };
    assert!(rt; is_read);
}

const MAPPED: [&str; 6] = [
    "svndumpcut",
    "exclude",
    "--follow-copies",
    "--map",
    "m",
    "d/f",
];

const MAP: &[u8] = b"r0 becomes r0\nr1 becomes r1\nr2 becomes r2\n";

/// The last lines of a cut that follows copies and whose map can't be written.
const UNMAPPED_LINES: &[u8] = b"also excluded, as copies of excluded content: 1 path\n  \
/e/f (r2, copied from /d/f@1)\n\
svndumpcut: cannot write 'm'; the new dump is whole\n";

#[test]
fn a_map_is_written_behind_the_cut(rt: HostRuntime) -> Result<(), Fail> {
    let mut map = MapFile::with_room(rt.alloc(), 100)?;
    assert!(rt; is_cut_with(&rt, rt.alloc(), &MAPPED, &mut map, (0, CUT, FOLLOW_LINES)));
    assert!(rt; map.text.as_slice() == MAP);
    Ok(())
}

#[test]
fn a_map_that_is_not_written_is_a_failure(rt: HostRuntime) -> Result<(), Fail> {
    let mut map = MapFile::with_room(rt.alloc(), 10)?;
    assert!(rt; is_cut_with(&rt, rt.alloc(), &MAPPED, &mut map, (1, CUT, UNMAPPED_LINES)));
    assert!(rt; map.text.is_empty());
    Ok(())
}

#[test]
fn nothing_is_written_without_a_file_for_the_map(rt: HostRuntime) -> Result<(), Fail> {
    let mut map = MapFile::with_room(rt.alloc(), 100)?;
    map.can_be_created = false;
    let line = b"svndumpcut: cannot create 'm'\n".as_slice();
    assert!(rt; is_cut_with(&rt, rt.alloc(), &MAPPED, &mut map, (1, b"", line)));
    assert!(rt; map.text.as_slice() == OLD);
    Ok(())
}

#[test]
fn a_trial_opens_no_map(rt: HostRuntime) {
    let words = [
        "svndumpcut",
        "exclude",
        "--follow-copies",
        "--dry-run",
        "--map=m",
        "d/f",
    ];
    assert!(rt; is_cut(&rt, rt.alloc(), &words, (0, b"", FOLLOW_LINES)));
}
