//! One call of each function: the parts of a copy, and what is written in its place, compared with what the format
//! says.

use crate::cut::index_of;
use dump_additions::{Form, Memory, NotAdded, Part, Reason, additions, parts_of};
use dump_changes::{Defect, NoText, PropertyTable, TextDefect, TextTable};
use dump_cut::Excluded;
use dump_expansion::{can_all_be_written, expanded};
use dump_index::Source;
use std::alloc::Global;
use std::test::Fail;

/// A directory with a property, another directory and two files. The next revisions change the property, and copy what
/// was there before.
const FRONT: &str = "SVN-fs-dump-format-version: 3\n\nRevision-number: 0\n\nRevision-number: 1\n\n\
Node-path: old\nNode-kind: dir\nNode-action: add\nProp-content-length: 22\nContent-length: 22\n\n\
K 1\np\nV 1\nx\nPROPS-END\n\n\n\
Node-path: old/sub\nNode-kind: dir\nNode-action: add\n\n\n\
Node-path: old/sub/f\nNode-kind: file\nNode-action: add\n\
Prop-content-length: 36\nText-content-length: 6\n\
Text-content-md5: b1946ac92492d2347c6235b4d2611184\n\
Text-content-sha1: f572d396fae9206628714fb2ce00f72e94f2258f\nContent-length: 42\n\n\
K 14\nsvn:executable\nV 1\n*\nPROPS-END\nhello\n\n\n\
Node-path: old/readme\nNode-kind: file\nNode-action: add\n\n\nRevision-number: 2\n\n\
Node-path: old\nNode-kind: dir\nNode-action: change\nProp-content-length: 22\nContent-length: 22\n\n\
K 1\np\nV 1\ny\nPROPS-END\n\n\nRevision-number: 3\n\n";

const COPY: &str = "Node-path: new\nNode-kind: dir\nNode-action: add\n\
Node-copyfrom-rev: 1\nNode-copyfrom-path: old\n\n\n";

/// What is written in place of the copy, if `old/sub/f` is excluded.
const FILE_ADDED: &str =
    "Node-path: new\nNode-kind: dir\nNode-action: add\nProp-content-length: 22\n\
Content-length: 22\n\nK 1\np\nV 1\nx\nPROPS-END\n\n\n\
Node-path: new/readme\nNode-kind: file\nNode-action: add\nNode-copyfrom-rev: 1\n\
Node-copyfrom-path: old/readme\n\n\n\
Node-path: new/sub\nNode-kind: dir\nNode-action: add\nProp-content-length: 10\nContent-length: 10\n\n\
PROPS-END\n\n\n\
Node-path: new/sub/f\nNode-kind: file\nNode-action: add\n\
Prop-content-length: 36\nText-content-length: 6\n\
Text-content-md5: b1946ac92492d2347c6235b4d2611184\n\
Text-content-sha1: f572d396fae9206628714fb2ce00f72e94f2258f\nContent-length: 42\n\n\
K 14\nsvn:executable\nV 1\n*\nPROPS-END\nhello\n\n\n";

/// A file. In the next revision, a copy of another file replaces it, and gets a text.
const FILE_COPY: &str =
    "Node-path: g\nNode-kind: file\nNode-action: add\n\n\nRevision-number: 4\n\n\
Node-path: g\nNode-kind: file\nNode-action: replace\n\
Node-copyfrom-rev: 1\nNode-copyfrom-path: old/sub/f\n\
Text-content-length: 3\nContent-length: 3\n\nhi\n\n\n";

/// The same if `old` is excluded.
const FILE_REPLACED: &str =
    "Node-path: g\nNode-kind: file\nNode-action: add\n\n\nRevision-number: 4\n\n\
Node-path: g\nNode-kind: file\nNode-action: replace\n\
Prop-content-length: 36\nText-content-length: 3\nContent-length: 39\n\n\
K 14\nsvn:executable\nV 1\n*\nPROPS-END\nhi\n\n\n";

/// A file, and in the next revision a copy of another file over it.
const COPY_OVER: &str =
    "Node-path: g\nNode-kind: file\nNode-action: add\n\n\nRevision-number: 4\n\n\
Node-path: g\nNode-kind: file\nNode-action: add\n\
Node-copyfrom-rev: 1\nNode-copyfrom-path: old/sub/f\n\n\n";

/// The same if the copy brings nothing back.
const FILE_DELETED: &str =
    "Node-path: g\nNode-kind: file\nNode-action: add\n\n\nRevision-number: 4\n\n\
Node-path: g\nNode-action: delete\n\n\n\
Node-path: g\nNode-kind: file\nNode-action: add\n\
Node-copyfrom-rev: 1\nNode-copyfrom-path: old/sub/f\n\n\n";

/// What is written in place of the copy, if `new/readme` and `new/sub/f` are excluded too.
const ADDED: &str = "Node-path: new\nNode-kind: dir\nNode-action: add\nProp-content-length: 22\n\
Content-length: 22\n\nK 1\np\nV 1\nx\nPROPS-END\n\n\n\
Node-path: new/readme\nNode-kind: file\nNode-action: add\nNode-copyfrom-rev: 1\n\
Node-copyfrom-path: old/readme\n\n\n\
Node-path: new/sub\nNode-kind: dir\nNode-action: add\nProp-content-length: 10\nContent-length: 10\n\n\
PROPS-END\n\n\n\
Node-path: new/sub/f\nNode-kind: file\nNode-action: add\nNode-copyfrom-rev: 1\n\
Node-copyfrom-path: old/sub/f\n\n\n";

/// The dump with this node in its last revision.
fn dump_with(alloc: Global, node: &str) -> Result<Vec<u8>, Memory> {
    let mut dump = Vec::from_slice(alloc, FRONT.as_bytes())?;
    dump.extend_from_slice(node.as_bytes())?;
    Ok(dump)
}

/// Whether these are the parts, each with its form.
fn are(parts: &[Part], wanted: &[(Form, &str)]) -> bool {
    if parts.len() != wanted.len() {
        return false;
    }
    for (part, (form, rest)) in parts.iter().zip(wanted) {
        if part.form != *form || part.rest.as_slice() != rest.as_bytes() {
            return false;
        }
    }
    true
}

/// Whether the copy of the dump is divided into these parts, if these paths are excluded.
fn divides(alloc: Global, prefixes: &[&[u8]], wanted: &[(Form, &str)]) -> Result<bool, Memory> {
    let dump = dump_with(alloc, COPY)?;
    let Some(index) = index_of(alloc, &dump)? else {
        return Ok(false);
    };
    let excluded = Excluded::of(alloc, prefixes)?;
    let path = b"new".as_slice();
    let source = Source {
        revision: 1,
        path: b"old",
    };
    let parts = parts_of(alloc, &index, &excluded, path, source)?;
    Ok(are(&parts, wanted))
}

#[test]
fn what_comes_back_is_divided(rt: HostRuntime) -> Result<(), Fail> {
    let whole = [(Form::Copy, "")];
    assert!(rt; divides(rt.alloc(), &[b"new"], &whole)?);
    let inside = [
        (Form::Directory, ""),
        (Form::Copy, "readme"),
        (Form::Directory, "sub"),
        (Form::Copy, "sub/f"),
    ];
    assert!(rt; divides(rt.alloc(), &[b"old", b"new/readme", b"new/sub/f"], &inside)?);
    Ok(())
}

#[test]
fn files_come_back(rt: HostRuntime) -> Result<(), Fail> {
    let parts = [
        (Form::Directory, ""),
        (Form::Copy, "readme"),
        (Form::Directory, "sub"),
        (Form::File, "sub/f"),
    ];
    assert!(rt; divides(rt.alloc(), &[b"old/sub/f"], &parts)?);
    Ok(())
}

/// Whether `wanted` is written in place of a node, if these paths are excluded.
fn expands(alloc: Global, node: &str, prefixes: &[&[u8]], wanted: &str) -> Result<bool, Memory> {
    let dump = dump_with(alloc, node)?;
    let Some(index) = index_of(alloc, &dump)? else {
        return Ok(false);
    };
    let excluded = Excluded::of(alloc, prefixes)?;
    let table = PropertyTable::of(alloc, &dump)?;
    let texts = TextTable::of(alloc, &dump)?;
    let Ok(steads) = additions(alloc, &table, &texts, &index, &excluded)? else {
        return Ok(false);
    };
    if !can_all_be_written(&steads) {
        return Ok(false);
    }
    let text = expanded(alloc, &dump, &steads)?;
    let wanted = dump_with(alloc, wanted)?;
    Ok(text.as_slice() == wanted.as_slice())
}

const OLD_ALONE: [&[u8]; 3] = [b"old", b"new/readme", b"new/sub/f"];

#[test]
fn directories_are_added(rt: HostRuntime) -> Result<(), Fail> {
    assert!(rt; expands(rt.alloc(), COPY, &OLD_ALONE, ADDED)?);
    assert!(rt; expands(rt.alloc(), COPY, &[b"new"], COPY)?);
    Ok(())
}

#[test]
fn files_are_added(rt: HostRuntime) -> Result<(), Fail> {
    assert!(rt; expands(rt.alloc(), COPY, &[b"old/sub/f"], FILE_ADDED)?);
    assert!(rt; expands(rt.alloc(), FILE_COPY, &[b"old"], FILE_REPLACED)?);
    Ok(())
}

#[test]
fn what_a_copy_is_over_is_deleted(rt: HostRuntime) -> Result<(), Fail> {
    assert!(rt; expands(rt.alloc(), COPY_OVER, &[b"new"], FILE_DELETED)?);
    Ok(())
}

#[test]
fn added_or_no_memory(rt: HostRuntime) {
    let answer = expands(rt.alloc(), COPY, &[b"old/sub/f"], FILE_ADDED);
    assert!(rt; matches!(answer, Ok(true) | Err(Memory)));
}

/// A delta of the file's text, and in the next revision a copy of the file.
const PATCHED: &str =
    "Node-path: old/sub/f\nNode-kind: file\nNode-action: change\nText-delta: true\n\
Text-content-md5: a3227f7e56d728727fe53192222fdbb1\nText-content-length: 13\nContent-length: 13\n\n\
SVN\0\0\x06\x04\x04\0\x02\x03\x02\0\n\nRevision-number: 4\n\n\
Node-path: g\nNode-kind: file\nNode-action: add\n\
Node-copyfrom-rev: 3\nNode-copyfrom-path: old/sub/f\n\n\n";

/// The same if `old` is excluded: the text that the delta makes is written.
const PATCHED_ADDED: &str =
    "Node-path: old/sub/f\nNode-kind: file\nNode-action: change\nText-delta: true\n\
Text-content-md5: a3227f7e56d728727fe53192222fdbb1\nText-content-length: 13\nContent-length: 13\n\n\
SVN\0\0\x06\x04\x04\0\x02\x03\x02\0\n\nRevision-number: 4\n\n\
Node-path: g\nNode-kind: file\nNode-action: add\nProp-content-length: 36\nText-content-length: 4\n\
Text-content-md5: a3227f7e56d728727fe53192222fdbb1\nContent-length: 40\n\n\
K 14\nsvn:executable\nV 1\n*\nPROPS-END\nlohe\n\n";

#[test]
fn texts_of_deltas_are_added(rt: HostRuntime) -> Result<(), Fail> {
    assert!(rt; expands(rt.alloc(), PATCHED, &[b"old"], PATCHED_ADDED)?);
    Ok(())
}

/// A delta that can't be read, and a copy of the directory that contains the file.
const DELTA: &str = "Node-path: old/sub/f\nNode-kind: file\nNode-action: change\nText-delta: true\n\
Text-content-length: 1\nContent-length: 1\n\nd\n\nRevision-number: 4\n\n\
Node-path: new\nNode-kind: dir\nNode-action: add\n\
Node-copyfrom-rev: 3\nNode-copyfrom-path: old\n\n\n";

/// The same with a copy of the file.
const FILE_DELTA: &str =
    "Node-path: old/sub/f\nNode-kind: file\nNode-action: change\nText-delta: true\n\
Text-content-length: 1\nContent-length: 1\n\nd\n\nRevision-number: 4\n\n\
Node-path: g\nNode-kind: file\nNode-action: add\n\
Node-copyfrom-rev: 3\nNode-copyfrom-path: old/sub/f\n\n\n";

/// A copy of a directory that sets a text.
const TEXT_COPY: &str = "Node-path: new\nNode-kind: dir\nNode-action: add\n\
Node-copyfrom-rev: 1\nNode-copyfrom-path: old\nText-content-length: 1\nContent-length: 1\n\nx\n\n";

/// The first copy for which no other nodes can be written, if these paths are excluded.
fn not_added(alloc: Global, node: &str, prefixes: &[&[u8]]) -> Result<Option<NotAdded>, Memory> {
    let dump = dump_with(alloc, node)?;
    let Some(index) = index_of(alloc, &dump)? else {
        return Ok(None);
    };
    let excluded = Excluded::of(alloc, prefixes)?;
    let table = PropertyTable::of(alloc, &dump)?;
    let texts = TextTable::of(alloc, &dump)?;
    match additions(alloc, &table, &texts, &index, &excluded)? {
        Ok(_) => Ok(None),
        Err(not_added) => Ok(Some(not_added)),
    }
}

#[test]
fn why_nothing_is_added(rt: HostRuntime) -> Result<(), Fail> {
    let delta = NotAdded {
        place: 6,
        reason: Reason::Text(NoText {
            place: 5,
            defect: TextDefect::Delta {
                defect: Defect::Header,
                byte: 0,
            },
        }),
    };
    assert!(rt; not_added(rt.alloc(), DELTA, &[b"old/sub/f"])? == Some(delta));
    assert!(rt; not_added(rt.alloc(), FILE_DELTA, &[b"old"])? == Some(delta));
    let text = NotAdded {
        place: 5,
        reason: Reason::NoLoad,
    };
    assert!(rt; not_added(rt.alloc(), TEXT_COPY, &[b"old"])? == Some(text));
    assert!(rt; not_added(rt.alloc(), COPY, &[b"old"])? == None);
    Ok(())
}
