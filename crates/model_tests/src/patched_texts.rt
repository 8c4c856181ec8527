//! Texts that are made of whole texts and deltas.
use dump_changes::{
    Defect, FileText, Memory, NoText, TextDefect, TextTable, read_changes, text_at,
};
use dump_index::{ChangeIndex, ends_in_slash, first_out_of_order};
use std::alloc::Global;

/// A file that is added with a delta, a copy of it with another delta, and the copy with one that can't be read; then a
/// whole text and its delta, and a file without a text.
const PATCHED: &[u8] = b"SVN-fs-dump-format-version: 3\n\n\
Revision-number: 0\n\n\
Revision-number: 1\n\n\
Node-path: f\nNode-kind: file\nNode-action: add\nText-delta: true\n\
Text-content-length: 13\nContent-length: 13\n\nSVN\0\x00\x00\x03\x01\x03\x83abc\n\n\
Revision-number: 2\n\n\
Node-path: c\nNode-kind: file\nNode-action: add\nNode-copyfrom-rev: 1\nNode-copyfrom-path: f\nText-delta: true\n\
Text-content-length: 13\nContent-length: 13\n\nSVN\0\x00\x03\x04\x03\x01\x03\x00\x81d\n\n\
Node-path: c\nNode-kind: file\nNode-action: change\nText-delta: true\n\
Text-content-length: 10\nContent-length: 10\n\nSVN\0\x00\x00\x01\x01\x00\xc1\n\n\
Node-path: c\nNode-kind: file\nNode-action: change\n\
Text-content-length: 2\nContent-length: 2\n\nxy\n\n\
Node-path: c\nNode-kind: file\nNode-action: change\nText-delta: true\n\
Text-content-length: 13\nContent-length: 13\n\nSVN\0\x00\x02\x02\x04\x00\x01\x01\x01\x00\n\n\
Node-path: e\nNode-kind: file\nNode-action: add\n\n";

/// Files that are added with a delta that makes `abc`: with its digests, with another MD5 digest, and with another SHA-1
/// digest. Then a whole text with another MD5 digest.
const DIGESTS: &[u8] = b"SVN-fs-dump-format-version: 3\n\n\
Revision-number: 0\n\n\
Revision-number: 1\n\n\
Node-path: f\nNode-kind: file\nNode-action: add\nText-delta: true\n\
Text-content-md5: 900150983CD24FB0D6963F7D28E17F72\n\
Text-content-sha1: a9993e364706816aba3e25717850c26c9cd0d89d\n\
Text-content-length: 13\nContent-length: 13\n\nSVN\0\x00\x00\x03\x01\x03\x83abc\n\n\
Node-path: g\nNode-kind: file\nNode-action: add\nText-delta: true\n\
Text-content-md5: d41d8cd98f00b204e9800998ecf8427e\n\
Text-content-sha1: a9993e364706816aba3e25717850c26c9cd0d89d\n\
Text-content-length: 13\nContent-length: 13\n\nSVN\0\x00\x00\x03\x01\x03\x83abc\n\n\
Node-path: h\nNode-kind: file\nNode-action: add\nText-delta: true\n\
Text-content-md5: 900150983cd24fb0d6963f7d28e17f72\n\
Text-content-sha1: da39a3ee5e6b4b0d3255bfef95601890afd80709\n\
Text-content-length: 13\nContent-length: 13\n\nSVN\0\x00\x00\x03\x01\x03\x83abc\n\n\
Node-path: w\nNode-kind: file\nNode-action: add\n\
Text-content-md5: d41d8cd98f00b204e9800998ecf8427e\n\
Text-content-length: 3\nContent-length: 3\n\nabc\n\n";

fn found(
    alloc: Global,
    dump: &'static [u8],
    path: &[u8],
    count: usize,
) -> Result<Option<Result<FileText<'static>, NoText>>, Memory> {
    let table = TextTable::of(alloc, dump)?;
    let reading = read_changes(alloc, dump)?;
    if ends_in_slash(path) || first_out_of_order(&reading.changes).is_some() {
        return Ok(None);
    }
    let index = ChangeIndex::new(alloc, reading.changes)?;
    Ok(Some(text_at(alloc, &table, &index, path, count)?))
}

/// Whether this is the text that is written.
fn is_written(alloc: Global, text: &FileText<'_>, wanted: &[u8]) -> Result<bool, Memory> {
    let mut out = Vec::new(alloc);
    text.write(alloc, &mut out)?;
    Ok(out.as_slice() == wanted && text.size() == wanted.len())
}

fn is_text(alloc: Global, dump: &'static [u8], path: &[u8], count: usize, wanted: &[u8]) -> bool {
    match found(alloc, dump, path, count) {
        Ok(Some(Ok(text))) => matches!(is_written(alloc, &text, wanted), Ok(true)),
        _ => false,
    }
}

fn not_made(alloc: Global, dump: &'static [u8], path: &[u8], count: usize) -> Option<NoText> {
    match found(alloc, dump, path, count) {
        Ok(Some(Err(no_text))) => Some(no_text),
        _ => None,
    }
}

#[test]
fn deltas_are_applied(rt: HostRuntime) {
    let alloc = rt.alloc();
    assert!(rt; is_text(alloc, PATCHED, b"f", 1, b"abc"));
    assert!(rt; is_text(alloc, PATCHED, b"c", 2, b"abcd"));
    assert!(rt; is_text(alloc, PATCHED, b"f", 3, b"abc"));
    let broken = NoText {
        place: 2,
        defect: TextDefect::Delta {
            defect: Defect::Instruction,
            byte: 9,
        },
    };
    assert!(rt; not_made(alloc, PATCHED, b"c", 3) == Some(broken));
}

#[test]
fn the_last_whole_text_comes_first(rt: HostRuntime) {
    let alloc = rt.alloc();
    assert!(rt; is_text(alloc, PATCHED, b"c", 4, b"xy"));
    assert!(rt; is_text(alloc, PATCHED, b"c", 5, b"yx"));
    assert!(rt; is_text(alloc, PATCHED, b"e", 6, b""));
}

fn with(place: usize, defect: TextDefect) -> Option<NoText> {
    Some(NoText { place, defect })
}

#[test]
fn digests_of_patched_texts_are_compared(rt: HostRuntime) {
    let alloc = rt.alloc();
    assert!(rt; is_text(alloc, DIGESTS, b"f", 4, b"abc"));
    assert!(rt; not_made(alloc, DIGESTS, b"g", 4) == with(1, TextDefect::Md5));
    assert!(rt; not_made(alloc, DIGESTS, b"h", 4) == with(2, TextDefect::Sha1));
    assert!(rt; is_text(alloc, DIGESTS, b"w", 4, b"abc"));
}

/// The bytes of a text; `None` if it can't be made.
fn bytes_of(alloc: Global, path: &[u8], count: usize) -> Result<Option<Vec<u8>>, Memory> {
    let Some(Ok(text)) = found(alloc, PATCHED, path, count)? else {
        return Ok(None);
    };
    let mut out = Vec::new(alloc);
    text.write(alloc, &mut out)?;
    Ok(Some(out))
}

/// Run with each allocation failing in turn: the call returns the text, or the error for memory.
#[test]
fn patched_texts_or_no_memory(rt: HostRuntime) {
    let answered = match bytes_of(rt.alloc(), b"c", 2) {
        Ok(Some(text)) => text.as_slice() == b"abcd".as_slice(),
        Ok(None) => false,
        Err(refused) => refused == Memory,
    };
    assert!(rt; answered);
}
