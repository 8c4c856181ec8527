//! Values of `svn:mergeinfo`, as a load reads them.
use crate::names::cleaned;
use crate::spans::{Span, canonical, union};
use dump_rules::Memory;
use dump_text::{find, number};
use std::alloc::Global;
use std::collections::BTreeMap;

/// The spans of each path of a value. The paths are in canonical form, without a leading slash.
pub(crate) type Lines = BTreeMap<Vec<u8>, Vec<Span>>;

/// The largest number of a revision, and the most digits of one.
const MOST: u64 = 2_147_483_647;

const DIGITS: usize = 10;

/// How a line ends.
#[derive(Clone, Copy, PartialEq, Eq)]
enum LineEnd {
    Lf,
    Cr,
    CrLf,
}

/// The first line of a text, how it ends, and what follows. The last line has no end.
fn cut_line(text: &[u8]) -> (&[u8], Option<LineEnd>, &[u8]) {
    for (place, byte) in text.iter().enumerate() {
        let (line, rest) = (&text[..place], &text[place + 1..]);
        match (*byte, rest.strip_prefix(b"\n")) {
            (b'\n', _) => return (line, Some(LineEnd::Lf), rest),
            (b'\r', Some(after)) => return (line, Some(LineEnd::CrLf), after),
            (b'\r', None) => return (line, Some(LineEnd::Cr), rest),
            _ => {}
        }
    }
    (text, None, b"")
}

/// The part of a value that is read: up to its first zero byte.
pub(crate) fn before_zero(value: &[u8]) -> &[u8] {
    match find(0, value) {
        Some(place) => &value[..place],
        None => value,
    }
}

/// The number with which a text begins, and what follows it.
fn cut_number(text: &[u8]) -> Option<(u64, &[u8])> {
    let digits = match text.iter().position(|byte| !byte.is_ascii_digit()) {
        Some(place) => place,
        None => text.len(),
    };
    if digits > DIGITS {
        return None;
    }
    let found = number(&text[..digits])?;
    if found > MOST {
        return None;
    }
    Some((found, &text[digits..]))
}

/// The range with which a text begins, and what follows it.
fn cut_range(text: &[u8]) -> Option<(Span, &[u8])> {
    let (first, mut rest) = cut_number(text)?;
    let start = first.checked_sub(1)?;
    let mut end = first;
    if let Some(after) = rest.strip_prefix(b"-") {
        (end, rest) = cut_number(after)?;
        if end <= first {
            return None;
        }
    }
    let (inheritable, rest) = match rest.strip_prefix(b"*") {
        Some(after) => (false, after),
        None => (true, rest),
    };
    let span = Span {
        start,
        end,
        inheritable,
    };
    Some((span, rest))
}

/// A text without the white space at its front.
fn after_white_space(text: &[u8]) -> &[u8] {
    let place = text.iter().position(|byte| !matches!(*byte, b' ' | b'\t' | 0x0b | 0x0c | b'\r'));
    match place {
        Some(place) => &text[place..],
        None => b"",
    }
}

/// The ranges of a line, as they stand. Only the last line of a value may not end with a comma.
fn read_ranges(alloc: Global, list: &[u8], is_last: bool) -> Result<Option<Vec<Span>>, Memory> {
    let mut spans = Vec::new(alloc);
    let mut left = after_white_space(list);
    // each range has a byte
    for _ in 0..list.len() {
        let Some((span, rest)) = cut_range(left) else {
            return Ok(None);
        };
        spans.push(span)?;
        match rest {
            [] => return Ok(Some(spans)),
            [b','] => return Ok(if is_last { None } else { Some(spans) }),
            [b',', others @ ..] => left = others,
            _ => return Ok(None),
        }
    }
    Ok(None)
}

/// Adds a line of a value; whether it can be read.
fn add_line(alloc: Global, line: &[u8], is_last: bool, lines: &mut Lines) -> Result<bool, Memory> {
    let Some(colon) = line.iter().rposition(|byte| *byte == b':') else {
        return Ok(false);
    };
    let Some(ranges) = read_ranges(alloc, &line[colon + 1..], is_last)? else {
        return Ok(false);
    };
    let Some(mut spans) = canonical(alloc, &ranges)? else {
        return Ok(false);
    };
    let path = cleaned(alloc, &line[..colon])?;
    if let Some(others) = lines.get(path.as_slice()) {
        spans = union(alloc, &spans, others)?;
    }
    lines.insert(path, spans)?;
    Ok(true)
}

/// The lines of a value; `None` if a load rejects it.
pub(crate) fn read_mergeinfo(alloc: Global, value: &[u8]) -> Result<Option<Lines>, Memory> {
    let mut lines = Lines::new(alloc);
    let mut left = before_zero(value);
    let mut first_end = None;
    // each line but the last has a byte
    for _ in 0..=value.len() {
        let (line, end, rest) = cut_line(left);
        if end.is_none() && line.is_empty() {
            break;
        }
        if end.is_some() && first_end.is_some() && end != first_end {
            return Ok(None);
        }
        if !add_line(alloc, line, end.is_none(), &mut lines)? {
            return Ok(None);
        }
        if end.is_none() {
            break;
        }
        first_end = end;
        left = rest;
    }
    Ok(Some(lines))
}
