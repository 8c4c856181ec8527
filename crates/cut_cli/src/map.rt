//! The map of revisions: the number of each one in the new repository.
ghost use Rattle.std.specs.Prelude.{◌≡◌, ◌+◌, ◌<◌, ◌^◌, ◌++◌, [], if◌then◌else◌, IfOk, None, OnOk, false, true, is_some, unwrap_or};
ghost use Rattle.std.specs.Io.KnownBytes.{Keeps};
ghost use Rattle.cut_cli.specs.steps.Drive.{BeginsMap, EndsMap, WritesMap};
ghost use Rattle.cut_cli.specs.RevisionMap.{IsMapOfCut, fate_line, fate_lines, has_line, last_behind, loaded_number};
ghost use Rattle.cut_cli.specs.steps.Words.{asked_map, cut_meaning};

use crate::mistakes::{write_cut_map, write_no_map};
use crate::words::{Call, asked_map};
use cli_support::{NamedOutput, write_text};
use dump_changes::Memory;
use dump_cut::{RevisionFate, revision_fates};
use dump_rules::Options;
use std::alloc::Global;
use std::io::{self, ErrorKind, Write};

/// Creates the file of the map, if the call asks for one. It reports a failure. The result is whether the cut can go
/// on.
pub fn begin_map<M: NamedOutput, E: Write>(
    call: &Call<'_>,
    map_file: &mut M,
    errors: &mut E,
) -> bool
    ensures begun { result ≡ true → BeginsMap (asked_map (cut_meaning call.now)) (M.contents map_file.old) (M.contents map_file.new) }
    ensures failed { result ≡ false → (is_some (asked_map (cut_meaning call.now)) ≡ true)
        × Keeps (M.contents map_file.old) (M.contents map_file.new) }
{
    let Some(name) = asked_map(call) else {
        return true;
    };
    if map_file.create(name).is_err() {
        let _ = write_no_map(errors, name);
        return false;
    }
    true
}

/// The number that a load gives to a kept revision; `last` is the number that it gave before.
fn loaded_number(last: Option<u64>, number: u64) -> u64
    requires { unwrap_or last 0 + 1 < 2 ^ 64 }
    ensures { result ≡ loaded_number last number }
{
    if number == 0 {
        return 0;
    }
    match last {
        Some(last) => last + 1,
        None => 1,
    }
}

/// The last number that a load has given after this revision; `last` is the number that it gave before.
fn last_after(last: Option<u64>, fate: RevisionFate) -> Option<u64>
    requires { unwrap_or last 0 + 1 < 2 ^ 64 }
    ensures { result ≡ last_behind last fate }
{
    if !fate.stays {
        return last;
    }
    Some(loaded_number(last, fate.number))
}

/// Appends the line of a revision; `last` is the number that a load gave before it.
fn push_line(text: &mut Vec<u8>, last: Option<u64>, fate: RevisionFate) -> io::Result<()>
    requires { unwrap_or last 0 + 1 < 2 ^ 64 }
    ensures { OnOk result (text.new.items ≡ text.old.items ++ fate_line last fate) }
{
    let number = fate.number;
    if fate.stays {
        let new = loaded_number(last, number);
        return writeln!(text, "r{number} becomes r{new}");
    }
    match last {
        Some(kept) => writeln!(
            text,
            "r{number} is dropped; references to it become r{kept}"
        ),
        None => writeln!(text, "r{number} is dropped"),
    }
}

/// Whether a revision has a line: if `after` names a revision, only later ones have one.
fn has_line(after: Option<u64>, fate: RevisionFate) -> bool
    ensures { result ≡ has_line after fate }
{
    match after {
        Some(number) => fate.number > number,
        None => true,
    }
}

/// Appends the line of a revision, if it has one.
fn push_shown(
    text: &mut Vec<u8>,
    after: Option<u64>,
    last: Option<u64>,
    fate: RevisionFate,
) -> io::Result<()>
    requires { unwrap_or last 0 + 1 < 2 ^ 64 }
    ensures { OnOk result (text.new.items ≡ text.old.items ++ (if has_line after fate then fate_line last fate else [])) }
{
    if has_line(after, fate) {
        push_line(text, last, fate)?;
    }
    Ok(())
}

/// The lines of these revisions.
fn lines_of(alloc: Global, fates: &[RevisionFate], after: Option<u64>) -> io::Result<Vec<u8>>
    ensures { IfOk result (λ text. text.items ≡ fate_lines after None fates.now) }
{
    let mut text = Vec::new(alloc);
    let mut last = None;
    for fate in fates {
        push_shown(&mut text, after, last, *fate)?;
        last = last_after(last, *fate);
    }
    Ok(text)
}

/// The map of the revisions of a dump that is cut with these options. If `after` names a revision, only later ones are
/// in it.
fn map_text(
    alloc: Global,
    dump: &[u8],
    options: &Options,
    after: Option<u64>,
) -> io::Result<Vec<u8>>
    ensures { IfOk result (λ text. IsMapOfCut after options.now dump.now text.items) }
{
    match revision_fates(alloc, dump, options) {
        Ok(fates) => lines_of(alloc, &fates, after),
        Err(Memory) => Err(ErrorKind::OutOfMemory.into()),
    }
}

/// Writes the map after the whole cut, if the call asks for one. It reports a failure. The result is whether all of
/// the map was written.
pub fn end_map<M: NamedOutput, E: Write>(
    alloc: Global,
    dump: &[u8],
    options: &Options,
    call: &Call<'_>,
    map_file: &mut M,
    errors: &mut E,
) -> bool
    ensures { EndsMap (asked_map (cut_meaning call.now)) call.now.after options.now dump.now (M.contents map_file.old) (M.contents map_file.new) result }
{
    let Some(name) = asked_map(call) else {
        return true;
    };
    let is_written = write_map(alloc, dump, options, call.after, map_file);
    if !is_written {
        let _ = write_cut_map(errors, name);
    }
    is_written
}

/// Writes the map of a dump. The result is whether all of it was written.
fn write_map<M: NamedOutput>(
    alloc: Global,
    dump: &[u8],
    options: &Options,
    after: Option<u64>,
    map_file: &mut M,
) -> bool
    ensures { WritesMap after options.now dump.now (M.contents map_file.old) (M.contents map_file.new) result }
{
    match map_text(alloc, dump, options, after) {
        Ok(text) => write_text(alloc, &text, map_file).is_ok(),
        Err(_) => false,
    }
}
