//! The header lines that the filter writes for a record: the old ones with new numbers, and lengths that were missing.
ghost use Rattle.std.specs.Prelude.{◌≡◌, ◌++◌, ◌∷◌, [], List, ℕ, Some, OnOk, IfOk, IsTrue};
ghost use Rattle.dump_text.specs.Names.{revision_name};
ghost use Rattle.dump_text.specs.steps.KnownValues.{name_text};
ghost use Rattle.dump_text.specs.HeaderLine.{Header, has_header, header_text};
ghost use Rattle.dump_text.specs.HeaderBlock.{lines_bytes, block_text};
ghost use Rattle.dump_text.specs.steps.Views.{line_header};
ghost use Rattle.dump_records.specs.HeaderRules.{header_number};
ghost use Rattle.dump_records.specs.steps.RecordViews.{record_item};
ghost use Rattle.dump_filter.specs.steps.MadeBytes.{made_or};
ghost use Rattle.dump_filter.specs.steps.NewLines.{AreLengths, StaysCopied, copy_number, is_copy_line, is_dropped, number_for, numbered, with_number, renewed_lines, added, new_headers};

use crate::copies::CopyChange;
use dump_records::Record;
use dump_text::{HeaderName, Line, push_header};
use dump_writer::Memory;
use std::alloc::Global;

/// What changes in the header lines of a record: its revision number, its copy source, and its lengths.
#[derive(Clone, Copy)]
pub(crate) struct Changes {
    pub(crate) revision: Option<u64>,
    pub(crate) copy: CopyChange,
    pub(crate) props: u64,
    pub(crate) text: u64,
    pub(crate) content: u64,
}

/// The new value of `Node-copyfrom-rev`, if it gets one.
fn copy_number(copy: CopyChange) -> Option<u64>
    ensures { result ≡ copy_number copy }
{
    match copy {
        CopyChange::Renumbered(n) => Some(n),
        CopyChange::Same | CopyChange::Dropped => None,
    }
}

/// Whether a line of this name is part of a copy source.
fn is_copy_line(name: &[u8]) -> bool
    ensures { result ≡ is_copy_line name.now }
{
    name == HeaderName::NodeCopyfromRev.bytes()
        || name == HeaderName::NodeCopyfromPath.bytes()
        || name == HeaderName::TextCopySourceMd5.bytes()
        || name == HeaderName::TextCopySourceSha1.bytes()
}

/// Whether the line of this name is removed.
fn is_dropped(changes: &Changes, name: &[u8]) -> bool
    ensures { result ≡ is_dropped changes.now.copy name.now }
{
    match changes.copy {
        CopyChange::Dropped => is_copy_line(name),
        CopyChange::Same | CopyChange::Renumbered(_) => false,
    }
}

/// The new number for the line of this name, if it gets one.
fn number_for(changes: &Changes, name: &[u8]) -> Option<u64>
    ensures { result ≡ number_for changes.now name.now }
{
    if name == HeaderName::RevisionNumber.bytes() {
        changes.revision
    } else if name == HeaderName::NodeCopyfromRev.bytes() {
        copy_number(changes.copy)
    } else if name == HeaderName::PropContentLength.bytes() {
        Some(changes.props)
    } else if name == HeaderName::TextContentLength.bytes() {
        Some(changes.text)
    } else if name == HeaderName::ContentLength.bytes() {
        Some(changes.content)
    } else {
        None
    }
}

/// Appends a line, with a new number if it gets one.
fn push_line(out: &mut Vec<u8>, line: &Line<'_>, number: Option<u64>) -> Result<(), Memory>
    ensures { OnOk result (out.new.items ≡ out.old.items ++ (header_text (with_number (line_header line.now) number) ++ 10 ∷ [])) }
{
    match number {
        Some(n) => Ok(push_header(out, line.name, n)?),
        None => {
            out.extend_from_slice(line.whole)?;
            Ok(out.extend_from_slice(b"\n")?)
        }
    }
}

/// Appends the line of a length that isn't 0 and had no line.
fn push_missing(out: &mut Vec<u8>, is_there: bool, name: HeaderName, n: u64) -> Result<(), Memory>
    ensures { (headers : List Header) → is_there ≡ has_header (name_text name) headers
        → OnOk result (out.new.items ≡ out.old.items ++ lines_bytes (added (name_text name) n headers)) }
{
    if n == 0 || is_there {
        return Ok(());
    }
    Ok(push_header(out, name.bytes(), n)?)
}

/// Whether the record already has this revision number, or gets none.
fn revision_stays(item: &Record<'_>, revision: Option<u64>) -> bool
    ensures { IsTrue result → (n : ℕ) → revision ≡ Some n → header_number revision_name (record_item item.now).headers ≡ Some n }
{
    revision.is_none() || item.revision() == revision
}

/// Whether the copy source of a record is unchanged.
fn copy_stays(item: &Record<'_>, copy: CopyChange) -> bool
    ensures { IsTrue result → StaysCopied copy (record_item item.now).headers }
{
    match copy {
        CopyChange::Same => true,
        CopyChange::Renumbered(n) => item.copy_revision() == Some(n),
        CopyChange::Dropped => false,
    }
}

/// Whether the lengths of the record are those of the changes.
fn lengths_stay(item: &Record<'_>, changes: &Changes) -> bool
    ensures { let r = record_item item.now in IsTrue result → AreLengths r.props r.text changes.now }
{
    let props = item.property_bytes().len() as u64;
    let text = item.text_bytes().len() as u64;
    changes.props == props && changes.text == text && changes.content == props + text
}

/// Whether the record's block is written unchanged.
fn block_stays(item: &Record<'_>, changes: &Changes) -> bool
    ensures { let r = record_item item.now in IsTrue result → new_headers changes.now r.headers ≡ r.headers }
{
    item.is_written()
        && lengths_stay(item, changes)
        && revision_stays(item, changes.revision)
        && copy_stays(item, changes.copy)
}

/// The block that is written for a record, or `None` if the record's own block is written unchanged.
pub(crate) fn new_lines(
    alloc: Global,
    item: &Record<'_>,
    changes: &Changes,
) -> Result<Option<Vec<u8>>, Memory>
    ensures { let headers = (record_item item.now).headers in
        IfOk result (λ made. made_or made (block_text headers) ≡ block_text (new_headers changes.now headers)) }
{
    if block_stays(item, changes) {
        return Ok(None);
    }
    let bytes = write_block(alloc, item, changes)?;
    Ok(Some(bytes))
}

/// The block of a record with these changes.
fn write_block(alloc: Global, item: &Record<'_>, changes: &Changes) -> Result<Vec<u8>, Memory>
    ensures { let headers = (record_item item.now).headers in
        IfOk result (λ bytes. bytes.items ≡ block_text (new_headers changes.now headers)) }
{
    let mut out = Vec::new(alloc);
    let mut lines = item.block().lines();
    while let Some(line) = lines.next() {
        if !is_dropped(changes, line.name) {
            push_line(&mut out, &line, number_for(changes, line.name))?;
        }
    }
    push_missing(
        &mut out,
        item.has_props(),
        HeaderName::PropContentLength,
        changes.props,
    )?;
    push_missing(
        &mut out,
        item.has_content(),
        HeaderName::ContentLength,
        changes.content,
    )?;
    out.extend_from_slice(b"\n")?;
    Ok(out)
}
