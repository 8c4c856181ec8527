//! The lines for faults that stop the program.
use crate::copy_lines::write_source;
use crate::input::input_text;
use crate::lines::write_path;
use crate::read::Unread;
use crate::spot::{Spot, first_revision, spot_of};
use dump_additions::{NotAdded, Reason};
use dump_changes::{Defect, TextDefect};
use dump_cut::{NoPart, Rejected, Rejection};
use dump_digest::properties_of;
use dump_index::NodeChange;
use dump_nodes::{action_of, has_undefined_delta};
use dump_text::FaultKind;
use std::io::{self, Write};

/// The description of a fault.
fn fault_text(kind: FaultKind) -> &'static str {
    match kind {
        FaultKind::HeaderCut => "truncated header",
        FaultKind::Header => "invalid header line",
        FaultKind::Kind => "not a version, UUID, revision or node record",
        FaultKind::Version => "unsupported format version",
        FaultKind::Number => "invalid number",
        FaultKind::Lengths => "the lengths do not agree",
        FaultKind::ContentCut => "truncated content",
        FaultKind::Order => "revision numbers do not rise, or a node is outside of a revision",
        FaultKind::Props => "invalid properties",
        FaultKind::Md5 => "MD5 checksum mismatch",
        FaultKind::Sha1 => "SHA-1 checksum mismatch",
        FaultKind::CopySource => "the copy source is excluded",
        FaultKind::CopyRevision => "the dump has no revision up to that of the copy source",
        FaultKind::MergeInfo => "invalid svn:mergeinfo",
        FaultKind::MergeSource => "svn:mergeinfo of an excluded path",
        FaultKind::MergeRange => "svn:mergeinfo of a revision that is not before this one",
    }
}

/// Why `svnadmin load` would reject a node.
fn rejection_text(rejection: Rejection) -> &'static str {
    match rejection {
        Rejection::Root => "it adds or deletes the root",
        Rejection::NoPath => "the path does not exist",
        Rejection::NoParent => "its parent is not a directory",
        Rejection::Exists => "the path already exists",
        Rejection::NoSource => "the copy source does not exist",
        Rejection::TextOnDirectory => "a text on a directory",
    }
}

/// Writes the revision and the path that a line is about.
fn write_about<E: Write>(errors: &mut E, spot: Spot<'_>) -> io::Result<()> {
    write!(errors, "svndumpcut: ")?;
    if let Some(revision) = spot.revision() {
        write!(errors, "r{revision}: ")?;
    }
    if let Some(path) = spot.path() {
        write_path(errors, path)?;
        write!(errors, ": ")?;
    }
    Ok(())
}

/// Writes the number of a fault and its record, and the end of the line.
fn write_place<E: Write>(errors: &mut E, code: u8, spot: Spot<'_>) -> io::Result<()> {
    let Spot { number, byte, .. } = spot;
    writeln!(errors, " (fault {code}, record {number}, byte {byte})")
}

/// Writes the source of a copy after its path.
fn write_copied<E: Write>(errors: &mut E, spot: Spot<'_>) -> io::Result<()> {
    write!(errors, "svndumpcut: ")?;
    if let Some(revision) = spot.revision() {
        write!(errors, "r{revision}: ")?;
    }
    if let Some(path) = spot.path() {
        write_path(errors, path)?;
    }
    if let Some(source) = spot.source() {
        write!(errors, ", ")?;
        write_source(errors, source, b"")?;
    }
    write!(errors, ": ")
}

/// Says why a load would reject the node. If the dump has revisions, and begins above revision 1, an earlier one is needed.
fn write_rejection<E: Write>(
    errors: &mut E,
    dump: &[u8],
    rejection: Rejection,
    spot: Spot<'_>,
) -> io::Result<()> {
    match first_revision(dump) {
        Some(first) if first > 1 => {
            write_copied(errors, spot)?;
            write!(
                errors,
                "depends on a revision before r{first}, the first in this dump: dump from revision 0"
            )?;
            write_place(errors, 31, spot)
        }
        _ => {
            match rejection {
                Rejection::NoSource => write_copied(errors, spot)?,
                _ => write_about(errors, spot)?,
            }
            let text = rejection_text(rejection);
            write!(errors, "svnadmin load would reject this node: {text}")?;
            write_place(errors, 34, spot)
        }
    }
}

/// Says that the revision of a copy source has no new number.
fn write_gap<E: Write>(errors: &mut E, spot: Spot<'_>) -> io::Result<()> {
    write_copied(errors, spot)?;
    write!(
        errors,
        "the dump does not have the revision of the copy source: run without --drop-empty-revs"
    )?;
    write_place(errors, 33, spot)
}

/// Writes the line of a fault.
fn write_fault_at<E: Write>(
    errors: &mut E,
    code: u8,
    text: &str,
    spot: Spot<'_>,
) -> io::Result<()> {
    write_about(errors, spot)?;
    write!(errors, "{text}")?;
    write_place(errors, code, spot)
}

/// Writes the line of a fault of this kind.
fn write_kind_at<E: Write>(errors: &mut E, kind: FaultKind, spot: Spot<'_>) -> io::Result<()> {
    write_fault_at(errors, kind.code(), fault_text(kind), spot)
}

/// Writes the line of a fault that the filter found.
pub fn write_fault<E: Write>(
    errors: &mut E,
    dump: &[u8],
    kind: FaultKind,
    number: u64,
) -> io::Result<()> {
    write_kind_at(errors, kind, spot_of(dump, number))
}

/// Says why the dump has no part after a revision.
pub fn write_no_part<E: Write>(errors: &mut E, number: Option<u64>, why: NoPart) -> io::Result<()> {
    let Some(number) = number else {
        return Ok(());
    };
    let text = match why {
        NoPart::NotNumbered => "the revisions of the dump are not numbered 0, 1, 2 and so on",
        NoPart::NoRevision => "the dump has no such revision",
    };
    writeln!(errors, "svndumpcut: --after {number}: {text}")
}

/// What is wrong with a delta.
fn defect_text(defect: Defect) -> &'static str {
    match defect {
        Defect::Header => "it does not begin with SVN and a version",
        Defect::Compressed => "it is compressed",
        Defect::Number => "a number does not end",
        Defect::Large => "an offset or a size is too large",
        Defect::Cut => "it is truncated",
        Defect::View => "a source view slides back or is outside of the old text",
        Defect::Instruction => "not an instruction",
        Defect::Copy => "an instruction copies what is not there, or too much",
        Defect::Target => "the instructions do not make the target",
    }
}

/// Says why the text of the node can't be made, which is needed in full.
fn write_no_text<E: Write>(errors: &mut E, defect: TextDefect, spot: Spot<'_>) -> io::Result<()> {
    match defect {
        TextDefect::Delta {
            defect: Defect::Compressed,
            ..
        } => write_fault_at(errors, 32, "compressed delta: dump without --deltas", spot),
        TextDefect::Delta { defect, byte } => {
            write_about(errors, spot)?;
            let text = defect_text(defect);
            write!(errors, "invalid delta: {text}, at its byte {byte}")?;
            write_place(errors, 32, spot)
        }
        TextDefect::Md5 => write_kind_at(errors, FaultKind::Md5, spot),
        TextDefect::Sha1 => write_kind_at(errors, FaultKind::Sha1, spot),
    }
}

/// Says that a copy needs a text that the next line is about.
fn write_needing<E: Write>(errors: &mut E, copy: Spot<'_>) -> io::Result<()> {
    write_copied(errors, copy)?;
    writeln!(
        errors,
        "this copy needs a text that can't be made, unless --follow-copies is given"
    )
}

/// Says why nothing can be written in place of a copy.
pub fn write_not_added<E: Write>(
    errors: &mut E,
    dump: &[u8],
    changes: &[NodeChange<'_>],
    not_added: NotAdded,
) -> io::Result<()> {
    let Some(copy) = changes.get(not_added.place) else {
        return Ok(());
    };
    let spot = spot_of(dump, copy.record_number);
    match not_added.reason {
        Reason::Text(no_text) => {
            let Some(change) = changes.get(no_text.place) else {
                return Ok(());
            };
            write_needing(errors, spot)?;
            write_no_text(errors, no_text.defect, spot_of(dump, change.record_number))
        }
        // the load check comes first, so no such copy gets here
        Reason::NoLoad => write_rejection(errors, dump, Rejection::NoSource, spot),
        Reason::NotWritable => {
            write_copied(errors, spot)?;
            writeln!(
                errors,
                "this copy can't be written as additions: a path, a digest or the name of a property has a byte that no line can hold, or a number is too large"
            )
        }
    }
}

/// Writes the line of a node whose change isn't modelled.
fn write_no_change<E: Write>(errors: &mut E, spot: Spot<'_>) -> io::Result<()> {
    let Some(record) = spot.record else {
        return Ok(());
    };
    if properties_of(&record).is_none() {
        return write_fault_at(errors, 9, fault_text(FaultKind::Props), spot);
    }
    let text = if !action_of(&record).is_known() {
        "no action, or an unknown one"
    } else if has_undefined_delta(&record) {
        "a delta in a dump of version 2"
    } else {
        "a path or name that is not in canonical form"
    };
    write_fault_at(errors, 30, text, spot)
}

/// Writes the line of a node outside of the revisions after revision 0, or of a revision whose number isn't above the one
/// before.
fn write_out_of_order<E: Write>(errors: &mut E, spot: Spot<'_>) -> io::Result<()> {
    if spot.path().is_some() && spot.group == Some(0) {
        let text = "svnadmin load would reject this node: it is in revision 0";
        return write_fault_at(errors, 34, text, spot);
    }
    write_fault_at(errors, 8, fault_text(FaultKind::Order), spot)
}

/// Says why the changes of a dump can't be read.
pub fn write_unread<E: Write>(errors: &mut E, dump: &[u8], unread: Unread) -> io::Result<()> {
    match unread {
        Unread::Broken { kind, place } => {
            let spot = Spot {
                byte: place,
                ..spot_of(dump, u64::MAX)
            };
            match input_text(dump) {
                Some(text) if spot.number == 0 => write_fault_at(errors, kind.code(), text, spot),
                _ => write_kind_at(errors, kind, spot),
            }
        }
        Unread::NoChange(number) => write_no_change(errors, spot_of(dump, number)),
        Unread::OutOfOrder(number) => write_out_of_order(errors, spot_of(dump, number)),
        Unread::LaterCopy(number) | Unread::NoSource(number) => {
            write_rejection(errors, dump, Rejection::NoSource, spot_of(dump, number))
        }
        Unread::Gap(number) => write_gap(errors, spot_of(dump, number)),
    }
}

/// Says why `svnadmin load` would reject a node of the dump.
pub fn write_rejected<E: Write>(
    errors: &mut E,
    dump: &[u8],
    changes: &[NodeChange<'_>],
    rejected: Rejected,
) -> io::Result<()> {
    let Some(change) = changes.get(rejected.place) else {
        return Ok(());
    };
    let spot = spot_of(dump, change.record_number);
    write_rejection(errors, dump, rejected.rejection, spot)
}
