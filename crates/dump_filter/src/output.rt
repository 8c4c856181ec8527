//! Adds what the filter writes for a record to a piece.
ghost use Rattle.std.specs.Prelude.{◌≡◌, ℕ, ◌++◌, List, IsTrue, OnOk};
ghost use Rattle.dump_text.specs.HeaderBlock.{block_text};
ghost use Rattle.dump_text.specs.PropertyList.{Property};
ghost use Rattle.dump_writer.specs.steps.ChunkBytes.{chunk_bytes};
ghost use Rattle.dump_records.specs.steps.RecordRest.{bytes_from};
ghost use Rattle.dump_records.specs.steps.RecordViews.{record_item};
ghost use Rattle.dump_filter.specs.steps.MadeBytes.{made_or};
ghost use Rattle.dump_filter.specs.steps.OwnText.{revision_own};
ghost use Rattle.dump_filter.specs.steps.NewLines.{AreLengths, new_record};
ghost use Rattle.dump_digest.specs.steps.DoneViews.{done_record, done_verdict};
ghost use Rattle.dump_digest.specs.RecordParts.{is_revision_record, HasPropertyList};
ghost use Rattle.dump_filter.specs.steps.NewProperties.{IsReadNode};
ghost use Rattle.dump_filter.specs.steps.Advance.{IsOwnNode};

use crate::copies::CopyChange;
use crate::new_lines::{Changes, new_lines};
use crate::new_properties::{node_properties, read_props, revision_properties};
use dump_digest::Done;
use dump_records::{Record, RecordPart};
use dump_rules::{Options, Reach};
use dump_writer::{Chunk, Memory, Piece};
use std::alloc::Global;

/// The new bytes, if there are any, or else the own ones.
fn made_or<'b>(made: &'b Option<Vec<u8>>, own: &'b [u8]) -> &'b [u8]
    ensures { result.now ≡ made_or made.now own.now }
{
    match made {
        Some(made) => made.as_slice(),
        None => own,
    }
}

/// What changes in the lines of a record that has these properties and this text.
fn changes_of(props: &[u8], text: &[u8], revision: Option<u64>, copy: CopyChange) -> Changes
    ensures lengths { AreLengths props.now text.now result }
    ensures revision { result.revision ≡ revision }
    ensures copy { result.copy ≡ copy }
{
    let props = props.len() as u64;
    let text = text.len() as u64;
    Changes {
        revision,
        copy,
        props,
        text,
        content: props + text,
    }
}

/// Adds the bytes of a record from a part on, and then the bytes of `end`. If the dump has them all in a row, they are
/// one chunk.
fn push_rest<'a>(
    piece: &mut Piece<'a>,
    item: &Record<'a>,
    part: RecordPart,
    end: &'static [u8],
) -> Result<(), Memory>
    ensures { OnOk result (piece.new ≡ piece.old ++ (bytes_from part (record_item item.now) ++ end.entry.now)) }
{
    if let Some(bytes) = item.bytes_from_with(part, end) {
        return piece.push(Chunk::Lent(bytes));
    }
    piece.push(Chunk::Lent(item.bytes_from(part)))?;
    piece.push(Chunk::Lent(end))
}

/// Adds the properties of a record, which are its own or new ones, then its text and the bytes of `end`.
fn push_content<'a>(
    piece: &mut Piece<'a>,
    item: &Record<'a>,
    props: Option<Vec<u8>>,
    end: &'static [u8],
) -> Result<(), Memory>
    ensures { let r = record_item item.now in
        OnOk result (piece.new ≡ piece.old ++ (made_or props r.props ++ r.text ++ end.entry.now)) }
{
    match props {
        Some(props) => {
            piece.push(Chunk::Own(props))?;
            push_rest(piece, item, RecordPart::Text, end)
        }
        None => push_rest(piece, item, RecordPart::Properties, end),
    }
}

/// Adds a record with these changes, with its own properties or new ones, and then the bytes of `end`.
fn push_record<'a>(
    piece: &mut Piece<'a>,
    alloc: Global,
    item: &Record<'a>,
    changes: &Changes,
    props: Option<Vec<u8>>,
    end: &'static [u8],
) -> Result<(), Memory>
    ensures { let r = record_item item.now in
        OnOk result (piece.new ≡ piece.old ++ (new_record changes.now r.headers (made_or props r.props) r.text ++ end.entry.now)) }
{
    match new_lines(alloc, item, changes)? {
        Some(block) => piece.push(Chunk::Own(block))?,
        None if props.is_none() => return push_rest(piece, item, RecordPart::Block, end),
        None => piece.push(Chunk::Lent(item.block().bytes()))?,
    }
    push_content(piece, item, props, end)
}

/// Adds a revision with a new number, with its own properties or those of a padded one.
pub(crate) fn push_revision<'a>(
    piece: &mut Piece<'a>,
    alloc: Global,
    done: &Done<'a>,
    number: u64,
    padded: bool,
) -> Result<(), Memory>
    requires revision { IsTrue (is_revision_record (record_item (done_record done.now))) }
    requires read { IsTrue (done_verdict done.now).props_ok }
    ensures { let r = record_item (done_record done.now) in OnOk result ((ps : List Property) → HasPropertyList r ps
        → piece.new ≡ piece.old ++ revision_own r number padded ps) }
{
    let item = done.item();
    let props = revision_properties(alloc, &item, &read_props(done), padded)?;
    let bytes = made_or(&props, item.property_bytes());
    let changes = changes_of(bytes, item.text_bytes(), Some(number), CopyChange::Same);
    push_record(piece, alloc, &item, &changes, props, b"\n")
}

/// Adds a node with its new copy source and new values of mergeinfo; `kept` are the kept revisions.
pub(crate) fn push_node<'a>(
    piece: &mut Piece<'a>,
    alloc: Global,
    options: &Options,
    kept: &Reach,
    done: &Done<'a>,
    copy: CopyChange,
) -> Result<(), Memory>
    requires { IsReadNode done.now }
    ensures { OnOk result ((own : List ℕ) × (piece.new ≡ piece.old ++ own)
        × IsOwnNode options.now kept.now (record_item (done_record done.now)) copy own) }
{
    let item = done.item();
    let props = node_properties(alloc, options, kept, done)?;
    let bytes = made_or(&props, item.property_bytes());
    let changes = changes_of(bytes, item.text_bytes(), None, copy);
    push_record(piece, alloc, &item, &changes, props, b"\n\n")
}

/// Adds the lines of a version or UUID record, unchanged.
pub(crate) fn push_lines<'a>(piece: &mut Piece<'a>, item: &Record<'a>) -> Result<(), Memory>
    ensures { OnOk result (piece.new ≡ piece.old ++ block_text (record_item item.now).headers) }
{
    piece.push(Chunk::Lent(item.block().bytes()))
}
