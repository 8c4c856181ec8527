//! The property block that the filter writes for a record, or none if the record's own block is written unchanged.
ghost use Rattle.std.specs.Prelude.{◌≡◌, ◌++◌, List, false, IsTrue, OnOk, IfOk, option_copied};
ghost use Rattle.dump_text.specs.PropertyList.{Property, IsPropertyBlock, entry_text, property_block_text};
ghost use Rattle.dump_text.specs.steps.PropertyViews.{props_bytes, entry_property};
ghost use Rattle.dump_records.specs.steps.RecordViews.{record_item};
ghost use Rattle.dump_rules.specs.Mergeinfo.{HasMergeLines};
ghost use Rattle.dump_digest.specs.steps.ContentViews.{is_asked};
ghost use Rattle.dump_digest.specs.steps.DoneViews.{done_record, done_settings, done_verdict};
ghost use Rattle.dump_digest.specs.steps.MergeFaults.{HasGoodMergeinfo};
ghost use Rattle.dump_digest.specs.RecordParts.{is_mergeinfo, value_of, HasPropertyList};
ghost use Rattle.dump_filter.specs.NewContent.{revision_properties, IsNewProperty, AreNewProperties, new_block};
ghost use Rattle.dump_filter.specs.steps.MadeBytes.{made_or};
ghost use Rattle.dump_filter.specs.steps.NewProperties.{IsReadNode, dated_padding};

use dump_digest::{Done, is_mergeinfo};
use dump_records::Record;
use dump_rules::{Options, Reach, new_value};
use dump_text::{Entry, Props, push_block_end, push_deletion, push_property};
use dump_writer::Memory;
use std::alloc::{AllocError, Global};

/// The property that holds the date of a revision.
const DATE: &[u8] = b"svn:date";

/// The log message of a padded revision.
const PADDING_LOG: &[u8] = b"This is an empty revision for padding.";

/// Appends an entry, whose lengths are written without leading zeros.
fn push_entry(out: &mut Vec<u8>, entry: &Entry<'_>) -> Result<(), AllocError>
    ensures { OnOk result (out.new.items ≡ out.old.items ++ entry_text (entry_property entry.now)) }
{
    if entry.gone {
        push_deletion(out, entry.name)
    } else {
        push_property(out, entry.name, entry.value)
    }
}

/// The property block that the filter writes for these properties.
fn write_entries(alloc: Global, props: &Props<'_>) -> Result<Vec<u8>, Memory>
    ensures { IfOk result (λ out. (ps : List Property) → IsPropertyBlock (props_bytes props.now) ps
        → out.items ≡ property_block_text ps) }
{
    let mut out = Vec::new(alloc);
    let mut entries = props.entries();
    while let Some(entry) = entries.next() {
        push_entry(&mut out, &entry)?;
    }
    push_block_end(&mut out)?;
    Ok(out)
}

/// The property block that the filter writes for these properties, or `None` if it is the same as the old one.
fn respelled(alloc: Global, props: &Props<'_>) -> Result<Option<Vec<u8>>, Memory>
    ensures { IfOk result (λ made. (ps : List Property) → IsPropertyBlock (props_bytes props.now) ps
        → made_or made (props_bytes props.now) ≡ property_block_text ps) }
{
    if props.spelled() {
        return Ok(None);
    }
    let bytes = write_entries(alloc, props)?;
    Ok(Some(bytes))
}

/// The properties of a padded revision, with this date if there is one.
fn write_padding(alloc: Global, date: Option<&[u8]>) -> Result<Vec<u8>, Memory>
    ensures { IfOk result (λ out. out.items ≡ property_block_text (dated_padding (option_copied date.entry))) }
{
    let mut out = Vec::new(alloc);
    if let Some(date) = date {
        push_property(&mut out, DATE, date)?;
    }
    push_property(&mut out, b"svn:log", PADDING_LOG)?;
    push_block_end(&mut out)?;
    Ok(out)
}

/// The properties of a revision or of a kept node, whose check found a property block.
pub(crate) fn read_props<'a>(done: &Done<'a>) -> Props<'a>
    requires asked { IsTrue (is_asked (done_settings done.now) (record_item (done_record done.now))) }
    requires read { IsTrue (done_verdict done.now).props_ok }
    ensures { props_bytes result ≡ (record_item (done_record done.now)).props }
{
    let Some(props) = done.props() else {
        unreachable!()
    };
    props
}

/// The new property block of a record with these properties, or `None` if the record's own is written.
fn respelled_block(
    alloc: Global,
    item: &Record<'_>,
    props: &Props<'_>,
) -> Result<Option<Vec<u8>>, Memory>
    requires { props_bytes props.now ≡ (record_item item.now).props }
    ensures { let r = record_item item.now in IfOk result (λ made. (ps : List Property) → HasPropertyList r ps
        → made_or made r.props ≡ new_block false r ps) }
{
    if item.has_props() {
        respelled(alloc, props)
    } else {
        Ok(None)
    }
}

/// The new property block of a revision with these properties, padded or not, or `None` if the revision's own is
/// written.
pub(crate) fn revision_properties(
    alloc: Global,
    item: &Record<'_>,
    props: &Props<'_>,
    padded: bool,
) -> Result<Option<Vec<u8>>, Memory>
    requires { props_bytes props.now ≡ (record_item item.now).props }
    ensures { let r = record_item item.now in IfOk result (λ made. (ps : List Property) → HasPropertyList r ps
        → made_or made r.props ≡ new_block padded r (revision_properties padded ps)) }
{
    if padded {
        let date = props.get(DATE);
        let bytes = write_padding(alloc, date)?;
        return Ok(Some(bytes));
    }
    respelled_block(alloc, item, props)
}

/// Appends a property of a kept node, with its new value if it is mergeinfo.
fn push_rewritten(
    out: &mut Vec<u8>,
    alloc: Global,
    options: &Options,
    kept: &Reach,
    entry: &Entry<'_>,
) -> Result<(), Memory>
    requires { IsTrue (is_mergeinfo (entry_property entry.now)) → ¬ ¬ HasMergeLines (value_of (entry_property entry.now)) }
    ensures { OnOk result ((new : Property) × IsNewProperty options.now kept.now (entry_property entry.now) new
        × (out.new.items ≡ out.old.items ++ entry_text new)) }
{
    if !is_mergeinfo(entry) {
        return Ok(push_entry(out, entry)?);
    }
    match new_value(alloc, entry.value, options, kept) {
        Ok(value) => Ok(push_property(out, entry.name, &value)?),
        Err(_) => Err(Memory),
    }
}

/// The property block that the filter writes for a kept node, with new values of mergeinfo.
fn write_rewritten(
    alloc: Global,
    options: &Options,
    kept: &Reach,
    props: &Props<'_>,
) -> Result<Vec<u8>, Memory>
    requires { HasGoodMergeinfo (props_bytes props.now) }
    ensures { IfOk result (λ out. (ps : List Property) → IsPropertyBlock (props_bytes props.now) ps
        → (new : List Property) × AreNewProperties options.now kept.now ps new × (out.items ≡ property_block_text new)) }
{
    let mut out = Vec::new(alloc);
    let mut entries = props.entries();
    while let Some(entry) = entries.next() {
        push_rewritten(&mut out, alloc, options, kept, &entry)?;
    }
    push_block_end(&mut out)?;
    Ok(out)
}

/// The new property block of a kept node with mergeinfo, if the node has a length for one.
fn rewritten_block(
    alloc: Global,
    options: &Options,
    kept: &Reach,
    item: &Record<'_>,
    props: &Props<'_>,
) -> Result<Option<Vec<u8>>, Memory>
    requires read { props_bytes props.now ≡ (record_item item.now).props }
    requires lines { HasGoodMergeinfo (props_bytes props.now) }
    ensures { let r = record_item item.now in IfOk result (λ made. (ps : List Property) → HasPropertyList r ps
        → (new : List Property) × AreNewProperties options.now kept.now ps new × (made_or made r.props ≡ new_block false r new)) }
{
    if item.has_props() {
        let bytes = write_rewritten(alloc, options, kept, props)?;
        Ok(Some(bytes))
    } else {
        Ok(None)
    }
}

/// The new property block of a kept node, with new values of mergeinfo, or `None` if the node's own is written.
pub(crate) fn node_properties(
    alloc: Global,
    options: &Options,
    kept: &Reach,
    done: &Done<'_>,
) -> Result<Option<Vec<u8>>, Memory>
    requires node { IsReadNode done.now }
    ensures { let r = record_item (done_record done.now) in IfOk result (λ made. (ps : List Property) → HasPropertyList r ps
        → (new : List Property) × AreNewProperties options.now kept.now ps new × (made_or made r.props ≡ new_block false r new)) }
{
    let item = done.item();
    let props = read_props(done);
    if done.has_mergeinfo() {
        rewritten_block(alloc, options, kept, &item, &props)
    } else {
        respelled_block(alloc, &item, &props)
    }
}
