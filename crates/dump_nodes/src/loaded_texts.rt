//! Whether `svnadmin load` reads the texts of a node unchanged.
ghost use Rattle.std.specs.Prelude.{◌≡◌, List, Option, [], IsTrue, not, unwrap_or};
ghost use Rattle.std.specs.List.{list_all};
ghost use Rattle.dump_text.specs.HeaderLine.{has_byte};
ghost use Rattle.dump_text.specs.PropertyList.{IsPropertyBlock, Property};
ghost use Rattle.dump_text.specs.steps.PropertyViews.{props_bytes};
ghost use Rattle.dump_records.specs.steps.RecordViews.{record_item};
ghost use Rattle.dump_digest.specs.RecordParts.{is_node};
ghost use Rattle.dump_digest.specs.steps.ContentViews.{ArePropertiesOf};
ghost use Rattle.dump_history.specs.RecordChanges.{loads_as_written, is_plain_line};
ghost use Rattle.dump_history.specs.Findings.{IsReadBlock};

use crate::canonical_path::is_canonical;
use crate::node::{copy_path_of, path_of};
use dump_records::Record;
use dump_text::Props;

/// Whether the text has a zero byte.
fn has_zero(text: &[u8]) -> bool
    ensures { result ≡ has_byte 0 text.now }
{
    text.contains(&0)
}

/// Whether no header line has a zero byte. It searches the whole block, whose other bytes are colons, blanks and LFs.
fn are_lines_plain(item: &Record<'_>) -> bool
    ensures { result ≡ list_all is_plain_line (record_item item.now).headers }
{
    !has_zero(item.block().bytes())
}

/// Whether no name of these properties has a zero byte.
fn are_names_plain(props: &Props<'_>) -> bool
    ensures { (ps : List Property) → IsPropertyBlock (props_bytes props.now) ps
        → result ≡ list_all (λ (p : Property). not (has_byte 0 p.name)) ps }
{
    let mut entries = props.entries();
    while let Some(entry) = entries.next() {
        if has_zero(entry.name) {
            return false;
        }
    }
    true
}

/// Whether no name of the record's properties has a zero byte; true if the properties can't be read.
fn are_properties_plain(item: &Record<'_>, props: &Option<Props<'_>>) -> bool
    requires { ArePropertiesOf (record_item item.now) props.now }
    ensures { (ps : Option (List Property)) → IsReadBlock (record_item item.now) ps
        → result ≡ list_all (λ (p : Property). not (has_byte 0 p.name)) (unwrap_or ps []) }
{
    match props {
        Some(props) => are_names_plain(props),
        None => true,
    }
}

/// Whether `svnadmin load` reads the texts of the node unchanged; `props` are the node's properties. A load cuts a
/// value at a zero byte, rejects a name with one, and makes paths canonical.
pub fn loads_as_written(item: &Record<'_>, props: &Option<Props<'_>>) -> bool
    requires node { IsTrue (is_node (record_item item.now)) }
    requires props { ArePropertiesOf (record_item item.now) props.now }
    ensures { (ps : Option (List Property)) → IsReadBlock (record_item item.now) ps
        → result ≡ loads_as_written (record_item item.now) (unwrap_or ps []) }
{
    let are_names = are_properties_plain(item, props);
    are_lines_plain(item)
        & are_names
        & is_canonical(path_of(item))
        & is_canonical(copy_path_of(item))
}
