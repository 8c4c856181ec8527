//! What a check reads from a record: its verdict, and what the filter needs to know of its properties and its copy
//! source.
ghost use Rattle.std.specs.Prelude.{◌≡◌, ◌↔◌, ℕ, false, List, is_some, Some, MatchOption, IsFalse, IsTrue, IsNone, IsSome, IfSome};
ghost use Rattle.std.specs.Option.{ForSome};
ghost use Rattle.dump_text.specs.declared.props.Props.{Props};
ghost use Rattle.dump_text.specs.PropertyList.{IsPropertyBlock, Property};
ghost use Rattle.dump_text.specs.steps.PropertyViews.{props_bytes, IsReadingOf};
ghost use Rattle.dump_records.specs.RecordText.{DumpRecord};
ghost use Rattle.dump_records.specs.steps.RecordViews.{record_item};
ghost use Rattle.dump_rules.specs.Settings.{Settings};
ghost use Rattle.dump_digest.specs.steps.Checks.{properties_read};
ghost use Rattle.dump_digest.specs.steps.ContentViews.{IsContent, IsSaidBy};
ghost use Rattle.dump_digest.specs.RecordParts.{HasPropertyBlock, has_lost_source, is_kept_node, is_node, is_revision_record};

use crate::digests::text_check;
use crate::node_mergeinfo::Mergeinfo;
use crate::verdict::Verdict;
use dump_records::Record;
use dump_rules::{Bounds, Options, keeps};
use dump_text::{Props, PropsReading};

/// What was read from a record. The fields of a kept node's mergeinfo are next to the others, so that the type is
/// small. They have a meaning only if the verdict says that each value of it can be read.
#[derive(Clone, Copy)]
pub(crate) struct Content {
    pub(crate) verdict: Verdict,
    /// Whether it is a node that the options keep.
    pub(crate) kept: bool,
    /// Whether it is a kept node that is copied from a path that isn't kept.
    pub(crate) lost_source: bool,
    /// What was found in the properties of a revision or of a kept node, if they are a property block.
    pub(crate) props: Option<PropsReading>,
    /// Whether a kept node has mergeinfo.
    pub(crate) has_mergeinfo: bool,
    /// Whether a line of a kept node's mergeinfo has a path that isn't kept, and missing sources aren't skipped.
    pub(crate) misses_source: bool,
    /// The bounds of the numbers in a kept node's mergeinfo.
    pub(crate) numbers: Bounds,
}

impl Content {
    /// The result for a record that is neither a revision nor a kept node.
    const NOTHING: Content = Content {
        verdict: Verdict::UNASKED,
        kept: false,
        lost_source: false,
        props: None,
        has_mergeinfo: false,
        misses_source: false,
        numbers: Bounds::NONE,
    };
}

/// Whether the record is a node that the options keep.
pub fn is_kept(item: &Record<'_>, options: &Options) -> bool
    ensures { result ≡ is_kept_node options.now (record_item item.now) }
{
    match item.path() {
        Some(path) => keeps(options, path),
        None => false,
    }
}

/// Whether the node is copied from a path that the options don't keep.
fn has_lost_source(item: &Record<'_>, options: &Options) -> bool
    requires { IsTrue (is_node (record_item item.now)) }
    ensures { result ≡ has_lost_source options.now (record_item item.now) }
{
    match item.copy_path() {
        Some(path) => !keeps(options, path),
        None => false,
    }
}

/// The mergeinfo in the properties of a kept node; `None` if a value of it can't be read. If the properties can't be
/// read, there is no mergeinfo.
fn mergeinfo_of(props: &Option<Props<'_>>, options: &Options) -> Option<Mergeinfo>
    ensures some { (ps : List Property) (p : Props) → props.now ≡ Some p → IsPropertyBlock (props_bytes p) ps
        → MatchOption result (properties_read ps ≡ false) (λ m. IsSaidBy options.now ps m) }
    ensures none { IsNone props.now → IsSome result }
{
    match props {
        Some(props) => Mergeinfo::of(props, options),
        None => Some(Mergeinfo::none()),
    }
}

/// The properties of the record, if they are a property block.
pub fn properties_of<'a>(item: &Record<'a>) -> Option<Props<'a>>
    ensures found { IsSome result ↔ HasPropertyBlock (record_item item.now) }
    ensures bytes { IfSome result (λ props. props_bytes props ≡ (record_item item.now).props) }
{
    let bytes = item.property_bytes();
    if item.may_have_delta() {
        Props::read_with_deletes(bytes)
    } else {
        Props::read(bytes)
    }
}

/// What was found in the properties, if they are a property block.
fn reading_of(props: &Option<Props<'_>>) -> Option<PropsReading>
    ensures found { is_some result ≡ is_some props.now }
    ensures reading { (bytes : List ℕ) → IfSome props.now (λ p. props_bytes p ≡ bytes)
        → ForSome result (λ reading. IsReadingOf reading bytes) }
{
    match props {
        Some(props) => Some(props.reading()),
        None => None,
    }
}

/// Reads a node that is kept.
fn read_kept(item: &Record<'_>, options: &Options) -> Content
    requires { IsTrue (is_kept_node options.now (record_item item.now)) }
    ensures { IsContent options.now (record_item item.now) result }
{
    let text = text_check(item);
    let props = properties_of(item);
    let mergeinfo = mergeinfo_of(&props, options);
    let said = mergeinfo.unwrap_or(Mergeinfo::none());
    Content {
        verdict: Verdict {
            props_ok: props.is_some(),
            md5_ok: text.md5_ok,
            sha1_ok: text.sha1_ok,
            merge_ok: mergeinfo.is_some(),
            checked: text.checked,
        },
        kept: true,
        lost_source: has_lost_source(item, options),
        props: reading_of(&props),
        has_mergeinfo: said.found,
        misses_source: said.said.misses_source(),
        numbers: said.said.numbers(),
    }
}

/// Reads a revision.
fn read_revision(item: &Record<'_>) -> Content
    requires { IsTrue (is_revision_record (record_item item.now)) }
    ensures { (settings : Settings) → IsFalse (is_kept_node settings (record_item item.now))
        → IsContent settings (record_item item.now) result }
{
    let props = properties_of(item);
    Content {
        verdict: Verdict {
            props_ok: props.is_some(),
            ..Verdict::UNASKED
        },
        props: reading_of(&props),
        ..Content::NOTHING
    }
}

/// The result for a record that is neither a revision nor a kept node.
fn read_nothing() -> Content
    ensures { (settings : Settings) (r : DumpRecord) → IsFalse (is_revision_record r) → IsFalse (is_kept_node settings r)
        → IsContent settings r result }
{
    Content::NOTHING
}

/// Reads a record under these options; each part is read once.
pub(crate) fn read_content(item: &Record<'_>, options: &Options) -> Content
    ensures { IsContent options.now (record_item item.now) result }
{
    if is_kept(item, options) {
        read_kept(item, options)
    } else if item.revision().is_some() {
        read_revision(item)
    } else {
        read_nothing()
    }
}
