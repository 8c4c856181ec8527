//! The faults of a kept node: what the filter rejects in the node's copy source and in its mergeinfo.
ghost use Rattle.std.specs.Prelude.{◌≡◌, IsTrue, List};
ghost use Rattle.dump_text.specs.PropertyList.{IsPropertyBlock, Property};
ghost use Rattle.dump_text.specs.steps.PropertyViews.{entry_property, props_bytes};
ghost use Rattle.dump_records.specs.steps.RecordViews.{record_item};
ghost use Rattle.dump_digest.specs.RecordParts.{is_node};
ghost use Rattle.dump_digest.specs.steps.ContentViews.{ArePropertiesOf};
ghost use Rattle.dump_filter.specs.NewHeaders.{stays_copy};
ghost use Rattle.dump_history.specs.Findings.{has_kept_path};
ghost use Rattle.dump_history.specs.steps.NodeReading.{copy_faults, faults_read, property_faults};
ghost use Rattle.dump_survey.specs.steps.Found.{AreFaultsBy, node_faults};
ghost use Rattle.dump_survey.specs.steps.RevisionNumbers.{misses_revision};

use crate::findings::revision_numbers::Numbers;
use dump_digest::is_mergeinfo;
use dump_nodes::{copy_path_of, is_copy, is_whole_file};
use dump_records::Record;
use dump_rules::{Merged, Options, keeps};
use dump_text::{Entry, Props};

/// What the filter rejects in a node.
#[derive(Clone, Copy, Debug, PartialEq, Eq)]
pub(crate) struct Refused {
    /// The revision that the node is copied from has no new number.
    pub(crate) copy_revision: bool,
    /// A value of the node's mergeinfo can't be read.
    pub(crate) unread: bool,
    /// A line of mergeinfo names a path that isn't kept, and the filter doesn't omit such lines.
    pub(crate) missing: bool,
    /// A line of mergeinfo names a revision outside of the dump.
    pub(crate) outside: bool,
}

impl Refused {
    /// The filter rejects nothing.
    pub(crate) const NONE: Refused = Refused {
        copy_revision: false,
        unread: false,
        missing: false,
        outside: false,
    };
}

/// What the filter rejects in one property of a kept node.
fn entry_refused(entry: &Entry<'_>, options: &Options, numbers: &Numbers) -> Refused
    ensures { node_faults result
        ≡ property_faults options.now numbers.now.first numbers.now.present (entry_property entry.now) }
{
    if !is_mergeinfo(entry) {
        return Refused::NONE;
    }
    match Merged::new().with(entry.value, options) {
        None => Refused {
            unread: true,
            ..Refused::NONE
        },
        Some(said) => Refused {
            missing: said.misses_source(),
            outside: said.has_foreign_number(options, numbers.first, numbers.present),
            ..Refused::NONE
        },
    }
}

/// What the filter rejects in the properties of a kept node; `copy` says whether it rejects the node's copy source. A
/// name may occur more than once.
fn refused_in(props: &Props<'_>, options: &Options, numbers: &Numbers, copy: bool) -> Refused
    ensures { (ps : List Property) → IsPropertyBlock (props_bytes props.now) ps
        → node_faults result ≡ faults_read options.now copy numbers.now.first numbers.now.present ps }
{
    let mut unread = false;
    let mut missing = false;
    let mut outside = false;
    let mut entries = props.entries();
    while let Some(entry) = entries.next() {
        let refused = entry_refused(&entry, options, numbers);
        unread |= refused.unread;
        missing |= refused.missing;
        outside |= refused.outside;
    }
    Refused {
        copy_revision: copy,
        unread,
        missing,
        outside,
    }
}

/// Whether the filter writes a kept node as a copy.
fn stays_copy(item: &Record<'_>, options: &Options) -> bool
    requires node { IsTrue (is_node (record_item item.now)) }
    ensures { result ≡ stays_copy options.now (record_item item.now) }
{
    is_copy(item) && (keeps(options, copy_path_of(item)) || !is_whole_file(item))
}

/// Whether the revision that a kept node is copied from has no new number.
fn misses_revision(item: &Record<'_>, options: &Options, numbers: &Numbers) -> bool
    requires node { IsTrue (is_node (record_item item.now)) }
    requires kept { IsTrue (has_kept_path options.now (record_item item.now)) }
    ensures { result ≡ misses_revision options.now numbers.now (record_item item.now) }
{
    let Some(number) = item.copy_revision() else {
        return false;
    };
    options.renumber() && stays_copy(item, options) && numbers.is_missing(number)
}

/// What the filter rejects in a kept node with these properties; they are `None` if they are no property block.
pub(crate) fn refused_of(
    item: &Record<'_>,
    props: &Option<Props<'_>>,
    options: &Options,
    numbers: &Numbers,
) -> Refused
    requires node { IsTrue (is_node (record_item item.now)) }
    requires kept { IsTrue (has_kept_path options.now (record_item item.now)) }
    requires props { ArePropertiesOf (record_item item.now) props.now }
    ensures { AreFaultsBy options.now numbers.now (record_item item.now) (node_faults result) }
{
    let copy = misses_revision(item, options, numbers);
    match props {
        Some(props) => refused_in(props, options, numbers, copy),
        None => Refused {
            copy_revision: copy,
            ..Refused::NONE
        },
    }
}
