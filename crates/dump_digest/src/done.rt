//! A record that was checked.
ghost use Rattle.dump_records.specs.steps.RecordViews.{record_item};
ghost use Rattle.dump_digest.specs.steps.ContentViews.{IsContent};

use crate::content::{Content, read_content};
use crate::verdict::Verdict;
use dump_records::Record;
use dump_rules::Options;
use dump_text::{FaultKind, Props};
use std::snapshot::Snapshot;

/// A record with its verdict and with what the check read. The filter needn't read the properties again for what the
/// check has found. The options under which it was checked are only in its type.
#[derive(Drop)]
pub struct Done<'a> {
    item: Record<'a>,
    options: Snapshot<Options>,
    content: Content,
    pub ghost judged: { IsContent options.value (record_item item) content },
}

impl<'a> Done<'a> {
    ghost use Rattle.std.specs.Prelude.{◌≡◌, ◌&&◌, List, IfSome, IsTrue, is_some};
    ghost use Rattle.std.specs.List.{list_any};
    ghost use Rattle.dump_text.specs.PropertyList.{Property};
    ghost use Rattle.dump_text.specs.steps.PropertyViews.{props_bytes};
    ghost use Rattle.dump_digest.specs.steps.ContentViews.{is_asked, ArePropertiesOf};
    ghost use Rattle.dump_digest.specs.steps.DoneViews.{done_record, done_settings, done_verdict};
    ghost use Rattle.dump_digest.specs.steps.MergeFaults.{merge_fault};
    ghost use Rattle.dump_digest.specs.RecordParts.{HasPropertyList, has_lost_source, is_kept_node, is_mergeinfo};
    ghost use Rattle.dump_digest.specs.steps.VerdictMeaning.{IsVerdict};

    /// The record, checked under these options.
    pub fn of(item: Record<'a>, options: &'a Options) -> Done<'a>
        ensures item { done_record result ≡ item.entry }
        ensures options { done_settings result ≡ options.now }
    {
        Done {
            item,
            options: Snapshot::of(options),
            content: read_content(&item, options),
        }
    }

    /// The record.
    pub fn item(&self) -> Record<'a>
        ensures { result ≡ done_record self.now }
    {
        self.item
    }

    /// What its check found.
    pub fn verdict(&self) -> Verdict
        ensures value { result ≡ done_verdict self.now }
        ensures judged { IsVerdict (done_settings self.now) (record_item (done_record self.now)) result }
    {
        self.content.verdict
    }

    /// Whether it is a node that the options keep.
    pub fn is_kept(&self) -> bool
        ensures { result ≡ is_kept_node (done_settings self.now) (record_item (done_record self.now)) }
    {
        self.content.kept
    }

    /// The properties of a revision or of a kept node, if they are a property block.
    pub fn props(&self) -> Option<Props<'a>>
        ensures found { is_some result
            ≡ (is_asked (done_settings self.now) (record_item (done_record self.now)) && (done_verdict self.now).props_ok) }
        ensures bytes { IfSome result (λ props. props_bytes props ≡ (record_item (done_record self.now)).props) }
        ensures read { let r = record_item (done_record self.now) in
            IsTrue (is_asked (done_settings self.now) r) → ArePropertiesOf r result }
    {
        match self.content.props {
            Some(reading) => Some(Props::of_reading(self.item.property_bytes(), reading)),
            None => None,
        }
    }

    /// Whether a kept node has mergeinfo; its verdict says whether all of it can be read.
    pub fn has_mergeinfo(&self) -> bool
        ensures { let r = record_item (done_record self.now) in IsTrue (is_kept_node (done_settings self.now) r)
            → IsTrue (done_verdict self.now).merge_ok → (ps : List Property) → HasPropertyList r ps
            → result ≡ list_any is_mergeinfo ps }
    {
        self.content.has_mergeinfo
    }

    /// The fault of a kept node's mergeinfo. `first` is the number of the dump's first revision, and `present` that of
    /// the present one. `options` are those under which the record was checked.
    pub fn merge_fault(&self, options: &Options, first: u64, present: u64) -> Option<FaultKind>
        requires { options.now ≡ done_settings self.now }
        ensures { let r = record_item (done_record self.now) in IsTrue (is_kept_node (done_settings self.now) r)
            → (ps : List Property) → HasPropertyList r ps
            → result ≡ merge_fault (done_settings self.now) first present (done_verdict self.now).merge_ok ps }
    {
        let content = &self.content;
        if !content.verdict.merge_ok {
            Some(FaultKind::MergeInfo)
        } else if content.misses_source {
            Some(FaultKind::MergeSource)
        } else if content.numbers.has_foreign_number(options, first, present) {
            Some(FaultKind::MergeRange)
        } else {
            None
        }
    }

    /// Whether a kept node is copied from a path that isn't kept.
    pub fn has_lost_source(&self) -> bool
        ensures { let r = record_item (done_record self.now) in IsTrue (is_kept_node (done_settings self.now) r)
            → result ≡ has_lost_source (done_settings self.now) r }
    {
        self.content.lost_source
    }
}
