//! A record of a dump, as a view of the dump.
ghost use Rattle.std.specs.Prelude.{drop, ◌+◌, ◌<◌, ◌≤◌, ◌^◌};
ghost use Rattle.dump_text.specs.steps.Views.{block_dump, block_place, block_after, block_headers};
ghost use Rattle.dump_records.specs.RecordText.{BeginsWithRecord};
ghost use Rattle.dump_records.specs.steps.RecordPlaces.{record_between};
ghost use Rattle.dump_records.specs.steps.CutRecords.{IsRecordOf};
ghost use Rattle.dump_records.specs.steps.Standing.{AreInside};
ghost use Rattle.dump_records.specs.steps.HeaderReading.{are_written, IsHeaderOf};

use crate::header::RecordHeader;
use crate::kind::{KindParts, RecordKind};
use dump_text::{Block, HeaderName, number};

/// The parts of a record, in the order in which a record has them.
#[derive(Clone, Copy)]
pub enum RecordPart {
    /// Its header lines.
    Block,
    /// Its property block.
    Properties,
    /// Its text.
    Text,
}

/// A record of a dump, with its number, what its header lines say, and the format version in force for it. Each slice
/// that it returns is a part of the dump.
#[derive(Clone, Copy)]
pub struct Record<'a> {
    pub(crate) block: Block<'a>,
    pub(crate) number: u64,
    pub(crate) header: RecordHeader,
    pub(crate) text_from: usize,
    pub(crate) after: usize,
    pub ghost says: { IsHeaderOf (block_dump block) (block_headers block) header },
    pub ghost counted: { number + 1 < 2 ^ 64 },
    pub ghost inside: { AreInside (block_dump block) (block_after block) text_from after },
    pub ghost stands: { BeginsWithRecord number (drop (block_place block) (block_dump block))
        (record_between (block_dump block) (block_place block) (block_after block) text_from after header.version)
        (drop after (block_dump block)) },
    pub ghost numbered: { ∥ IsRecordOf (block_dump block) number
        (record_between (block_dump block) (block_place block) (block_after block) text_from after header.version) ∥₁ },
}

impl<'a> Record<'a> {
    ghost use Rattle.std.specs.Prelude.{◌≡◌, ◌==◌, ◌&&◌, ◌||◌, ◌++◌, List, [], None, if◌then◌else◌, IfSome, is_some, option_copied, slice_range, bytes_eq, unwrap_or, codes, drop};
    ghost use Rattle.std.specs.List.{starts_with};
    ghost use Rattle.dump_text.specs.Names.{path_name, revision_name, copy_path_name, copy_revision_name, property_length_name, text_length_name, content_length_name, node_kind_name, md5_name, sha1_name, text_delta_name, prop_delta_name};
    ghost use Rattle.dump_text.specs.HeaderLine.{has_header, header_value};
    ghost use Rattle.dump_text.specs.steps.KnownValues.{name_text};
    ghost use Rattle.dump_records.specs.HeaderRules.{header_number, says_true};
    ghost use Rattle.dump_records.specs.steps.KindReading.{is_copied_node};
    ghost use Rattle.dump_records.specs.steps.RecordKinds.{kind_of};
    ghost use Rattle.dump_records.specs.RecordText.{has_text_delta, has_prop_delta};
    ghost use Rattle.dump_records.specs.steps.RecordPlaces.{props_place, text_place, place_after};
    ghost use Rattle.dump_records.specs.steps.RecordRest.{bytes_from};
    ghost use Rattle.dump_records.specs.steps.RecordViews.{record_dump, record_number, record_item, part_with, part_of_node, IsInBlock};

    /// Its number in the dump, from 0.
    pub fn number(&self) -> u64
        ensures { result ≡ record_number self.now }
    {
        self.number
    }

    /// The byte of the dump at which its block begins.
    pub fn place(&self) -> usize
        ensures { result ≡ (record_item self.now).place }
    {
        self.block.place()
    }

    /// The place of the first byte after its text.
    pub fn after(&self) -> usize
        ensures { result ≡ place_after (record_item self.now) }
    {
        self.after
    }

    /// The format version in force for it: that of the last version record up to it, which may be this record.
    pub fn version(&self) -> u64
        ensures { result ≡ (record_item self.now).version }
    {
        u64::from(self.header.version)
    }

    /// The kind of record.
    pub fn kind(&self) -> RecordKind
        ensures { result ≡ kind_of (record_item self.now).headers }
    {
        match self.header.parts {
            KindParts::Version { .. } => RecordKind::Version,
            KindParts::Uuid => RecordKind::Uuid,
            KindParts::Revision { .. } => RecordKind::Revision,
            KindParts::Node { .. } | KindParts::Copy { .. } => RecordKind::Node,
        }
    }

    /// Whether it is a node.
    pub fn is_node(&self) -> bool
        ensures { result ≡ has_header path_name (record_item self.now).headers }
    {
        matches!(
            self.header.parts,
            KindParts::Node { .. } | KindParts::Copy { .. }
        )
    }

    /// Its header lines.
    pub fn block(&self) -> Block<'a>
        ensures dump { block_dump result ≡ record_dump self.now }
        ensures place { block_place result ≡ (record_item self.now).place }
        ensures after { block_after result ≡ props_place (record_item self.now) }
        ensures lines { block_headers result ≡ (record_item self.now).headers }
    {
        self.block
    }

    /// The path of a node.
    pub fn path(&self) -> Option<&'a [u8]>
        ensures value { option_copied result ≡ header_value path_name (record_item self.now).headers }
        ensures lent { IfSome result (λ path. IsInBlock self.now path.now) }
    {
        match self.header.parts {
            KindParts::Node { path } | KindParts::Copy { path } => self.block.value_at(path),
            _ => None,
        }
    }

    /// The value of the header of this name, if the record is a node with a copy source.
    fn of_copy(&self, name: HeaderName) -> Option<&'a [u8]>
        ensures value { option_copied result ≡ (if is_copied_node self.now.header.parts
            then header_value (name_text name) (record_item self.now).headers else None) }
        ensures lent { IfSome result (λ value. IsInBlock self.now value.now) }
    {
        match self.header.parts {
            KindParts::Copy { .. } => self.block.get(name.bytes()),
            _ => None,
        }
    }

    /// The path that a node is copied from.
    pub fn copy_path(&self) -> Option<&'a [u8]>
        ensures value { let r = record_item self.now in
            option_copied result ≡ part_of_node r (header_value copy_path_name r.headers) }
        ensures lent { IfSome result (λ path. IsInBlock self.now path.now) }
    {
        self.of_copy(HeaderName::NodeCopyfromPath)
    }

    /// The revision that a node is copied from.
    pub fn copy_revision(&self) -> Option<u64>
        ensures { let r = record_item self.now in
            result ≡ part_of_node r (header_number copy_revision_name r.headers) }
    {
        match self.of_copy(HeaderName::NodeCopyfromRev) {
            Some(digits) => number(digits),
            None => None,
        }
    }

    /// The number of a revision.
    pub fn revision(&self) -> Option<u64>
        ensures { result ≡ header_number revision_name (record_item self.now).headers }
    {
        match self.header.parts {
            KindParts::Revision { number } => Some(number),
            _ => None,
        }
    }

    /// Whether the value of its `Node-kind` is `file`.
    pub fn is_file(&self) -> bool
        ensures { result ≡ bytes_eq (unwrap_or (header_value node_kind_name (record_item self.now).headers) [])
            (codes "file") }
    {
        self.header.is_file
    }

    /// Whether its text is a delta: it is a node under version 3, and its `Text-delta` is `true`.
    pub fn text_delta(&self) -> bool
        ensures { result ≡ has_text_delta (record_item self.now) }
    {
        self.may_have_delta() && self.header.text_delta
    }

    /// Whether its property block is a delta: it is a node under version 3, and its `Prop-delta` is `true`.
    pub fn prop_delta(&self) -> bool
        ensures { result ≡ has_prop_delta (record_item self.now) }
    {
        self.may_have_delta() && self.header.prop_delta
    }

    /// Whether its `Text-delta` or its `Prop-delta` is `true`, in a record of any kind and under any version.
    pub fn says_delta(&self) -> bool
        ensures { let r = record_item self.now in
            result ≡ (says_true prop_delta_name r.headers || says_true text_delta_name r.headers) }
    {
        self.header.prop_delta || self.header.text_delta
    }

    /// Whether it is a node under version 3; only such a node may have deltas or delete properties.
    pub fn may_have_delta(&self) -> bool
        ensures { let r = record_item self.now in result ≡ (has_header path_name r.headers && r.version == 3) }
    {
        self.is_node() && self.header.version == 3
    }

    /// The value of `Text-content-md5`.
    pub fn md5(&self) -> Option<&'a [u8]>
        ensures value { option_copied result ≡ header_value md5_name (record_item self.now).headers }
        ensures lent { IfSome result (λ digest. IsInBlock self.now digest.now) }
    {
        self.block.value_at(self.header.md5)
    }

    /// The value of `Text-content-sha1`.
    pub fn sha1(&self) -> Option<&'a [u8]>
        ensures value { option_copied result ≡ header_value sha1_name (record_item self.now).headers }
        ensures lent { IfSome result (λ digest. IsInBlock self.now digest.now) }
    {
        self.block.value_at(self.header.sha1)
    }

    /// Whether it has a `Prop-content-length`.
    pub fn has_props(&self) -> bool
        ensures { result ≡ has_header property_length_name (record_item self.now).headers }
    {
        self.header.has_props
    }

    /// Whether it has a `Text-content-length`.
    pub fn has_text(&self) -> bool
        ensures { result ≡ has_header text_length_name (record_item self.now).headers }
    {
        self.header.has_text
    }

    /// Whether it has a `Content-length`.
    pub fn has_content(&self) -> bool
        ensures { result ≡ has_header content_length_name (record_item self.now).headers }
    {
        self.header.has_content
    }

    /// Whether the filter writes its block unchanged if it keeps the block's numbers and lengths: none of them has a
    /// leading zero, and there is a `Content-length` if there is content.
    pub fn is_written(&self) -> bool
        ensures { result ≡ are_written (record_item self.now).headers }
    {
        self.header.is_written
    }

    /// Its property block, if it has a length for it.
    pub fn props(&self) -> Option<&'a [u8]>
        ensures value { let r = record_item self.now in
            option_copied result ≡ part_with property_length_name r r.props }
        ensures lent { let r = record_item self.now in
            IfSome result (λ bytes. bytes.now ≡ slice_range (record_dump self.now) (props_place r) (text_place r)) }
    {
        if self.header.has_props {
            Some(&self.block.dump()[self.block.after()..self.text_from])
        } else {
            None
        }
    }

    /// Its text, if it has a length for it.
    pub fn text(&self) -> Option<&'a [u8]>
        ensures value { let r = record_item self.now in
            option_copied result ≡ part_with text_length_name r r.text }
        ensures lent { let r = record_item self.now in
            IfSome result (λ bytes. bytes.now ≡ slice_range (record_dump self.now) (text_place r) (place_after r)) }
    {
        if self.header.has_text {
            Some(&self.block.dump()[self.text_from..self.after])
        } else {
            None
        }
    }

    /// Its property block; empty if it has no length for one.
    pub fn property_bytes(&self) -> &'a [u8]
        ensures { result.now ≡ (record_item self.now).props }
    {
        &self.block.dump()[self.block.after()..self.text_from]
    }

    /// Its text; empty if it has no length for one.
    pub fn text_bytes(&self) -> &'a [u8]
        ensures { result.now ≡ (record_item self.now).text }
    {
        &self.block.dump()[self.text_from..self.after]
    }

    /// The byte of the dump at which a part begins.
    fn start_of(&self, part: RecordPart) -> usize
        ensures inside { result ≤ self.now.after }
        ensures rest { slice_range (record_dump self.now) result self.now.after ≡ bytes_from part (record_item self.now) }
    {
        match part {
            RecordPart::Block => self.block.place(),
            RecordPart::Properties => self.block.after(),
            RecordPart::Text => self.text_from,
        }
    }

    /// Its bytes from this part on.
    pub fn bytes_from(&self, part: RecordPart) -> &'a [u8]
        ensures { result.now ≡ bytes_from part (record_item self.now) }
    {
        &self.block.dump()[self.start_of(part)..self.after]
    }

    /// Its bytes from this part on, followed by the bytes of `end`; `None` if the dump doesn't have these after the
    /// record.
    pub fn bytes_from_with(&self, part: RecordPart, end: &[u8]) -> Option<&'a [u8]>
        ensures lent { IfSome result (λ bytes. bytes.now ≡ bytes_from part (record_item self.now) ++ end.now) }
        ensures there { let r = record_item self.now in
            is_some result ≡ starts_with ◌==◌ (drop (place_after r) (record_dump self.now)) end.now }
    {
        let dump = self.block.dump();
        if dump[self.after..].starts_with(end) {
            Some(&dump[self.start_of(part)..self.after + end.len()])
        } else {
            None
        }
    }
}
