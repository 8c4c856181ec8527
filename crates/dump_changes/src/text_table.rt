//! The texts of a dump's records.
ghost use Rattle.std.specs.Prelude.{◌≡◌, List, IfOk, option_map, slice_get};
ghost use Rattle.dump_records.specs.RecordText.{DumpRecord};
ghost use Rattle.dump_records.specs.DumpText.{Ending, HasRecords};
ghost use Rattle.dump_records.specs.steps.RecordViews.{record_item};
ghost use Rattle.dump_changes.specs.steps.FileTexts.{record_texts, told_text};
ghost use Rattle.dump_changes.specs.steps.NodeTexts.{told_of};

use crate::node_text::NodeText;
use dump_records::{Cut, Cutter, Record};
use dump_rules::Memory;
use std::alloc::Global;
use std::marker::Model;

/// The texts of a dump's records, with their digests; the index is the number of the record. A record without a text
/// has an empty one.
///
/// Each text is a slice of the dump: no bytes are copied.
#[derive(Drop)]
pub struct TextTable<'a> {
    texts: Vec<NodeText<'a>>,
}

impl<'a> Model for TextTable<'a> {
    ghost use Rattle.std.specs.Prelude.{List, map};
    ghost use Rattle.dump_changes.specs.steps.FileTexts.{ToldText};
    ghost use Rattle.dump_changes.specs.steps.NodeTexts.{told_of};

    ghost Value = { List ToldText };

    ghost view = { λ table. map told_of table.texts.items };
}

/// The text of a record, with the digests that its lines give.
fn text_of<'a>(item: &Record<'a>) -> NodeText<'a>
    ensures { told_of result ≡ told_text (record_item item.now) }
{
    NodeText {
        text: item.text_bytes(),
        md5: item.md5(),
        sha1: item.sha1(),
    }
}

impl<'a> TextTable<'a> {
    /// The texts of the records of a dump. If the dump has a fault, those of the records before the fault.
    pub fn of(alloc: Global, dump: &'a [u8]) -> Result<TextTable<'a>, Memory>
        ensures { IfOk result (λ table. (records : List DumpRecord) (ending : Ending) → HasRecords dump.now records ending
            → table ≡ record_texts records) }
    {
        let mut cutter = Cutter::new(dump);
        let mut texts = Vec::new(alloc);
        while let Cut::Item(item) = cutter.next() {
            texts.push(text_of(&item))?;
        }
        Ok(TextTable { texts })
    }

    /// The text of the record with this number.
    pub fn text(&self, number: u64) -> Option<NodeText<'a>>
        ensures { option_map told_of result ≡ slice_get self.now number }
    {
        self.texts.get(number as usize).copied()
    }
}
