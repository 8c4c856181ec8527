//! The property blocks of a dump's records.
ghost use Rattle.std.specs.Prelude.{◌≡◌, List, IfOk, option_copied, slice_get};
ghost use Rattle.dump_records.specs.RecordText.{DumpRecord};
ghost use Rattle.dump_records.specs.DumpText.{Ending, HasRecords};
ghost use Rattle.dump_changes.specs.steps.NodeProperties.{property_blocks};

use dump_records::{Cut, Cutter};
use dump_rules::Memory;
use std::alloc::Global;
use std::marker::Model;

/// The property blocks of a dump's records; the index is the number of the record. A record without properties has an
/// empty one.
///
/// Each block is a slice of the dump: no bytes are copied.
#[derive(Drop)]
pub struct PropertyTable<'a> {
    blocks: Vec<&'a [u8]>,
}

impl<'a> Model for PropertyTable<'a> {
    ghost use Rattle.std.specs.Prelude.{ℕ, List, map};

    ghost Value = { List (List ℕ) };

    ghost view = { λ table. map (λ block. block.now) table.blocks.items };
}

impl<'a> PropertyTable<'a> {
    /// The blocks of the records of a dump. If the dump has a fault, those of the records before the fault.
    pub fn of(alloc: Global, dump: &'a [u8]) -> Result<PropertyTable<'a>, Memory>
        ensures { IfOk result (λ table. (records : List DumpRecord) (ending : Ending) → HasRecords dump.now records ending
            → table ≡ property_blocks records) }
    {
        let mut cutter = Cutter::new(dump);
        let mut blocks = Vec::new(alloc);
        while let Cut::Item(item) = cutter.next() {
            blocks.push(item.property_bytes())?;
        }
        Ok(PropertyTable { blocks })
    }

    /// The block of the record with this number.
    pub fn block(&self, number: u64) -> Option<&'a [u8]>
        ensures { option_copied result ≡ slice_get self.now number }
    {
        self.blocks.get(number as usize).copied()
    }
}
