//! A property block, read in place.
ghost use Rattle.std.specs.Prelude.{◌≡◌, ◌↔◌, List, [], length, bytes_eq, IsTrue, IsSome, IfSome, MatchOption, option_copied};
ghost use Rattle.dump_text.specs.PropertyList.{Property, IsPropertyBlock, has_deletes, property_block_text};
ghost use Rattle.dump_text.specs.steps.PropertyReading.{HasProperties, HasPropertyChanges, property_value};
ghost use Rattle.dump_text.specs.steps.PropertyScan.{HasEntries};
ghost use Rattle.dump_text.specs.steps.ScannedEntries.{IsScanOf};
ghost use Rattle.dump_text.specs.steps.ReadHeaders.{IsPartBetween};

use crate::parts::entry;

/// The line that ends a property block.
pub(crate) const BLOCK_END: &[u8] = b"PROPS-END\n";

/// What a scan of the entries of a property block finds.
#[derive(Clone, Copy)]
struct Scan {
    /// Whether the filter would write the same bytes for the entries and their end.
    spelled: bool,
    /// Whether an entry deletes a property.
    deletes: bool,
}

/// A property block.
#[derive(Clone, Copy)]
pub struct Props<'a> {
    bytes: &'a [u8],
    /// Whether the filter would write the same bytes.
    spelled: bool,
    /// Whether an entry deletes a property.
    deletes: bool,
    pub ghost reads: { ∥ HasPropertyChanges bytes.now ∥₁ },
    pub ghost written: { (ps : List Property) → IsPropertyBlock bytes.now ps
        → spelled ≡ bytes_eq bytes.now (property_block_text ps) },
    pub ghost deleting: { (ps : List Property) → IsPropertyBlock bytes.now ps → deletes ≡ has_deletes ps },
}

/// What [`Props`] has found in a property block, without the block's bytes.
#[derive(Clone, Copy)]
pub struct PropsReading {
    /// Whether the filter would write the same bytes.
    spelled: bool,
    /// Whether an entry deletes a property.
    deletes: bool,
}

impl<'a> Props<'a> {
    ghost use Rattle.dump_text.specs.steps.PropertyViews.{props_bytes, entries_text, HasEntriesLeft, IsReadingOf};

    /// Makes the [`Props`] again from the bytes and from what was found in them.
    pub fn of_reading(bytes: &'a [u8], reading: PropsReading) -> Props<'a>
        requires { IsReadingOf reading bytes.now }
        ensures { props_bytes result ≡ bytes.now }
    {
        Props {
            bytes,
            spelled: reading.spelled,
            deletes: reading.deletes,
        }
    }

    /// What was found in the block, for a caller that keeps the bytes itself.
    pub fn reading(&self) -> PropsReading
        ensures { IsReadingOf result (props_bytes self.now) }
    {
        PropsReading {
            spelled: self.spelled,
            deletes: self.deletes,
        }
    }

    /// Reads the whole slice as a property block in which no entry deletes a property. An empty slice is the empty
    /// list.
    pub fn read(block: &'a [u8]) -> Option<Props<'a>>
        ensures found { IsSome result ↔ HasProperties block.now }
        ensures bytes { IfSome result (λ props. props_bytes props ≡ block.now) }
    {
        let props = Props::read_with_deletes(block)?;
        if props.deletes { None } else { Some(props) }
    }

    /// Does the same, but entries may delete properties, as in a node under format version 3.
    pub fn read_with_deletes(block: &'a [u8]) -> Option<Props<'a>>
        ensures found { IsSome result ↔ HasPropertyChanges block.now }
        ensures bytes { IfSome result (λ props. props_bytes props ≡ block.now) }
    {
        let scan = if block.is_empty() {
            Scan {
                spelled: false,
                deletes: false,
            }
        } else {
            read_entries(block)?
        };
        Some(Props {
            bytes: block,
            spelled: scan.spelled,
            deletes: scan.deletes,
        })
    }

    /// The bytes of the block as they are in the dump.
    pub fn bytes(&self) -> &'a [u8]
        ensures { result.now ≡ props_bytes self.now }
    {
        self.bytes
    }

    /// The properties in their order, with the deleted ones.
    pub fn entries(&self) -> Entries<'a>
        ensures properties { (ps : List Property) → IsPropertyBlock (props_bytes self.now) ps → HasEntriesLeft result ps }
        ensures lent { entries_text result ≡ props_bytes self.now }
    {
        Entries { rest: self.bytes }
    }

    /// The value of the first property of this name that isn't deleted.
    pub fn get(&self, name: &[u8]) -> Option<&'a [u8]>
        ensures value { (ps : List Property) → IsPropertyBlock (props_bytes self.now) ps
            → option_copied result ≡ property_value name.now ps }
        ensures lent { let bytes = props_bytes self.now in
            IfSome result (λ value. IsPartBetween bytes 0 (length bytes) value.now) }
    {
        let mut entries = self.entries();
        while let Some(entry) = entries.next() {
            if !entry.gone && entry.name == name {
                return Some(entry.value);
            }
        }
        None
    }

    /// Whether the filter would write the same bytes: no length has a leading zero, and an empty list has its end
    /// line.
    pub fn spelled(&self) -> bool
        ensures { IsTrue result ↔ ((ps : List Property) × (props_bytes self.now ≡ property_block_text ps)) }
    {
        self.spelled
    }
}

/// A property: its name and its value, each a part of the block.
#[derive(Clone, Copy)]
pub struct Entry<'a> {
    pub name: &'a [u8],
    /// Empty if the property is deleted.
    pub value: &'a [u8],
    /// Whether the property is deleted.
    pub gone: bool,
    pub ghost empty: { IsTrue gone → value.now ≡ [] },
}

/// The properties of a block, in their order.
#[derive(Drop)]
pub struct Entries<'a> {
    rest: &'a [u8],
    pub ghost reads: { ∥ HasPropertyChanges rest.now ∥₁ },
}

impl<'a> Iterator for Entries<'a> {
    ghost use Rattle.std.specs.Iterator.{item_count};
    ghost use Rattle.dump_text.specs.steps.PropertyViews.{EntryStep, entries_text};

    type Item = Entry<'a>;

    ghost next_gives = { EntryStep };

    ghost remaining = { item_count entries_text };

    fn next(&mut self) -> Option<Entry<'a>> {
        let Some(parts) = entry(self.rest) else {
            return None;
        };
        self.rest = parts.rest();
        Some(parts.entry())
    }
}

/// Reads a text that is entries and their end line, and returns what they are like; `None` for any other text.
fn read_entries(text: &[u8]) -> Option<Scan>
    ensures { MatchOption result (¬ HasEntries text.now) (λ scan. IsScanOf text.now scan) }
{
    let mut rest = text;
    let mut spelled = true;
    let mut deletes = false;
    while let Some(parts) = entry(rest) {
        spelled &= parts.are_shortest();
        deletes |= parts.entry().gone;
        rest = parts.rest();
    }
    if rest == BLOCK_END {
        Some(Scan { spelled, deletes })
    } else {
        None
    }
}
