//! Reads the entries of a property block: a part of an entry, and a whole entry.
ghost use Rattle.std.specs.Prelude.{◌≡◌, MatchOption};
ghost use Rattle.dump_text.specs.steps.PropertyScan.{IsLetter, HasLetter, HasSized, IsPartOf, HasEntry, IsEntryOf, is_shortest};

use crate::numbers::{number, spell};
use crate::props::Entry;
use crate::scan::first_line;

/// A part of an entry: the digits of its length, its bytes, and the text after it.
#[derive(Clone, Copy)]
pub(crate) struct Part<'a> {
    pub(crate) digits: &'a [u8],
    pub(crate) bytes: &'a [u8],
    pub(crate) rest: &'a [u8],
}

/// The parts of an entry.
#[derive(Clone, Copy)]
pub(crate) enum Parts<'a> {
    Set { name: Part<'a>, value: Part<'a> },
    Deleted { name: Part<'a> },
}

impl<'a> Parts<'a> {
    ghost use Rattle.dump_text.specs.steps.PropertyScan.{parts_property, parts_rest, are_shortest};
    ghost use Rattle.dump_text.specs.steps.PropertyViews.{entry_property};

    /// The property of this entry, or its deletion.
    pub(crate) fn entry(&self) -> Entry<'a>
        ensures { entry_property result ≡ parts_property self.now }
    {
        match *self {
            Parts::Set { name, value } => Entry {
                name: name.bytes,
                value: value.bytes,
                gone: false,
            },
            Parts::Deleted { name } => Entry {
                name: name.bytes,
                value: &[],
                gone: true,
            },
        }
    }

    /// The text after the entry.
    pub(crate) fn rest(&self) -> &'a [u8]
        ensures { result.now ≡ parts_rest self.now }
    {
        match *self {
            Parts::Set { value, .. } => value.rest,
            Parts::Deleted { name } => name.rest,
        }
    }

    /// Whether no length has leading zeros.
    pub(crate) fn are_shortest(&self) -> bool
        ensures { result ≡ are_shortest self.now }
    {
        match self {
            Parts::Set { name, value } => is_shortest(name) && is_shortest(value),
            Parts::Deleted { name } => is_shortest(name),
        }
    }
}

/// The text after the letter and the space that it begins with.
fn behind_letter(letter: u8, text: &[u8]) -> Option<&[u8]>
    ensures { MatchOption result (¬ HasLetter letter text.now) (λ behind. IsLetter letter text.now behind.now) }
{
    if text.len() < 2 || text[0] != letter || text[1] != b' ' {
        return None;
    }
    Some(&text[2..])
}

/// Reads the part that begins with this letter at the front of a text.
fn sized_part(letter: u8, text: &[u8]) -> Option<Part<'_>>
    ensures { MatchOption result (¬ HasSized letter text.now) (λ part. IsPartOf letter text.now part) }
{
    let Some(sized) = behind_letter(letter, text) else {
        return None;
    };
    let Some((digits, behind)) = first_line(sized) else {
        return None;
    };
    let Some(size) = number(digits) else {
        return None;
    };
    let size = size as usize;
    if size >= behind.len() || behind[size] != b'\n' {
        return None;
    }
    Some(Part {
        digits,
        bytes: &behind[..size],
        rest: &behind[size + 1..],
    })
}

/// Reads the entry at the front of a text.
pub(crate) fn entry(text: &[u8]) -> Option<Parts<'_>>
    ensures { MatchOption result (¬ HasEntry text.now) (λ parts. IsEntryOf text.now parts) }
{
    let Some(name) = sized_part(b'K', text) else {
        let Some(name) = sized_part(b'D', text) else {
            return None;
        };
        return Some(Parts::Deleted { name });
    };
    let Some(value) = sized_part(b'V', name.rest) else {
        return None;
    };
    Some(Parts::Set { name, value })
}

/// Whether the part's length has no leading zeros.
fn is_shortest(part: &Part<'_>) -> bool
    ensures { result ≡ is_shortest part.now }
{
    part.digits == spell(part.bytes.len() as u64).bytes()
}
