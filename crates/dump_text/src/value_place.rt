//! Where the values of header lines are in the dump.
ghost use Rattle.std.specs.Prelude.{◌≡◌, ◌==◌, ◌∷◌, ◌++◌, ◌<◌, ◌≤◌, ℕ, List, Some, IsFalse, length, drop, option_copied};
ghost use Rattle.std.specs.List.{before_first};
ghost use Rattle.dump_text.specs.HeaderLine.{has_byte};
ghost use Rattle.dump_text.specs.steps.ValuePlaces.{is_there, value_at, span_text, IsSpanOf};

use crate::scan::first_line;

/// Where the value of a header line begins in its dump, if there is a value. The value ends with its line, so one
/// number is enough; this keeps the type small, since it is sent between threads.
#[derive(Clone, Copy)]
pub struct ValuePlace {
    /// The byte at which the value begins; 0 if there is none. A value never begins at 0, because a name is before it.
    byte: usize,
}

impl ValuePlace {
    /// The place of no value.
    const NONE: ValuePlace = ValuePlace { byte: 0 };

    /// Whether there is a value.
    pub fn is_there(self) -> bool
        ensures { result ≡ is_there self }
    {
        self.byte != 0
    }

    /// The value at this place of the dump.
    pub(crate) fn value_in(self, dump: &[u8]) -> Option<&[u8]>
        ensures { option_copied result ≡ value_at dump.now self }
    {
        if self.is_there() {
            Some(line_of(bytes_from(dump, self.byte)))
        } else {
            None
        }
    }
}

/// Where a value begins and ends in its dump, for blocks whose values are looked up more than once.
#[derive(Clone, Copy)]
pub(crate) struct ValueSpan {
    pub(crate) place: ValuePlace,
    /// The byte after the value.
    after: usize,
}

impl ValueSpan {
    /// The span of no value.
    pub(crate) const NONE: ValueSpan = ValueSpan {
        place: ValuePlace::NONE,
        after: 0,
    };

    /// The span of a value in a dump that ends with the value, an LF and the bytes of `behind`.
    pub(crate) fn before(dump: &[u8], value: &[u8], behind: &[u8]) -> ValueSpan
        requires line { IsFalse (has_byte 10 value.now) }
        requires stands { (front : List ℕ) × (0 < length front) × (dump.now ≡ front ++ (value.now ++ 10 ∷ behind.now)) }
        ensures { IsSpanOf dump.now result (Some value.now) }
    {
        let after = dump.len() - behind.len() - 1;
        let place = ValuePlace {
            byte: after - value.len(),
        };
        ValueSpan { place, after }
    }

    /// The value at this span of the dump.
    pub(crate) fn value_in(self, dump: &[u8]) -> Option<&[u8]>
        requires inside { (self.place.byte ≤ self.after) × (self.after ≤ length dump.now) }
        ensures { option_copied result ≡ span_text dump.now self }
    {
        if self.place.is_there() {
            Some(&dump[self.place.byte..self.after])
        } else {
            None
        }
    }
}

/// The bytes of a text from this byte on; empty if it has fewer.
fn bytes_from(text: &[u8], byte: usize) -> &[u8]
    ensures { result.now ≡ drop byte text.now }
{
    if byte < text.len() {
        &text[byte..]
    } else {
        &[]
    }
}

/// The bytes before the first LF, or all bytes if there is none.
fn line_of(text: &[u8]) -> &[u8]
    ensures { result.now ≡ before_first (λ b. b == 10) text.now }
{
    match first_line(text) {
        Some((line, _)) => line,
        None => text,
    }
}
