//! A block of header lines with the values of its known names, found in one pass over the lines.
ghost use Rattle.std.specs.Prelude.{◌≡◌, ◌++◌, ℕ, List, [], ◌∷◌, Some, IsTrue, MatchOption, take, drop};
ghost use Rattle.dump_text.specs.HeaderLine.{Header};
ghost use Rattle.dump_text.specs.HeaderBlock.{HasBlock, block_fault};
ghost use Rattle.dump_text.specs.steps.ReadHeaders.{headers_of};
ghost use Rattle.dump_text.specs.steps.Scanning.{IsBlockEnd};
ghost use Rattle.dump_text.specs.steps.KnownValues.{AreValues, may_follow};
ghost use Rattle.dump_text.specs.steps.ValuePlaces.{value_at, IsSpanOf};
ghost use Rattle.dump_text.specs.steps.Views.{block_dump, block_headers};

use crate::block::Block;
use crate::fault::FaultKind;
use crate::names::{COUNT, HeaderName};
use crate::scan::{begins_with_lf, finds_empty_line, first_line, name_and_value};
use crate::value_place::{ValuePlace, ValueSpan};

/// The span of each known name's value; the index is the name's number in `HeaderName`.
type Spans = [ValueSpan; COUNT];

/// A block of header lines in a dump, with the places of the values of its known names.
#[derive(Drop)]
pub struct Headers<'a> {
    block: Block<'a>,
    spans: Spans,
    pub ghost known: { AreValues (block_dump block) (block_headers block) spans },
}

impl<'a> Headers<'a> {
    ghost use Rattle.std.specs.Prelude.{◌↔◌, IfOk, IfErr, IsOk, IfSome, option_copied};
    ghost use Rattle.dump_text.specs.steps.KnownValues.{name_text};
    ghost use Rattle.dump_text.specs.HeaderLine.{header_value, has_header};
    ghost use Rattle.dump_text.specs.steps.ReadHeaders.{IsPartBetween};
    ghost use Rattle.dump_text.specs.steps.Views.{block_place, block_after};
    ghost use Rattle.dump_text.specs.steps.HeadersViews.{headers_block};

    /// Reads the block at a place of the dump, with its values. The error is `HeaderCut` if no empty line follows,
    /// also at the end of the dump or past it, and otherwise `Header`.
    pub fn read(dump: &'a [u8], place: usize) -> Result<Headers<'a>, FaultKind>
        ensures dump { IfOk result (λ h. block_dump (headers_block h) ≡ dump.now) }
        ensures place { IfOk result (λ h. block_place (headers_block h) ≡ place) }
        ensures found { IsOk result ↔ HasBlock (drop place dump.now) }
        ensures fault { IfErr result (λ kind. kind ≡ block_fault (drop place dump.now)) }
    {
        if place >= dump.len() {
            return Err(FaultKind::HeaderCut);
        }
        let text = &dump[place..];
        let Some(found) = block_at(dump, text) else {
            return Err(fault_of(text));
        };
        let spans = found.1;
        let block = Block {
            dump,
            place,
            after: place + found.0,
        };
        Ok(Headers { block, spans })
    }

    /// The block.
    pub fn block(&self) -> Block<'a>
        ensures { result ≡ headers_block self.now }
    {
        self.block
    }

    /// The value of the line with this name.
    pub fn value(&self, name: HeaderName) -> Option<&'a [u8]>
        ensures value { option_copied result ≡ header_value (name_text name) (block_headers (headers_block self.now)) }
        ensures lent { let block = headers_block self.now in IfSome result (λ value.
            IsPartBetween (block_dump block) (block_place block) (block_after block) value.now) }
    {
        self.spans[name as usize].value_in(self.block.dump)
    }

    /// Where the value of the line with this name is in the dump.
    pub fn place_of(&self, name: HeaderName) -> ValuePlace
        ensures { let block = headers_block self.now in
            value_at (block_dump block) result ≡ header_value (name_text name) (block_headers block) }
    {
        self.spans[name as usize].place
    }

    /// Whether a line has this name.
    pub fn has(&self, name: HeaderName) -> bool
        ensures { result ≡ has_header (name_text name) (block_headers (headers_block self.now)) }
    {
        self.place_of(name).is_there()
    }
}

/// The fault of a text that begins with no block.
fn fault_of(text: &[u8]) -> FaultKind
    ensures { result ≡ block_fault text.now }
{
    if begins_with_lf(text) || finds_empty_line(text) {
        FaultKind::Header
    } else {
        FaultKind::HeaderCut
    }
}

/// The length of the block at the front of `text`, and where the values of its known names are in the dump. The text
/// is the end of the dump. `None` if the text begins with no block.
fn block_at(dump: &[u8], text: &[u8]) -> Option<(usize, Spans)>
    requires { (front : List ℕ) × (dump.now ≡ front ++ text.now) }
    ensures { MatchOption result (¬ HasBlock text.now)
        (λ found. IsBlockEnd text.now found.0 × AreValues dump.now (headers_of (take found.0 text.now)) found.1) }
{
    let mut spans = [ValueSpan::NONE; COUNT];
    let mut rest = text;
    while let Some((whole, others)) = first_line(rest) {
        if whole.is_empty() {
            let size = text.len() - rest.len();
            return if size > 0 {
                Some((size + 1, spans))
            } else {
                None
            };
        }
        let Some((name, value)) = name_and_value(whole) else {
            return None;
        };
        if !note(&mut spans, name, ValueSpan::before(dump, value, others)) {
            return None;
        }
        rest = others;
    }
    None
}

/// Stores where the value of the next line is, if the line's name is known. Returns false if an earlier line has the
/// same known name.
fn note(spans: &mut Spans, name: &[u8], value: ValueSpan) -> bool
    ensures follows { (dump : List ℕ) (headers : List Header) → AreValues dump headers spans.old
        → result ≡ may_follow headers name.now }
    ensures noted { (dump : List ℕ) (headers : List Header) (text : List ℕ) → AreValues dump headers spans.old
        → IsSpanOf dump value (Some text) → IsTrue result
        → AreValues dump (headers ++ record { name = name.now; value = text } ∷ []) spans.new }
{
    let Some(known) = HeaderName::of(name) else {
        return true;
    };
    let slot = known as usize;
    if spans[slot].place.is_there() {
        return false;
    }
    spans[slot] = value;
    true
}
