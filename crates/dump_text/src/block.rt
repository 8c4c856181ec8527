//! A block of header lines in a dump.
ghost use Rattle.std.specs.Prelude.{◌≡◌, ◌↔◌, IfOk, IfErr, IfSome, IsOk, option_copied, drop, ◌-◌};
ghost use Rattle.dump_text.specs.HeaderLine.{header_value};
ghost use Rattle.dump_text.specs.HeaderBlock.{HasBlock, block_fault, block_text};
ghost use Rattle.dump_text.specs.steps.ReadHeaders.{IsBlockBetween, IsPartBetween};
ghost use Rattle.dump_text.specs.steps.ValuePlaces.{value_at};

use crate::fault::FaultKind;
use crate::headers::Headers;
use crate::lines::Lines;
use crate::value_place::ValuePlace;

/// A block of header lines in a dump.
#[derive(Clone, Copy)]
pub struct Block<'a> {
    pub(crate) dump: &'a [u8],
    pub(crate) place: usize,
    pub(crate) after: usize,
    pub ghost stands: { IsBlockBetween dump.now place after },
}

impl<'a> Block<'a> {
    ghost use Rattle.dump_text.specs.steps.Views.{block_dump, block_place, block_after, block_headers, lines_left, lines_text};

    /// Reads the block at a place of the dump. The error is `HeaderCut` if no empty line follows, also at the end of
    /// the dump or past it, and otherwise `Header`.
    pub fn cut(dump: &'a [u8], place: usize) -> Result<Block<'a>, FaultKind>
        ensures dump { IfOk result (λ b. block_dump b ≡ dump.now) }
        ensures place { IfOk result (λ b. block_place b ≡ place) }
        ensures found { IsOk result ↔ HasBlock (drop place dump.now) }
        ensures fault { IfErr result (λ kind. kind ≡ block_fault (drop place dump.now)) }
    {
        Ok(Headers::read(dump, place)?.block())
    }

    /// The dump that contains the block.
    pub fn dump(&self) -> &'a [u8]
        ensures { result.now ≡ block_dump self.now }
    {
        self.dump
    }

    /// The byte at which the block begins.
    pub fn place(&self) -> usize
        ensures { result ≡ block_place self.now }
    {
        self.place
    }

    /// The bytes of the block as they are in the dump: its lines and its empty line.
    pub fn bytes(&self) -> &'a [u8]
        ensures { result.now ≡ block_text (block_headers self.now) }
    {
        &self.dump[self.place..self.after]
    }

    /// The value of the first line with this name.
    pub fn get(&self, name: &[u8]) -> Option<&'a [u8]>
        ensures value { option_copied result ≡ header_value name.now (block_headers self.now) }
        ensures lent { IfSome result (λ value.
            IsPartBetween (block_dump self.now) (block_place self.now) (block_after self.now) value.now) }
    {
        let mut lines = self.lines();
        while let Some(line) = lines.next() {
            if line.name == name {
                return Some(line.value);
            }
        }
        None
    }

    /// The value at a place of the dump.
    pub fn value_at(&self, place: ValuePlace) -> Option<&'a [u8]>
        ensures { option_copied result ≡ value_at (block_dump self.now) place }
    {
        place.value_in(self.dump)
    }

    /// The block's lines, in their order.
    pub fn lines(&self) -> Lines<'a>
        ensures lines { lines_left result ≡ block_headers self.now }
        ensures lent { IsPartBetween (block_dump self.now) (block_place self.now) (block_after self.now)
            (lines_text result) }
    {
        Lines {
            rest: &self.dump[self.place..self.after - 1],
        }
    }

    /// The place of the first byte after the block's empty line.
    pub fn after(&self) -> usize
        ensures { result ≡ block_after self.now }
    {
        self.after
    }
}
