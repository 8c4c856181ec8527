//! The bytes of a text while it is made.
ghost use Rattle.std.specs.Prelude.{◌≡◌, IfOk, Some, map};

use std::alloc::Global;
use svndiff::{NotApplied, apply};

/// The bytes of a text.
#[derive(Drop)]
pub(crate) enum TextBytes<'a> {
    /// A part of the dump.
    Lent(&'a [u8]),
    /// Made by a delta.
    Made(Vec<u8>),
}

impl<'a> TextBytes<'a> {
    ghost use Rattle.dump_changes.specs.steps.DeltaTexts.{text_of_parts};
    ghost use Rattle.dump_changes.specs.steps.TextBytes.{bytes_of};

    /// What deltas make of a text, one after the other.
    pub(crate) fn patched(
        alloc: Global,
        base: &'a [u8],
        deltas: &[&'a [u8]],
    ) -> Result<TextBytes<'a>, NotApplied>
        ensures { IfOk result (λ text. text_of_parts base.now deltas.now ≡ Some (bytes_of text)) }
    {
        let mut text = TextBytes::Lent(base);
        for delta in deltas {
            text = TextBytes::Made(apply(alloc, text.as_slice(), delta)?);
        }
        Ok(text)
    }

    pub(crate) fn as_slice(&self) -> &[u8]
        ensures { result.now ≡ bytes_of self.now }
    {
        match self {
            TextBytes::Lent(text) => text,
            TextBytes::Made(text) => text.as_slice(),
        }
    }
}
