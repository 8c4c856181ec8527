//! A text while the changes of a dump make it.
ghost use Rattle.std.specs.Prelude.{◌≡◌, Some};
ghost use Rattle.dump_changes.specs.steps.DeltaTexts.{text_of_parts};
ghost use Rattle.dump_changes.specs.steps.TextBytes.{bytes_of};

use crate::file_text::FileText;
use crate::node_text::NodeText;
use crate::text_bytes::TextBytes;
use dump_digest::{md5_ok, sha1_ok};
use std::alloc::Global;
use svndiff::{NotApplied, apply};

/// A text with its bytes, with the parts of the dump that make it, and with the digests that the dump gives of it.
#[derive(Drop)]
pub(crate) struct MadeText<'a> {
    bytes: TextBytes<'a>,
    base: &'a [u8],
    deltas: Vec<&'a [u8]>,
    md5: Option<&'a [u8]>,
    sha1: Option<&'a [u8]>,
    ghost made: { text_of_parts base.now deltas.items ≡ Some (bytes_of bytes) },
}

impl<'a> MadeText<'a> {
    ghost use Rattle.std.specs.Prelude.{IsFalse, MatchResult, ◌↔◌};
    ghost use Rattle.dump_changes.specs.steps.PatchedTexts.{told_left};
    ghost use Rattle.dump_changes.specs.steps.MadeTexts.{SaysNone, told_of_file, told_of_made};
    ghost use Rattle.dump_changes.specs.steps.NodeTexts.{told_of};
    ghost use Rattle.dump_digest.specs.steps.Checks.{TellsOtherMd5, TellsOtherSha1};
    ghost use Rattle.dump_index.specs.declared.change.Setting.TheVariants as settings;

    /// A whole text of the dump.
    pub(crate) fn whole(alloc: Global, own: NodeText<'a>) -> MadeText<'a>
        ensures { told_of_made result ≡ told_of own.entry }
    {
        MadeText {
            bytes: TextBytes::Lent(own.text),
            base: own.text,
            deltas: Vec::new(alloc),
            md5: own.md5,
            sha1: own.sha1,
        }
    }

    /// What a delta of the dump makes of it.
    pub(crate) fn edited(self, alloc: Global, own: NodeText<'a>) -> Result<MadeText<'a>, NotApplied>
        ensures { let defined = told_left settings.Edits (told_of own.entry) (told_of_made self.entry) in
            MatchResult result (λ new. defined ≡ Some (told_of_made new)) (λ error. SaysNone error defined) }
    {
        let text = apply(alloc, self.bytes.as_slice(), own.text)?;
        let mut deltas = self.deltas;
        let Ok(()) = deltas.push(own.text) else {
            return Err(NotApplied::Memory);
        };
        Ok(MadeText {
            bytes: TextBytes::Made(text),
            base: self.base,
            deltas,
            md5: own.md5,
            sha1: own.sha1,
        })
    }

    /// Whether the dump gives no MD5 digest of it, or its own.
    pub(crate) fn has_own_md5(&self) -> bool
        ensures { let its = told_of_made self.now in IsFalse result ↔ TellsOtherMd5 its.md5 its.text }
    {
        md5_ok(self.md5, self.bytes.as_slice())
    }

    /// The same of a SHA-1 digest.
    pub(crate) fn has_own_sha1(&self) -> bool
        ensures { let its = told_of_made self.now in IsFalse result ↔ TellsOtherSha1 its.sha1 its.text }
    {
        sha1_ok(self.sha1, self.bytes.as_slice())
    }

    /// The text without its bytes.
    pub(crate) fn into_text(self) -> FileText<'a>
        ensures { told_of_file result ≡ told_of_made self.entry }
    {
        let deltas = self.deltas;
        FileText::patched(&self.bytes, self.base, deltas, self.md5, self.sha1)
    }
}
