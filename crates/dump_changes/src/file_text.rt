//! The text of a file, as it is made of parts of a dump.
ghost use Rattle.std.specs.Prelude.{◌≡◌, ◌<◌, ◌^◌, [], length, unwrap_or};
ghost use Rattle.dump_changes.specs.steps.DeltaTexts.{text_of_parts};

use crate::node_text::NodeText;
use crate::text_bytes::TextBytes;
use dump_rules::Memory;
use std::alloc::Global;

/// The text of a file, with the digests that the dump gives of it: a part of the dump, or what deltas make of one.
///
/// Only parts of the dump are kept. Where deltas make the text, they are applied each time that it is written.
#[derive(Drop)]
pub struct FileText<'a> {
    base: &'a [u8],
    /// The deltas that are applied to it, one after the other.
    deltas: Vec<&'a [u8]>,
    size: usize,
    md5: Option<&'a [u8]>,
    sha1: Option<&'a [u8]>,
    ghost sized: { length (unwrap_or (text_of_parts base.now deltas.items) []) ≡ size },
    ghost fits: { size < 2 ^ 63 },
}

impl<'a> FileText<'a> {
    ghost use Rattle.std.specs.Prelude.{◌++◌, OnOk, Some, option_copied};
    ghost use Rattle.dump_changes.specs.steps.MadeTexts.{told_of_file};
    ghost use Rattle.dump_changes.specs.steps.NodeTexts.{told_of};
    ghost use Rattle.dump_changes.specs.steps.TextBytes.{bytes_of};

    /// A text that is a part of a dump.
    pub fn whole(alloc: Global, own: NodeText<'a>) -> FileText<'a>
        ensures { told_of_file result ≡ told_of own.entry }
    {
        FileText {
            base: own.text,
            deltas: Vec::new(alloc),
            size: own.text.len(),
            md5: own.md5,
            sha1: own.sha1,
        }
    }

    /// The text that deltas make of a part of a dump, where it was made once.
    pub(crate) fn patched(
        bytes: &TextBytes<'_>,
        base: &'a [u8],
        deltas: Vec<&'a [u8]>,
        md5: Option<&'a [u8]>,
        sha1: Option<&'a [u8]>,
    ) -> FileText<'a>
        requires { text_of_parts base.now deltas.items ≡ Some (bytes_of bytes.now) }
        ensures { told_of_file result ≡ record { text = bytes_of bytes.now; md5 = option_copied md5.entry; sha1 = option_copied sha1.entry } }
    {
        FileText {
            base,
            deltas,
            size: bytes.as_slice().len(),
            md5,
            sha1,
        }
    }

    /// The number of its bytes.
    pub fn size(&self) -> usize
        ensures size { result ≡ length (told_of_file self.now).text }
        ensures fits { result < 2 ^ 63 }
    {
        self.size
    }

    /// The MD5 digest that the dump gives of it, in hexadecimal.
    pub fn md5(&self) -> Option<&'a [u8]>
        ensures { option_copied result ≡ (told_of_file self.now).md5 }
    {
        self.md5
    }

    /// The SHA-1 digest that the dump gives of it, in hexadecimal.
    pub fn sha1(&self) -> Option<&'a [u8]>
        ensures { option_copied result ≡ (told_of_file self.now).sha1 }
    {
        self.sha1
    }

    /// Appends its bytes.
    pub fn write(&self, alloc: Global, out: &mut Vec<u8>) -> Result<(), Memory>
        ensures { OnOk result (out.new.items ≡ out.old.items ++ (told_of_file self.now).text) }
    {
        let Ok(text) = TextBytes::patched(alloc, self.base, &self.deltas) else {
            // the deltas were applied before, so memory is out
            return Err(Memory);
        };
        Ok(out.extend_from_slice(text.as_slice())?)
    }
}
