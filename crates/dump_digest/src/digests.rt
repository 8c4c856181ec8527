//! The digests of a record's text.
ghost use Rattle.std.specs.Prelude.{◌≡◌, ◌↔◌, ◌||◌, IsFalse, IsTrue, Ok, Some, None, is_some, length, option_copied, if◌then◌else◌};
ghost use Rattle.dump_text.specs.Names.{md5_name, sha1_name};
ghost use Rattle.dump_records.specs.steps.RecordViews.{record_item};
ghost use Rattle.dump_digest.specs.RecordParts.{has_whole_text};
ghost use Rattle.dump_digest.specs.steps.Checks.{HasOtherDigest, TellsOtherMd5, TellsOtherSha1, is_told_text};
ghost use Rattle.md5.specs.Md5.{md5};
ghost use Rattle.sha1.specs.Sha1.{sha1};
ghost use Rattle.hex.specs.Hex.{decode_sized};

use dump_records::Record;
use hex::{FromHex, encode_to_slice};
use md5::{Digest, Md5};
use sha1::Sha1;

/// What the digest headers of a record say about its text.
#[derive(Clone, Copy)]
pub(crate) struct TextCheck {
    pub(crate) md5_ok: bool,
    pub(crate) sha1_ok: bool,
    /// Whether there is a text that is no delta, and a header with a digest of it.
    pub(crate) checked: bool,
}

/// Whether the digits are those of the digest in lower case, as in most dumps. Comparing digits is faster than
/// decoding them. False doesn't say that the digests differ.
fn is_lower(digits: &[u8], digest: &[u8], room: &mut [u8]) -> bool
    ensures { IsTrue result → decode_sized digits.now (length digest.now) ≡ Ok digest.now }
{
    encode_to_slice(digest, room).is_ok() && digits == &*room
}

/// Whether the digits, of either case, are the MD5 digest of the text.
fn is_md5(digits: &[u8], text: &[u8]) -> bool
    ensures { IsTrue result ↔ (decode_sized digits.now 16 ≡ Ok (md5 text.now)) }
{
    let digest = Md5::digest(text);
    if is_lower(digits, &digest, &mut [0; 32]) {
        return true;
    }
    match <[u8; 16] as FromHex>::from_hex(digits) {
        Ok(told) => told == digest,
        Err(_) => false,
    }
}

/// Whether the digits, of either case, are the SHA-1 digest of the text.
fn is_sha1(digits: &[u8], text: &[u8]) -> bool
    ensures { IsTrue result ↔ (decode_sized digits.now 20 ≡ Ok (sha1 text.now)) }
{
    let digest = Sha1::digest(text);
    if is_lower(digits, &digest, &mut [0; 40]) {
        return true;
    }
    match <[u8; 20] as FromHex>::from_hex(digits) {
        Ok(told) => told == digest,
        Err(_) => false,
    }
}

/// Whether there is no header with an MD5 digest, or it is that of the text.
pub fn md5_ok(told: Option<&[u8]>, text: &[u8]) -> bool
    ensures { IsFalse result ↔ TellsOtherMd5 (option_copied told.entry) text.now }
{
    match told {
        Some(digits) => is_md5(digits, text),
        None => true,
    }
}

/// Whether there is no header with a SHA-1 digest, or it is that of the text.
pub fn sha1_ok(told: Option<&[u8]>, text: &[u8]) -> bool
    ensures { IsFalse result ↔ TellsOtherSha1 (option_copied told.entry) text.now }
{
    match told {
        Some(digits) => is_sha1(digits, text),
        None => true,
    }
}

/// Whether there is a header with a digest.
fn is_told(md5: Option<&[u8]>, sha1: Option<&[u8]>) -> bool
    ensures { result ≡ (is_some md5.entry || is_some sha1.entry) }
{
    md5.is_some() || sha1.is_some()
}

/// The text of the record, if it has one that isn't a delta.
fn whole_text<'a>(item: &Record<'a>) -> Option<&'a [u8]>
    ensures { let r = record_item item.now in
        option_copied result ≡ (if has_whole_text r then Some r.text else None) }
{
    if item.text_delta() { None } else { item.text() }
}

/// What the digest headers of the record say about its text. The text is read in place, once for each digest. If there
/// is no text length, or the text is a delta, no header is read.
pub(crate) fn text_check(item: &Record<'_>) -> TextCheck
    ensures md5 { let r = record_item item.now in
        IsFalse result.md5_ok ↔ HasOtherDigest md5_name r 16 (md5 r.text) }
    ensures sha1 { let r = record_item item.now in
        IsFalse result.sha1_ok ↔ HasOtherDigest sha1_name r 20 (sha1 r.text) }
    ensures checked { result.checked ≡ is_told_text (record_item item.now) }
{
    let Some(text) = whole_text(item) else {
        return TextCheck {
            md5_ok: true,
            sha1_ok: true,
            checked: false,
        };
    };
    let md5 = item.md5();
    let sha1 = item.sha1();
    TextCheck {
        md5_ok: md5_ok(md5, text),
        sha1_ok: sha1_ok(sha1, text),
        checked: is_told(md5, sha1),
    }
}
