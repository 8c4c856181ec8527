//! Reads the header lines of a block, and checks the rules for them.
ghost use Rattle.std.specs.Prelude.{◌≡◌, ◌<◌, ◌+◌, ◌^◌, ◌==◌, ◌&&◌, not, IfSome, IsFalse, MatchResult, is_none, is_some, bytes_eq, unwrap_or, codes, []};
ghost use Rattle.dump_text.specs.Names.{version_name, node_kind_name, content_length_name};
ghost use Rattle.dump_text.specs.steps.KnownValues.{name_text};
ghost use Rattle.dump_text.specs.HeaderLine.{has_header, header_value};
ghost use Rattle.dump_records.specs.HeaderRules.{header_number, header_length, property_length, text_length, says_true, has_bad_kind, has_bad_version, has_bad_number, has_bad_lengths};
ghost use Rattle.dump_records.specs.steps.KindReading.{IsKindOf, version_in};
ghost use Rattle.dump_records.specs.steps.HeaderReading.{dump_of, lines_of, AreNumbers, is_spelled, are_written, IsHeaderOf};
ghost use Rattle.dump_records.specs.steps.Lawful.{LengthsOf, IsUnlawful};

use crate::kind::KindParts;
use dump_text::{FaultKind, HeaderName, Headers, ValuePlace, is_shortest, number};

/// What was read from a header line whose value should be a number.
#[derive(Clone, Copy)]
pub(crate) struct NumberRead {
    pub(crate) number: Option<u64>,
    /// Whether the number, if there is one, is in its shortest spelling.
    pub(crate) is_shortest: bool,
}

/// The numbers in header lines.
#[derive(Clone, Copy)]
pub(crate) struct Numbers {
    pub(crate) version: Option<u64>,
    pub(crate) revision: Option<u64>,
    pub(crate) copy_revision: Option<u64>,
    pub(crate) props: Option<u64>,
    pub(crate) text: Option<u64>,
    pub(crate) content: Option<u64>,
    /// Whether each of them except the version is in its shortest spelling.
    pub(crate) are_shortest: bool,
}

/// How many bytes of properties and of text follow a block.
#[derive(Clone, Copy)]
pub(crate) struct Lengths {
    pub(crate) props: u64,
    pub(crate) text: u64,
}

/// What the header lines of a record say, and the format version in force for it. Small fields are next to each other
/// to save space, since a record is sent between threads.
#[derive(Clone, Copy)]
pub(crate) struct RecordHeader {
    pub(crate) parts: KindParts,
    pub(crate) md5: ValuePlace,
    pub(crate) sha1: ValuePlace,
    pub(crate) version: u8,
    pub(crate) is_file: bool,
    pub(crate) has_props: bool,
    pub(crate) has_text: bool,
    pub(crate) has_content: bool,
    /// Whether the value of `Text-delta` is `true`; this has a meaning only in a node under version 3.
    pub(crate) text_delta: bool,
    /// The same of `Prop-delta` and the property block.
    pub(crate) prop_delta: bool,
    pub(crate) is_written: bool,
}

/// The number that the header of this name has, and whether it is in its shortest spelling.
fn number_at(headers: &Headers<'_>, name: HeaderName) -> NumberRead
    ensures value { result.number ≡ header_number (name_text name) (lines_of headers.now) }
    ensures small { IfSome result.number (λ n. n < 10 ^ 18) }
    ensures spelled { result.is_shortest ≡ is_spelled (name_text name) (lines_of headers.now) }
{
    let Some(digits) = headers.value(name) else {
        return NumberRead {
            number: None,
            is_shortest: true,
        };
    };
    let number = number(digits);
    NumberRead {
        number,
        is_shortest: number.is_none() || is_shortest(digits),
    }
}

/// The numbers that the lines have; each is read once.
fn numbers_of(headers: &Headers<'_>) -> Numbers
    ensures { AreNumbers (lines_of headers.now) result }
{
    let revision = number_at(headers, HeaderName::RevisionNumber);
    let copy_revision = number_at(headers, HeaderName::NodeCopyfromRev);
    let props = number_at(headers, HeaderName::PropContentLength);
    let text = number_at(headers, HeaderName::TextContentLength);
    let content = number_at(headers, HeaderName::ContentLength);
    Numbers {
        version: number_at(headers, HeaderName::FormatVersion).number,
        revision: revision.number,
        copy_revision: copy_revision.number,
        props: props.number,
        text: text.number,
        content: content.number,
        are_shortest: revision.is_shortest
            && copy_revision.is_shortest
            && props.is_shortest
            && text.is_shortest
            && content.is_shortest,
    }
}

/// Whether the block doesn't have exactly one of the names that say the kind of record, or is a node with only one of
/// the two copyfrom headers.
fn has_bad_kind(headers: &Headers<'_>) -> bool
    ensures { result ≡ has_bad_kind (lines_of headers.now) }
{
    let is_node = headers.has(HeaderName::NodePath);
    let deciding = u8::from(headers.has(HeaderName::FormatVersion))
        + u8::from(headers.has(HeaderName::Uuid))
        + u8::from(headers.has(HeaderName::RevisionNumber))
        + u8::from(is_node);
    let half_copy = headers.has(HeaderName::NodeCopyfromRev)
        != headers.has(HeaderName::NodeCopyfromPath);
    deciding != 1 || (is_node && half_copy)
}

/// Whether this is the first record and no version record, or its version isn't 2 or 3.
fn has_bad_version(headers: &Headers<'_>, numbers: &Numbers, number: u64) -> bool
    requires { AreNumbers (lines_of headers.now) numbers.now }
    ensures { result ≡ has_bad_version number (lines_of headers.now) }
{
    match numbers.version {
        Some(version) => version != 2 && version != 3,
        None => number == 0 || headers.has(HeaderName::FormatVersion),
    }
}

/// Whether there is a header of this name and its value isn't a number.
fn is_no_number(headers: &Headers<'_>, name: HeaderName, found: Option<u64>) -> bool
    requires { found ≡ header_number (name_text name) (lines_of headers.now) }
    ensures { result ≡ (has_header (name_text name) (lines_of headers.now)
        && is_none (header_number (name_text name) (lines_of headers.now))) }
{
    headers.has(name) && found.is_none()
}

/// Whether a revision number, a copy revision or a length isn't a number.
fn has_bad_number(headers: &Headers<'_>, numbers: &Numbers) -> bool
    requires { AreNumbers (lines_of headers.now) numbers.now }
    ensures { result ≡ has_bad_number (lines_of headers.now) }
{
    is_no_number(headers, HeaderName::RevisionNumber, numbers.revision)
        || is_no_number(headers, HeaderName::NodeCopyfromRev, numbers.copy_revision)
        || is_no_number(headers, HeaderName::PropContentLength, numbers.props)
        || is_no_number(headers, HeaderName::TextContentLength, numbers.text)
        || is_no_number(headers, HeaderName::ContentLength, numbers.content)
}

/// How many bytes of properties and of text follow a block; a missing length counts as 0.
fn lengths_of(numbers: &Numbers) -> Lengths
    ensures props { result.props ≡ unwrap_or numbers.now.props 0 }
    ensures text { result.text ≡ unwrap_or numbers.now.text 0 }
{
    Lengths {
        props: numbers.props.unwrap_or(0),
        text: numbers.text.unwrap_or(0),
    }
}

/// Whether the content length isn't the sum of the other two.
fn has_bad_sum(headers: &Headers<'_>, numbers: &Numbers) -> bool
    requires numbers { AreNumbers (lines_of headers.now) numbers.now }
    requires number { IsFalse (has_bad_number (lines_of headers.now)) }
    ensures { let lines = lines_of headers.now in result ≡ (has_header content_length_name lines
        && not (header_length content_length_name lines == property_length lines + text_length lines)) }
{
    let lengths = lengths_of(numbers);
    match numbers.content {
        Some(content) => content != lengths.props + lengths.text,
        None => false,
    }
}

/// Whether the lengths don't add up, or the record may not have one of them.
fn has_bad_lengths(headers: &Headers<'_>, numbers: &Numbers) -> bool
    requires numbers { AreNumbers (lines_of headers.now) numbers.now }
    requires number { IsFalse (has_bad_number (lines_of headers.now)) }
    ensures { result ≡ has_bad_lengths (lines_of headers.now) }
{
    if has_bad_sum(headers, numbers) {
        return true;
    }
    let has_text = headers.has(HeaderName::TextContentLength);
    let has_content = headers.has(HeaderName::ContentLength);
    let has_none = headers.has(HeaderName::FormatVersion) || headers.has(HeaderName::Uuid);
    if has_none && (headers.has(HeaderName::PropContentLength) || has_text || has_content) {
        return true;
    }
    headers.has(HeaderName::RevisionNumber) && has_text
}

/// The kind of record, with the values that only this kind has.
fn parts_of(headers: &Headers<'_>, numbers: &Numbers) -> KindParts
    requires numbers { AreNumbers (lines_of headers.now) numbers.now }
    requires kind { IsFalse (has_bad_kind (lines_of headers.now)) }
    requires version { is_some numbers.now.version ≡ has_header version_name (lines_of headers.now) }
    requires few { IfSome numbers.now.version (λ n. n < 2 ^ 8) }
    requires number { IsFalse (has_bad_number (lines_of headers.now)) }
    ensures { IsKindOf (dump_of headers.now) (lines_of headers.now) result }
{
    let path = headers.place_of(HeaderName::NodePath);
    if path.is_there() {
        return if headers.has(HeaderName::NodeCopyfromPath) {
            KindParts::Copy { path }
        } else {
            KindParts::Node { path }
        };
    }
    if let Some(number) = numbers.revision {
        return KindParts::Revision { number };
    }
    if let Some(number) = numbers.version {
        return KindParts::Version {
            number: number as u8,
        };
    }
    KindParts::Uuid
}

/// Whether the lines say that the node is a file.
fn says_file(headers: &Headers<'_>) -> bool
    ensures { result ≡ bytes_eq (unwrap_or (header_value node_kind_name (lines_of headers.now)) []) (codes "file") }
{
    match headers.value(HeaderName::NodeKind) {
        Some(kind) => kind == b"file".as_slice(),
        None => false,
    }
}

/// Whether the value of the header of this name is `true`.
fn says_true(headers: &Headers<'_>, name: HeaderName) -> bool
    ensures { result ≡ says_true (name_text name) (lines_of headers.now) }
{
    match headers.value(name) {
        Some(value) => value == b"true".as_slice(),
        None => false,
    }
}

/// Whether the filter writes these lines unchanged if it keeps their numbers and lengths.
fn are_written(headers: &Headers<'_>, numbers: &Numbers) -> bool
    requires { AreNumbers (lines_of headers.now) numbers.now }
    ensures { result ≡ are_written (lines_of headers.now) }
{
    let lengths = lengths_of(numbers);
    numbers.are_shortest
        && (headers.has(HeaderName::ContentLength) || lengths.props + lengths.text == 0)
}

/// Reads the header lines of the record with this number, and its lengths; `before` is the format version that was in
/// force before the record. The error is the first rule that the lines break.
pub(crate) fn read_header(
    headers: &Headers<'_>,
    number: u64,
    before: u8,
) -> Result<(RecordHeader, Lengths), FaultKind>
    ensures { MatchResult result
        (λ found. IsHeaderOf (dump_of headers.now) (lines_of headers.now) found.0
        × LengthsOf number (lines_of headers.now) found.1
        × (found.0.version ≡ unwrap_or (version_in found.0.parts) before))
        (IsUnlawful number (lines_of headers.now)) }
{
    let numbers = numbers_of(headers);
    if has_bad_kind(headers) {
        return Err(FaultKind::Kind);
    }
    if has_bad_version(headers, &numbers, number) {
        return Err(FaultKind::Version);
    }
    if has_bad_number(headers, &numbers) {
        return Err(FaultKind::Number);
    }
    if has_bad_lengths(headers, &numbers) {
        return Err(FaultKind::Lengths);
    }
    let parts = parts_of(headers, &numbers);
    let header = RecordHeader {
        parts,
        md5: headers.place_of(HeaderName::TextContentMd5),
        sha1: headers.place_of(HeaderName::TextContentSha1),
        version: parts.version_from(before),
        is_file: says_file(headers),
        has_props: headers.has(HeaderName::PropContentLength),
        has_text: headers.has(HeaderName::TextContentLength),
        has_content: headers.has(HeaderName::ContentLength),
        text_delta: says_true(headers, HeaderName::TextDelta),
        prop_delta: says_true(headers, HeaderName::PropDelta),
        is_written: are_written(headers, &numbers),
    };
    Ok((header, lengths_of(&numbers)))
}
