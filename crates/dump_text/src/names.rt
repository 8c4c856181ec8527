//! The header names that have a meaning. Each may occur once in a block.
ghost use Rattle.std.specs.Prelude.{◌≡◌, bytes_eq, find};
ghost use Rattle.dump_text.specs.steps.KnownValues.{name_text, known_name, names_of_length};

/// A header name that has a meaning and may occur at most once in a block (this project's own rule).
#[derive(Clone, Copy, Debug, PartialEq, Eq)]
pub enum HeaderName {
    FormatVersion,
    Uuid,
    RevisionNumber,
    NodePath,
    PropContentLength,
    TextContentLength,
    ContentLength,
    NodeCopyfromRev,
    NodeCopyfromPath,
    TextCopySourceMd5,
    TextCopySourceSha1,
    NodeKind,
    NodeAction,
    TextContentMd5,
    TextContentSha1,
    TextDelta,
    PropDelta,
}

/// The number of names that have a meaning.
pub(crate) const COUNT: usize = HeaderName::PropDelta as usize + 1;

impl HeaderName {
    /// The bytes of the name in a header line.
    pub fn bytes(self) -> &'static [u8]
        ensures { result.now ≡ name_text self }
    {
        match self {
            HeaderName::FormatVersion => b"SVN-fs-dump-format-version",
            HeaderName::Uuid => b"UUID",
            HeaderName::RevisionNumber => b"Revision-number",
            HeaderName::NodePath => b"Node-path",
            HeaderName::PropContentLength => b"Prop-content-length",
            HeaderName::TextContentLength => b"Text-content-length",
            HeaderName::ContentLength => b"Content-length",
            HeaderName::NodeCopyfromRev => b"Node-copyfrom-rev",
            HeaderName::NodeCopyfromPath => b"Node-copyfrom-path",
            HeaderName::TextCopySourceMd5 => b"Text-copy-source-md5",
            HeaderName::TextCopySourceSha1 => b"Text-copy-source-sha1",
            HeaderName::NodeKind => b"Node-kind",
            HeaderName::NodeAction => b"Node-action",
            HeaderName::TextContentMd5 => b"Text-content-md5",
            HeaderName::TextContentSha1 => b"Text-content-sha1",
            HeaderName::TextDelta => b"Text-delta",
            HeaderName::PropDelta => b"Prop-delta",
        }
    }

    /// The names of this length.
    fn of_length(length: usize) -> &'static [HeaderName]
        ensures { result.now ≡ names_of_length length }
    {
        match length {
            4 => &[HeaderName::Uuid],
            9 => &[HeaderName::NodePath, HeaderName::NodeKind],
            10 => &[HeaderName::TextDelta, HeaderName::PropDelta],
            11 => &[HeaderName::NodeAction],
            14 => &[HeaderName::ContentLength],
            15 => &[HeaderName::RevisionNumber],
            16 => &[HeaderName::TextContentMd5],
            17 => &[HeaderName::NodeCopyfromRev, HeaderName::TextContentSha1],
            18 => &[HeaderName::NodeCopyfromPath],
            19 => &[HeaderName::PropContentLength, HeaderName::TextContentLength],
            20 => &[HeaderName::TextCopySourceMd5],
            21 => &[HeaderName::TextCopySourceSha1],
            26 => &[HeaderName::FormatVersion],
            _ => &[],
        }
    }

    /// The name with these bytes, if it is known.
    pub(crate) fn of(bytes: &[u8]) -> Option<HeaderName>
        ensures { result ≡ known_name bytes.now }
    {
        find_name(HeaderName::of_length(bytes.len()), bytes)
    }
}

/// The first of these names that has these bytes.
fn find_name(names: &[HeaderName], bytes: &[u8]) -> Option<HeaderName>
    ensures { result ≡ find (λ name. bytes_eq bytes.now (name_text name)) names.now }
{
    for name in names {
        if bytes == name.bytes() {
            return Some(*name);
        }
    }
    None
}
