//! What may be wrong with a record of a dump.
ghost use Rattle.std.specs.Prelude.{◌≡◌};

/// What may be wrong with a record. The order is that of the checks: the first kind that applies is the record's
/// fault.
#[derive(Clone, Copy, Debug, PartialEq, Eq)]
pub enum FaultKind {
    /// No empty line follows before the end of the dump, or the dump holds no record.
    HeaderCut,
    /// A line isn't `name: value`, or a known name occurs twice.
    Header,
    /// Not exactly one name says what kind of record it is, or a node has only one of the two copyfrom headers.
    Kind,
    /// The dump doesn't begin with a version record, or a version isn't 2 or 3.
    Version,
    /// A revision number, a copy revision or a length isn't a number.
    Number,
    /// The content length isn't the sum of the other two, or the record may not have one of them.
    Lengths,
    /// Fewer bytes are left than the lengths say.
    ContentCut,
    /// A node follows neither a revision nor a node, or a revision's number isn't above the one before.
    Order,
    /// The properties aren't a property block, or an entry deletes a property where this isn't allowed.
    Props,
    /// The text's MD5 digest isn't the one in its header.
    Md5,
    /// The text's SHA-1 digest isn't the one in its header.
    Sha1,
    /// A node is copied from a path that isn't kept.
    CopySource,
    /// A copy revision has no new number, or is above the present revision.
    CopyRevision,
    /// A value of `svn:mergeinfo` can't be read.
    MergeInfo,
    /// Mergeinfo names a path that isn't kept.
    MergeSource,
    /// Mergeinfo names a revision outside the dump.
    MergeRange,
}

impl FaultKind {
    ghost use Rattle.dump_text.specs.FaultTable.{fault_code};
    ghost use Rattle.dump_text.specs.FaultNames.{fault_name};

    /// The fault's number, 1 to 16, as users see it.
    pub fn code(self) -> u8
        ensures { result ≡ fault_code self }
    {
        match self {
            FaultKind::HeaderCut => 1,
            FaultKind::Header => 2,
            FaultKind::Kind => 3,
            FaultKind::Version => 4,
            FaultKind::Number => 5,
            FaultKind::Lengths => 6,
            FaultKind::ContentCut => 7,
            FaultKind::Order => 8,
            FaultKind::Props => 9,
            FaultKind::Md5 => 10,
            FaultKind::Sha1 => 11,
            FaultKind::CopySource => 12,
            FaultKind::CopyRevision => 13,
            FaultKind::MergeInfo => 14,
            FaultKind::MergeSource => 15,
            FaultKind::MergeRange => 16,
        }
    }

    /// The fault's name, as users see it.
    pub fn name(self) -> &'static str
        ensures { result.now ≡ fault_name self }
    {
        match self {
            FaultKind::HeaderCut => "HeaderCut",
            FaultKind::Header => "Header",
            FaultKind::Kind => "Kind",
            FaultKind::Version => "Version",
            FaultKind::Number => "Number",
            FaultKind::Lengths => "Lengths",
            FaultKind::ContentCut => "ContentCut",
            FaultKind::Order => "Order",
            FaultKind::Props => "Props",
            FaultKind::Md5 => "Md5",
            FaultKind::Sha1 => "Sha1",
            FaultKind::CopySource => "CopySource",
            FaultKind::CopyRevision => "CopyRevision",
            FaultKind::MergeInfo => "MergeInfo",
            FaultKind::MergeSource => "MergeSource",
            FaultKind::MergeRange => "MergeRange",
        }
    }
}
