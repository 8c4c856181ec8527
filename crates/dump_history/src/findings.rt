//! What a survey can find in a dump.
ghost use Rattle.std.specs.Prelude.{◌≡◌};
ghost use Rattle.dump_history.specs.Findings.{every_dump_finding, every_finding};

/// What a survey can find in a node.
#[derive(Clone, Copy, Debug, PartialEq, Eq)]
pub enum Finding {
    /// The property block can't be read.
    UnreadBlock,
    /// A header says that a part of the node is a delta, but format version 3 isn't in force there.
    Delta,
    /// The node has no action, or an unknown one.
    UnknownAction,
    /// `svnadmin load` reads one of the node's texts differently.
    TextReadDifferently,
    /// The filter stops at the node with fault 12.
    NoWholeFile,
    /// The filter stops at the node with fault 13: the revision that the node is copied from has no new number.
    MissingCopyRevision,
    /// The filter stops at the node with fault 14: the node's mergeinfo can't be read.
    UnreadMergeinfo,
    /// The filter stops at the node with fault 15: the node's mergeinfo names a path that isn't kept.
    MissingMergeSource,
    /// The filter stops at the node with fault 16: the node's mergeinfo names a revision outside of the dump.
    MissingMergeRevision,
    /// The node's copy source is excluded, and its properties may be lost.
    PropertiesLost,
    /// A copy of a kept path may lack what is excluded below that path.
    CopyLoses,
    /// A copy of a kept path may bring back what is excluded below the copy.
    CopyLetsIn,
    /// The node deletes an excluded directory, and what is included below it may stay.
    IncludedStays,
    /// The node is an excluded directory that is a copy, and what is included below it may be missing.
    IncludedMissing,
    /// The node is a kept file that is a copy of an excluded one, and it has the excluded file's text.
    TextComesIn,
}

/// What a survey can find in a dump as a whole.
#[derive(Clone, Copy, Debug, PartialEq, Eq)]
pub enum DumpFinding {
    /// The dump has no revision.
    NoRevision,
    /// The revision numbers don't go up by one from the number of the first revision.
    OtherNumbers,
    /// A revision's number isn't above that of the revision before it, and the filter stops there.
    NumberFalls,
    /// The properties of a revision can't be read, and the filter stops there.
    UnreadRevision,
    /// The first revision is revision 0, and it has a node.
    NodeInFirst,
    /// A node of a revision is a copy from a revision before the first one.
    SourceBefore,
    /// A node is outside of any revision, and the filter stops there.
    NodeOutside,
    /// A revision is dropped, the filter doesn't renumber, and a kept node after it names a revision by its number.
    NumbersLeft,
}

/// The number of findings in nodes.
pub const FINDINGS: usize = EVERY_FINDING.len();

const EVERY_FINDING: [Finding; 15] = [
    Finding::UnreadBlock,
    Finding::Delta,
    Finding::UnknownAction,
    Finding::TextReadDifferently,
    Finding::NoWholeFile,
    Finding::MissingCopyRevision,
    Finding::UnreadMergeinfo,
    Finding::MissingMergeSource,
    Finding::MissingMergeRevision,
    Finding::PropertiesLost,
    Finding::CopyLoses,
    Finding::CopyLetsIn,
    Finding::IncludedStays,
    Finding::IncludedMissing,
    Finding::TextComesIn,
];

const EVERY_DUMP_FINDING: [DumpFinding; 8] = [
    DumpFinding::NoRevision,
    DumpFinding::OtherNumbers,
    DumpFinding::NumberFalls,
    DumpFinding::UnreadRevision,
    DumpFinding::NodeInFirst,
    DumpFinding::SourceBefore,
    DumpFinding::NodeOutside,
    DumpFinding::NumbersLeft,
];

/// All findings in nodes, in the order in which they are reported.
pub fn every_finding() -> &'static [Finding]
    ensures { result.now ≡ every_finding }
{
    &EVERY_FINDING
}

/// All findings in a dump as a whole, in the order in which they are reported.
pub fn every_dump_finding() -> &'static [DumpFinding]
    ensures { result.now ≡ every_dump_finding }
{
    &EVERY_DUMP_FINDING
}
