//! What the lines of a survey say of each kind of finding.
ghost use Rattle.std.specs.Prelude.{◌≡◌, map};
ghost use Rattle.dump_history.specs.Findings.{every_dump_finding, every_finding};
ghost use Rattle.dump_survey.specs.FindingRows.{dump_row, finding_row};
ghost use Rattle.dump_survey.specs.steps.LineViews.{kind_view, row_view};

use dump_history::{DumpFinding, Finding};
use dump_text::FaultKind;

/// The parts of the line that counts the findings of a kind.
#[derive(Clone, Copy, Debug, PartialEq, Eq)]
pub(crate) struct Kind {
    /// What the survey found.
    pub(crate) what: &'static [u8],
    /// The fault with which the filter stops because of it, if it stops.
    pub(crate) fault: Option<FaultKind>,
    /// What the user can do about it.
    pub(crate) advice: &'static [u8],
}

/// What the lines say of a kind of finding.
#[derive(Clone, Copy, Debug, PartialEq, Eq)]
pub(crate) struct Row {
    /// The words on the line of one finding.
    pub(crate) words: &'static [u8],
    /// Whether this line states the copy source of the node.
    pub(crate) states_source: bool,
    pub(crate) kind: Kind,
}

/// The rows of the findings in a node, in the order of `Finding`.
static NODE_ROWS: [Row; 15] = [
    Row {
        words: b"its properties cannot be read",
        states_source: false,
        kind: Kind {
            what: b"properties that cannot be read",
            fault: None,
            advice: b"dump the repository again",
        },
    },
    Row {
        words: b"a delta in a dump of format version 2",
        states_source: false,
        kind: Kind {
            what: b"deltas in a dump of format version 2",
            fault: None,
            advice: b"use svnadmin dump --deltas, which writes version 3",
        },
    },
    Row {
        words: b"no action, or an unknown one",
        states_source: false,
        kind: Kind {
            what: b"nodes with no action, or an unknown one",
            fault: None,
            advice: b"dump the repository again",
        },
    },
    Row {
        words: b"a path, a copy source or another text that svnadmin load reads differently",
        states_source: false,
        kind: Kind {
            what: b"texts that svnadmin load reads differently",
            fault: None,
            advice: b"correct them in the dump, since a prefix may not match what is loaded",
        },
    },
    Row {
        words: b"the source is excluded: svndumpfilter stops here",
        states_source: true,
        kind: Kind {
            what: b"copies whose source is excluded",
            fault: Some(FaultKind::CopySource),
            advice: b"include the source too, or exclude the copy",
        },
    },
    Row {
        words: b"the source's revision gets no new number: svndumpfilter stops here",
        states_source: true,
        kind: Kind {
            what: b"copies whose source's revision gets no new number",
            fault: Some(FaultKind::CopyRevision),
            advice: b"do not use --renumber-revs, or dump from an earlier revision on",
        },
    },
    Row {
        words: b"invalid svn:mergeinfo: svndumpfilter stops here",
        states_source: false,
        kind: Kind {
            what: b"invalid svn:mergeinfo",
            fault: Some(FaultKind::MergeInfo),
            advice: b"correct the property and dump the repository again, or exclude the path",
        },
    },
    Row {
        words: b"svn:mergeinfo of an excluded path: svndumpfilter stops here",
        states_source: false,
        kind: Kind {
            what: b"svn:mergeinfo of excluded paths",
            fault: Some(FaultKind::MergeSource),
            advice: b"use --skip-missing-merge-sources, or include these paths too",
        },
    },
    Row {
        words: b"svn:mergeinfo of a revision outside of the dump: svndumpfilter stops here",
        states_source: false,
        kind: Kind {
            what: b"svn:mergeinfo of revisions outside of the dump",
            fault: Some(FaultKind::MergeRange),
            advice: b"do not use --renumber-revs, or use --skip-missing-merge-sources if all of them are before the first one",
        },
    },
    Row {
        words: b"the source is excluded: the copy may lack its properties",
        states_source: true,
        kind: Kind {
            what: b"copies that may lack the properties of their excluded source",
            fault: None,
            advice: b"include the source too",
        },
    },
    Row {
        words: b"the copy may lack paths that are excluded at its source",
        states_source: true,
        kind: Kind {
            what: b"copies that may lack paths that are excluded at their source",
            fault: None,
            advice: b"exclude these paths below the copy too, or not below the source",
        },
    },
    Row {
        words: b"the copy may bring back paths that are excluded here",
        states_source: true,
        kind: Kind {
            what: b"copies that may bring back paths that are excluded",
            fault: None,
            advice: b"exclude these paths below the source too",
        },
    },
    Row {
        words: b"this excluded directory is deleted: what is included below it may stay",
        states_source: false,
        kind: Kind {
            what: b"excluded directories that are deleted",
            fault: None,
            advice: b"include the directory, or delete what stays after the load",
        },
    },
    Row {
        words: b"this copy of a directory is excluded: what is included below it may be missing",
        states_source: true,
        kind: Kind {
            what: b"excluded copies of directories",
            fault: None,
            advice: b"include the copy and its source",
        },
    },
    Row {
        words: b"the source is excluded, and the copy has a text from there",
        states_source: true,
        kind: Kind {
            what: b"copies with a text from their excluded source",
            fault: None,
            advice: b"exclude the copy too if its text has to go",
        },
    },
];

/// The rows of the findings in a dump as a whole, in the order of `DumpFinding`.
static DUMP_ROWS: [Row; 8] = [
    Row {
        words: b"the dump has no revision",
        states_source: false,
        kind: Kind {
            what: b"a dump without a revision",
            fault: None,
            advice: b"there is nothing to load",
        },
    },
    Row {
        words: b"the revision numbers of the dump do not rise by one",
        states_source: false,
        kind: Kind {
            what: b"revision numbers that do not rise by one",
            fault: None,
            advice: b"first renumber the dump with svndumpfilter include --renumber-revs /",
        },
    },
    Row {
        words: b"the number of a revision is not above the one before it",
        states_source: false,
        kind: Kind {
            what: b"revision numbers that do not rise",
            fault: Some(FaultKind::Order),
            advice: b"dump the repository again",
        },
    },
    Row {
        words: b"the properties of a revision cannot be read",
        states_source: false,
        kind: Kind {
            what: b"properties of a revision that cannot be read",
            fault: Some(FaultKind::Props),
            advice: b"dump the repository again",
        },
    },
    Row {
        words: b"revision 0 of the dump has a node",
        states_source: false,
        kind: Kind {
            what: b"a node in revision 0",
            fault: None,
            advice: b"dump the repository again",
        },
    },
    Row {
        words: b"a node of the dump is copied from a revision before the first one",
        states_source: false,
        kind: Kind {
            what: b"copies from a revision before the first one",
            fault: None,
            advice: b"dump from an earlier revision on",
        },
    },
    Row {
        words: b"a node of the dump is outside of a revision",
        states_source: false,
        kind: Kind {
            what: b"nodes outside of a revision",
            fault: Some(FaultKind::Order),
            advice: b"dump the repository again",
        },
    },
    Row {
        words: b"a revision is dropped, and a later copy or svn:mergeinfo names revisions by their old numbers: use --renumber-revs",
        states_source: false,
        kind: Kind {
            what: b"revision numbers with a gap",
            fault: None,
            advice: b"use --renumber-revs",
        },
    },
];

/// The rows of the findings in a node.
#[tactic(auto, unfolding(crate::specs::FindingRows::finding_row, crate::specs::steps::LineViews::row_view, crate::specs::steps::LineViews::kind_view))]
fn node_rows() -> &'static [Row; 15]
    ensures { map row_view result.now ≡ map finding_row every_finding }
{
    &NODE_ROWS
}

/// The rows of the findings in a dump as a whole.
#[tactic(auto, unfolding(crate::specs::FindingRows::dump_row, crate::specs::steps::LineViews::row_view, crate::specs::steps::LineViews::kind_view))]
fn dump_rows() -> &'static [Row; 8]
    ensures { map row_view result.now ≡ map dump_row every_dump_finding }
{
    &DUMP_ROWS
}

/// The row of a finding in a node.
pub(crate) fn node_row(finding: Finding) -> &'static Row
    ensures words { result.now.words.now ≡ (finding_row finding).words }
    ensures source { result.now.states_source ≡ (finding_row finding).states_source }
    ensures kind { kind_view result.now.kind ≡ (finding_row finding).kind }
{
    &node_rows()[finding as usize]
}

/// The row of a finding in a dump as a whole.
pub(crate) fn dump_row(finding: DumpFinding) -> &'static Row
    ensures words { result.now.words.now ≡ (dump_row finding).words }
    ensures kind { kind_view result.now.kind ≡ (dump_row finding).kind }
{
    &dump_rows()[finding as usize]
}
