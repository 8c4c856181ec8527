//! The findings in single nodes.
use super::rules;
use dump_rules::{Empty, Options, Side};
use dump_survey::{Finding, ReportedFinding, survey_dump};
use std::alloc::Global;
use std::process::Abort;
use std::test::Fail;

/// Whether the survey reports exactly these findings.
fn are_reported(reported: &[ReportedFinding<'_, '_>], wanted: &[Finding]) -> bool {
    for (reported, finding) in reported.iter().zip(wanted) {
        if reported.finding != *finding {
            return false;
        }
    }
    reported.len() == wanted.len()
}

/// Asserts that the survey of a dump has exactly these findings; `node` is the dump's last node.
fn assert_found(
    rt: &impl Abort,
    alloc: Global,
    options: &Options,
    dump: &str,
    node: &str,
    wanted: &[Finding],
) -> Result<(), Fail> {
    let survey = survey_dump(alloc, dump.as_bytes(), options)?;
    assert!(rt; are_reported(&survey.reported, wanted), "{node}");
    Ok(())
}

/// Asserts the findings in a dump that has only this node.
fn assert_found_alone(
    rt: &impl Abort,
    alloc: Global,
    side: Side,
    prefix: &str,
    node: &str,
    wanted: &[Finding],
) -> Result<(), Fail> {
    let options = rules(alloc, side, prefix)?;
    let dump = format!(in alloc;
        "SVN-fs-dump-format-version: 2\n\nRevision-number: 0\n\nRevision-number: 1\n\n{node}\n"
    )?;
    assert_found(rt, alloc, &options, dump.as_str(), node, wanted)
}

const NO: &[Finding] = &[];

const ODD: &[Finding] = &[Finding::TextReadDifferently];

const LOST: &[Finding] = &[Finding::PropertiesLost];

const LOSES: &[Finding] = &[Finding::CopyLoses];

const TAKES: &[Finding] = &[Finding::IncludedStays];

const UNCHANGED: [(&str, &[Finding]); 11] = [
    (
        "Node-path: a\nNode-action: change\nProp-content-length: 10\nContent-length: 10\n\nPROPS-ENDX",
        &[Finding::UnreadBlock],
    ),
    (
        "Node-path: a\nNode-action: change\nText-delta: true\n\n",
        &[Finding::Delta],
    ),
    (
        "Node-path: a\nNode-action: move\n\n",
        &[Finding::UnknownAction],
    ),
    ("Node-path: /a\nNode-action: change\n\n", NO),
    ("Node-path: a/b/\nNode-action: change\n\n", ODD),
    ("Node-path: a//b\nNode-action: change\n\n", ODD),
    ("Node-path: ./a\nNode-action: change\n\n", ODD),
    ("Node-path: a/.\nNode-action: change\n\n", ODD),
    ("Node-path: a/./b\nNode-action: change\n\n", ODD),
    ("Node-path: a\nNode-action: change\nNote: \0\n\n", ODD),
    (
        "Node-path: a\nNode-action: change\nProp-content-length: 22\nContent-length: 22\n\n\
        K 1\n\0\nV 1\nb\nPROPS-END\n",
        ODD,
    ),
];

#[test]
fn nodes_that_make_no_change_are_found(rt: HostRuntime) -> Result<(), Fail> {
    for (node, wanted) in &UNCHANGED {
        assert_found_alone(&rt, rt.alloc(), Side::Include, "trunk", node, wanted)?;
    }
    Ok(())
}

/// Nodes that are copies of `o/f`: a directory, and files without and with properties.
const LOST_DIRECTORY: &str =
    "Node-path: trunk/f\nNode-action: add\nNode-copyfrom-rev: 0\nNode-copyfrom-path: o/f\n\
Node-kind: dir\nProp-content-length: 10\nContent-length: 10\n\nPROPS-END\n";

const LOST_BARE_FILE: &str =
    "Node-path: trunk/f\nNode-action: add\nNode-copyfrom-rev: 0\nNode-copyfrom-path: o/f\n\
Node-kind: file\nText-content-length: 1\nContent-length: 1\n\na";

const LOST_FILE: &str =
    "Node-path: trunk/f\nNode-action: add\nNode-copyfrom-rev: 0\nNode-copyfrom-path: o/f\n\
Node-kind: file\nProp-content-length: 10\nText-content-length: 1\nContent-length: 11\n\nPROPS-END\na";

/// Each row has the side, the prefix, the node, and the findings in it.
const COPIES: [(Side, &str, &str, &[Finding]); 13] = [
    (
        Side::Include,
        "trunk",
        LOST_DIRECTORY,
        &[Finding::NoWholeFile],
    ),
    (Side::Include, "trunk", LOST_BARE_FILE, LOST),
    (Side::Include, "trunk", LOST_FILE, NO),
    (Side::Exclude, "o", LOST_FILE, &[Finding::TextComesIn]),
    (
        Side::Exclude,
        "o",
        LOST_BARE_FILE,
        &[Finding::PropertiesLost, Finding::TextComesIn],
    ),
    (Side::Exclude, "trunk", LOST_DIRECTORY, NO),
    (Side::Exclude, "t/f", COPY, LOSES),
    (Side::Exclude, "/t/f//", COPY, LOSES),
    (Side::Exclude, "b/f", COPY, &[Finding::CopyLetsIn]),
    (Side::Exclude, "bt/f", COPY, NO),
    (Side::Exclude, "c/f", COPY, NO),
    (Side::Include, "t/f", COPY, NO),
    (Side::Exclude, "t", COPY_OF_ROOT, LOSES),
];

#[test]
fn copies_that_lose_or_let_in_something_are_found(rt: HostRuntime) -> Result<(), Fail> {
    for (side, prefix, node, wanted) in &COPIES {
        assert_found_alone(&rt, rt.alloc(), *side, prefix, node, wanted)?;
    }
    Ok(())
}

/// Nodes with mergeinfo: one from `/trunk`, one from `/o`, and one whose line names no revision, since it has no
/// colon.
const MERGED_FROM_TRUNK: &str =
    "Node-path: trunk\nNode-action: change\nProp-content-length: 42\nContent-length: 42\n\n\
    K 13\nsvn:mergeinfo\nV 8\n/trunk:1\nPROPS-END\n";

const MERGED_FROM_O: &str =
    "Node-path: trunk\nNode-action: change\nProp-content-length: 38\nContent-length: 38\n\n\
    K 13\nsvn:mergeinfo\nV 4\n/o:1\nPROPS-END\n";

const MERGED_WITHOUT_COLON: &str =
    "Node-path: trunk\nNode-action: change\nProp-content-length: 40\nContent-length: 40\n\n\
    K 13\nsvn:mergeinfo\nV 6\n/trunk\nPROPS-END\n";

const COPY: &str =
    "Node-path: b\nNode-kind: dir\nNode-action: add\nNode-copyfrom-rev: 0\nNode-copyfrom-path: t\n\n";

const COPY_OF_ROOT: &str =
    "Node-path: b\nNode-kind: dir\nNode-action: add\nNode-copyfrom-rev: 0\nNode-copyfrom-path: \n\n";

const DELETED: &str = "Node-path: o\nNode-action: delete\n\n";

const COPIED: &str =
    "Node-path: o\nNode-kind: dir\nNode-action: add\nNode-copyfrom-rev: 0\nNode-copyfrom-path: t\n\n";

const REPLACED: &str =
    "Node-path: o\nNode-kind: dir\nNode-action: replace\nNode-copyfrom-rev: 0\nNode-copyfrom-path: t\n\n";

const DIRECTORIES_AND_MERGEINFO: [(Side, &str, &str, &[Finding]); 10] = [
    (Side::Include, "o/s", DELETED, TAKES),
    (Side::Include, "o", DELETED, NO),
    (Side::Include, "os/s", DELETED, NO),
    (Side::Exclude, "o/s", DELETED, NO),
    (Side::Include, "o/s", COPIED, &[Finding::IncludedMissing]),
    (
        Side::Include,
        "o/s",
        REPLACED,
        &[Finding::IncludedStays, Finding::IncludedMissing],
    ),
    (Side::Include, "trunk", MERGED_FROM_TRUNK, NO),
    (
        Side::Include,
        "trunk",
        MERGED_FROM_O,
        &[Finding::MissingMergeSource],
    ),
    (
        Side::Include,
        "trunk",
        MERGED_WITHOUT_COLON,
        &[Finding::UnreadMergeinfo],
    ),
    (Side::Include, "o", MERGED_WITHOUT_COLON, NO),
];

#[test]
fn parents_and_omitted_mergeinfo_are_found(rt: HostRuntime) -> Result<(), Fail> {
    for (side, prefix, node, wanted) in &DIRECTORIES_AND_MERGEINFO {
        assert_found_alone(&rt, rt.alloc(), *side, prefix, node, wanted)?;
    }
    Ok(())
}

/// Asserts the findings in the last node of a partial dump that the filter renumbers.
fn assert_found_in_part(
    rt: &impl Abort,
    alloc: Global,
    node: &str,
    wanted: &[Finding],
) -> Result<(), Fail> {
    let options = Options::include(alloc, &[b"trunk"])?;
    let options = options.with_empty(Empty::DropEmptied).with_renumber(true);
    let dump = format!(in alloc;
        "SVN-fs-dump-format-version: 2\n\nRevision-number: 5\n\nNode-path: o\nNode-action: add\n\n\
        Revision-number: 6\n\nNode-path: trunk\nNode-action: add\n\nRevision-number: 7\n\n{node}\n"
    )?;
    assert_found(rt, alloc, &options, dump.as_str(), node, wanted)
}

const NO_COPY: &[Finding] = &[Finding::MissingCopyRevision];

const NO_MERGE: &[Finding] = &[Finding::MissingMergeRevision];

const IN_PART: [(&str, &[Finding]); 8] = [
    (
        "Node-path: trunk/f\nNode-action: add\nNode-copyfrom-rev: 5\nNode-copyfrom-path: trunk\n\n",
        NO_COPY,
    ),
    (
        "Node-path: trunk/f\nNode-action: add\nNode-copyfrom-rev: 6\nNode-copyfrom-path: trunk\n\n",
        NO,
    ),
    (
        "Node-path: trunk/f\nNode-action: add\nNode-copyfrom-rev: 7\nNode-copyfrom-path: trunk\n\n",
        NO,
    ),
    (
        "Node-path: trunk/f\nNode-action: add\nNode-copyfrom-rev: 8\nNode-copyfrom-path: trunk\n\n",
        NO_COPY,
    ),
    (
        "Node-path: trunk\nNode-action: change\nProp-content-length: 42\nContent-length: 42\n\n\
        K 13\nsvn:mergeinfo\nV 8\n/trunk:4\nPROPS-END\n",
        NO_MERGE,
    ),
    (
        "Node-path: trunk\nNode-action: change\nProp-content-length: 42\nContent-length: 42\n\n\
        K 13\nsvn:mergeinfo\nV 8\n/trunk:5\nPROPS-END\n",
        NO,
    ),
    (
        "Node-path: trunk\nNode-action: change\nProp-content-length: 42\nContent-length: 42\n\n\
        K 13\nsvn:mergeinfo\nV 8\n/trunk:7\nPROPS-END\n",
        NO,
    ),
    (
        "Node-path: trunk\nNode-action: change\nProp-content-length: 42\nContent-length: 42\n\n\
        K 13\nsvn:mergeinfo\nV 8\n/trunk:8\nPROPS-END\n",
        NO_MERGE,
    ),
];

#[test]
fn revisions_without_a_new_number_are_found(rt: HostRuntime) -> Result<(), Fail> {
    for (node, wanted) in &IN_PART {
        assert_found_in_part(&rt, rt.alloc(), node, wanted)?;
    }
    Ok(())
}
