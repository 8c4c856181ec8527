//! Tests of what no contract says: example dumps that have each finding once.
use dump_rules::{Empty, Options, Side};
use dump_survey::laws::{
    each_dump_has_one_survey, each_report_is_found, each_silent_survey_restricts,
};
use dump_survey::{DumpFindings, End, Finding, Memory, Survey, survey_dump};
use dump_text::FaultKind;
use std::alloc::{AllocError, Global};
use std::process::Abort;
use std::test::Fail;

mod added_prefixes;
mod cuts;
mod map;
mod nodes;
mod omitted;
mod parents;
mod prefixes;
mod text;

fn plain(alloc: Global, side: Side, prefixes: &[&[u8]]) -> Result<Options, Memory> {
    Options::new(alloc, side, prefixes, Empty::Pad, false, false, false)
}

/// Options with these prefixes; `words` has them with a blank between two.
fn rules(alloc: Global, side: Side, words: &str) -> Result<Options, Fail> {
    let prefixes = prefixes_in(alloc, words)?;
    Ok(plain(alloc, side, &prefixes)?)
}

fn prefixes_in<'a>(alloc: Global, words: &'a str) -> Result<Vec<&'a [u8]>, AllocError> {
    let mut prefixes = Vec::new(alloc);
    for word in words.split(' ') {
        prefixes.push(word.as_bytes())?;
    }
    Ok(prefixes)
}

/// Whether `words` consists of these paths with a blank after each.
fn are_words(paths: &[&[u8]], words: &str) -> bool {
    let mut rest = words.as_bytes();
    for path in paths {
        match rest.strip_prefix(*path) {
            Some([b' ', behind @ ..]) => rest = behind,
            _ => return false,
        }
    }
    rest.is_empty()
}

const NOTHING: DumpFindings = DumpFindings {
    no_revision: false,
    other_numbers: false,
    number_falls: false,
    unread_revision: false,
    node_in_first: false,
    source_before: false,
    node_outside: false,
    numbers_left: false,
};

/// Whether the survey found this in the dump as a whole, and the records end as in `end`.
fn ends_with(survey: &Survey<'_, '_>, dump: DumpFindings, end: End) -> bool {
    survey.end.dump == dump && survey.end.end == end
}

const ONE_NODE: &[u8] = b"SVN-fs-dump-format-version: 2\n\n\
Revision-number: 0\n\n\
Revision-number: 7\n\n\
Node-path: trunk//a\nNode-action: change\n\n\n";

/// Whether the survey reports exactly one finding, with its place.
fn is_odd_alone(survey: &Survey<'_, '_>) -> bool {
    match survey.reported.as_slice() {
        [reported] => {
            reported.finding == Finding::TextReadDifferently
                && (reported.number, reported.place, reported.revision) == (3, 71, 7)
                && reported.path == b"trunk//a".as_slice()
                && reported.prefix.is_none()
        }
        _ => false,
    }
}

#[test]
fn a_finding_is_reported_with_its_place(rt: HostRuntime) -> Result<(), Fail> {
    each_report_is_found();
    each_dump_has_one_survey();
    each_silent_survey_restricts();
    let options = rules(rt.alloc(), Side::Include, "trunk")?;
    let survey = survey_dump(rt.alloc(), ONE_NODE, &options)?;
    assert!(rt; is_odd_alone(&survey) && ends_with(&survey, GAP, End::Whole));
    Ok(())
}

const GAP: DumpFindings = DumpFindings {
    other_numbers: true,
    ..NOTHING
};

const NONE: DumpFindings = DumpFindings {
    no_revision: true,
    ..NOTHING
};

const FIRST: DumpFindings = DumpFindings {
    node_in_first: true,
    ..NOTHING
};

const OUTSIDE_OF_ANY: DumpFindings = DumpFindings {
    node_outside: true,
    ..NOTHING
};

const EARLY: DumpFindings = DumpFindings {
    source_before: true,
    ..NOTHING
};

const FALLS: DumpFindings = DumpFindings {
    other_numbers: true,
    number_falls: true,
    ..NOTHING
};

const UNREAD: DumpFindings = DumpFindings {
    unread_revision: true,
    ..NOTHING
};

const BROKEN: End = End::Broken {
    kind: FaultKind::HeaderCut,
    place: 31,
};

/// Each row has the records after the version record, the findings in the dump as a whole, and how the records end.
const ENDS: [(&str, DumpFindings, End); 13] = [
    ("", NONE, End::Whole),
    ("Revision-number: 0", NONE, BROKEN),
    ("Revision-number: 0\n\n", NOTHING, End::Whole),
    ("Revision-number: 0\n\nNode-path: a\n\n", FIRST, End::Whole),
    (
        "Revision-number: 0\n\nUUID: a\n\nNode-path: a\n\n",
        OUTSIDE_OF_ANY,
        End::Whole,
    ),
    // The survey reports a partial dump if `svnadmin load` would not load it.
    (
        "Revision-number: 5\n\nNode-path: a\n\n",
        NOTHING,
        End::Whole,
    ),
    (
        "Revision-number: 5\n\nNode-path: a\n\nRevision-number: 7\n\n",
        GAP,
        End::Whole,
    ),
    (
        "Revision-number: 5\n\nNode-path: a\nNode-action: add\nNode-copyfrom-path: b\nNode-copyfrom-rev: 5\n\n",
        NOTHING,
        End::Whole,
    ),
    (
        "Revision-number: 5\n\nNode-path: a\nNode-action: add\nNode-copyfrom-path: b\nNode-copyfrom-rev: 4\n\n",
        EARLY,
        End::Whole,
    ),
    // The survey also reports a revision at which the filter stops.
    (
        "Revision-number: 5\n\nRevision-number: 5\n\n",
        FALLS,
        End::Whole,
    ),
    (
        "Revision-number: 5\n\nRevision-number: 4\n\n",
        FALLS,
        End::Whole,
    ),
    (
        "Revision-number: 5\nProp-content-length: 2\n\nx\n",
        UNREAD,
        End::Whole,
    ),
    (
        "Revision-number: 5\n\nNode-path: a\nNode-action: add\nProp-content-length: 2\n\nx\n\n\n",
        NOTHING,
        End::Whole,
    ),
];

/// Whether the survey finds this in a dump with these records, and the records end as in `end`.
fn is_found_at_end(
    alloc: Global,
    records: &str,
    found: DumpFindings,
    end: End,
) -> Result<bool, Fail> {
    let dump = format!(in alloc; "SVN-fs-dump-format-version: 2\n\n{records}")?;
    let options = rules(alloc, Side::Include, "trunk")?;
    let survey = survey_dump(alloc, dump.as_bytes(), &options)?;
    Ok(ends_with(&survey, found, end))
}

#[test]
fn what_is_found_in_a_dump_is_reported_at_its_end(rt: HostRuntime) -> Result<(), Fail> {
    for (records, found, end) in &ENDS {
        assert!(rt;
            is_found_at_end(rt.alloc(), records, *found, *end)?,
            "{records}"
        );
    }
    Ok(())
}

/// The nodes that may follow a dropped revision: a copy, mergeinfo, neither of these, and an excluded copy.
const COPY: &str =
    "Node-path: t/b\nNode-action: add\nNode-copyfrom-rev: 1\nNode-copyfrom-path: t/a\n\n";

const MERGE: &str = "Node-path: t/a\nNode-action: change\nProp-content-length: 42\n\n\
K 13\nsvn:mergeinfo\nV 8\n/trunk:1\nPROPS-END\n\n";

const NEITHER: &str = "Node-path: t/a\nNode-action: change\n\n";

const OUTSIDE: &str =
    "Node-path: b\nNode-action: add\nNode-copyfrom-rev: 1\nNode-copyfrom-path: t\n\n";

/// Each row has two options, the node that follows the dropped revision, and whether `numbers_left` is found.
const LEFT: [(Empty, bool, &str, bool); 6] = [
    (Empty::Pad, false, COPY, false),
    (Empty::DropEmptied, true, COPY, false),
    (Empty::DropEmptied, false, COPY, true),
    (Empty::DropEmptied, false, MERGE, true),
    (Empty::DropEmptied, false, NEITHER, false),
    (Empty::DropEmptied, false, OUTSIDE, false),
];

/// A dump that has this node in revision 3. The filter may drop revision 2.
fn behind_a_dropped_one(alloc: Global, node: &str) -> Result<String, AllocError> {
    format!(in alloc;
        "SVN-fs-dump-format-version: 2\n\nRevision-number: 0\n\nRevision-number: 1\n\n{NEITHER}\n\
Revision-number: 2\n\nNode-path: o\nNode-action: add\n\n\nRevision-number: 3\n\n{node}"
    )
}

/// Whether `numbers_left` is found in a dump with this node.
fn leaves_numbers(alloc: Global, empty: Empty, renumber: bool, node: &str) -> Result<bool, Fail> {
    let dump = behind_a_dropped_one(alloc, node)?;
    let prefixes = [b"t".as_slice()];
    let options = Options::include(alloc, &prefixes)?;
    let options = options.with_empty(empty).with_renumber(renumber);
    let survey = survey_dump(alloc, dump.as_bytes(), &options)?;
    Ok(survey.end.dump.numbers_left)
}

#[test]
fn a_dropped_revision_leaves_the_others_their_numbers(rt: HostRuntime) -> Result<(), Fail> {
    for (empty, renumber, node, left) in &LEFT {
        let found = leaves_numbers(rt.alloc(), *empty, *renumber, node)?;
        assert!(rt; found == *left, "{node}");
    }
    Ok(())
}

const COPIED: &[u8] = b"SVN-fs-dump-format-version: 2\n\n\
Revision-number: 0\n\n\
Revision-number: 1\n\n\
Node-path: b\nNode-kind: dir\nNode-action: add\nNode-copyfrom-rev: 0\nNode-copyfrom-path: t\n\n\n";

/// Options with one prefix; the error is that memory ran out.
fn one_prefix(alloc: Global, side: Side, prefix: &[u8]) -> Result<Options, Memory> {
    plain(alloc, side, &[prefix])
}

fn tells_one_of_each(survey: &Survey<'_, '_>) -> bool {
    survey.reported.len() == 1
        && survey.prefixes.len() == 1
        && ends_with(survey, NOTHING, End::Whole)
}

/// The test runner repeats this with each allocation failing in turn. The survey is complete, or the error is
/// `Memory`.
#[test]
fn a_survey_or_no_memory(rt: HostRuntime) {
    let Ok(options) = one_prefix(rt.alloc(), Side::Exclude, b"t/f") else {
        return;
    };
    let answered = match survey_dump(rt.alloc(), COPIED, &options) {
        Ok(survey) => tells_one_of_each(&survey),
        Err(refused) => refused == Memory,
    };
    assert!(rt; answered);
}
