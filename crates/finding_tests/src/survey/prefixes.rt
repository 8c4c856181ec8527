//! The findings in prefixes, on an example dump.
use super::rules;
use dump_rules::Side;
use dump_survey::{PrefixFinding, ReportedPrefix, survey_dump};
use std::alloc::Global;
use std::test::Fail;

/// A directory, a copy of it, and a copy of a directory below that copy.
const COPIES: &[u8] = b"SVN-fs-dump-format-version: 2\n\n\
Revision-number: 0\n\n\
Revision-number: 1\n\n\
Node-path: t\nNode-kind: dir\nNode-action: add\n\n\n\
Revision-number: 2\n\n\
Node-path: /b\nNode-kind: dir\nNode-action: add\nNode-copyfrom-rev: 1\nNode-copyfrom-path: t\n\n\n\
Node-path: g\nNode-kind: dir\nNode-action: add\nNode-copyfrom-rev: 1\nNode-copyfrom-path: b/f\n\n\n";

/// Whether exactly these prefixes have this finding; `words` has a blank after each.
fn are_reported(reported: &[ReportedPrefix<'_>], finding: PrefixFinding, words: &str) -> bool {
    let mut rest = words.as_bytes();
    for one in reported {
        if one.finding == finding {
            match rest.strip_prefix(one.prefix) {
                Some([b' ', behind @ ..]) => rest = behind,
                _ => return false,
            }
        }
    }
    rest.is_empty()
}

/// Whether the survey reports, of the prefixes in `words`, exactly those in `not_canonical` as not canonical and those in
/// `idle` as idle.
fn finds(alloc: Global, words: &str, not_canonical: &str, idle: &str) -> Result<bool, Fail> {
    let options = rules(alloc, Side::Exclude, words)?;
    let survey = survey_dump(alloc, COPIES, &options)?;
    Ok(
        are_reported(&survey.prefixes, PrefixFinding::NotCanonical, not_canonical)
            && are_reported(&survey.prefixes, PrefixFinding::Idle, idle),
    )
}

/// Each row has the prefixes with a blank between two, the ones that aren't canonical, and the ones that are idle.
#[test]
fn prefixes_are_reported_in_their_order(rt: HostRuntime) -> Result<(), Fail> {
    let rows = [
        ("t /t/ / b/f g b/ff /b/x/y/ g/x", "", ""),
        ("T ./t t", "./t ", "T "),
        ("t//f . // t/.", "t//f . t/. ", ""),
        ("z .. bb/f gg t t/x z/", "", "z .. bb/f gg t/x z/ "),
    ];
    for (words, not_canonical, idle) in rows {
        assert!(rt; finds(rt.alloc(), words, not_canonical, idle)?, "{words}");
    }
    Ok(())
}
