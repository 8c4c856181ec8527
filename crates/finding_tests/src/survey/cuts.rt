//! The prefix that a survey reports with a copy that is filtered differently from its source.
use super::{COPIED, rules};
use dump_rules::Side;
use dump_survey::{Finding, ReportedFinding, survey_dump};
use std::test::Fail;

/// Whether this finding names this prefix.
fn names(reported: &ReportedFinding<'_, '_>, finding: Finding, prefix: &[u8]) -> bool {
    reported.finding == finding && reported.prefix == Some(prefix)
}

/// Whether there are two reports, one of what a copy loses and one of what it brings back, with these prefixes.
fn are_cut(reported: &[ReportedFinding<'_, '_>]) -> bool {
    match reported {
        [loses, lets_in] => {
            names(loses, Finding::CopyLoses, b"/t/f/")
                && names(lets_in, Finding::CopyLetsIn, b"b/g")
        }
        _ => false,
    }
}

#[test]
fn the_first_prefix_that_cuts_is_reported(rt: HostRuntime) -> Result<(), Fail> {
    let options = rules(rt.alloc(), Side::Exclude, "o b/g /t/f/ t/e b/a")?;
    let survey = survey_dump(rt.alloc(), COPIED, &options)?;
    assert!(rt; are_cut(&survey.reported));
    Ok(())
}
