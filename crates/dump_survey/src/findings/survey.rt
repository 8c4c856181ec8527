//! The survey of a whole dump.
ghost use Rattle.std.specs.Prelude.{IfOk};
ghost use Rattle.dump_survey.specs.Surveys.{IsSurveyOf};

use crate::findings::prefix_findings::ReportedPrefix;
use crate::findings::reported::ReportedFinding;
use crate::findings::surveyor::{Step, SurveyEnd, Surveyor};
use dump_rules::{Memory, Options};
use std::alloc::Global;

/// All findings in a dump.
#[derive(Drop)]
pub struct Survey<'o, 'a> {
    /// The findings in nodes, in the dump's order.
    pub reported: Vec<ReportedFinding<'o, 'a>>,
    /// The findings in prefixes, in the order of the prefixes.
    pub prefixes: Vec<ReportedPrefix<'o>>,
    pub end: SurveyEnd,
}

/// Surveys a dump for the filter under these options. It keeps all findings in memory; a caller that wants to write
/// each finding at once uses a `Surveyor`.
pub fn survey_dump<'o, 'a>(
    alloc: Global,
    dump: &'a [u8],
    options: &'o Options,
) -> Result<Survey<'o, 'a>, Memory>
    ensures { IfOk result (λ survey. IsSurveyOf options.now dump.now survey) }
{
    let mut surveyor = Surveyor::new(alloc, dump, options)?;
    let mut reported = Vec::new(alloc);
    loop {
        match surveyor.next(alloc)? {
            Step::Node(node) => node.report(&mut reported)?,
            Step::Other => {}
            Step::Finished(end) => {
                let prefixes = surveyor.reported_prefixes(alloc)?;
                return Ok(Survey {
                    reported,
                    prefixes,
                    end,
                });
            }
        }
    }
}
