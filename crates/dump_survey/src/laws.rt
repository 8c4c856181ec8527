//! Laws of surveys; each is the contract of a function that does nothing.
ghost use Rattle.dump_survey.specs.OnceLaws.{RevisionMapIsOnce, SurveyTextIsOnce};
ghost use Rattle.dump_survey.specs.SurveyTies.{EachCutNamesPrefix, SilentSurveyRestricts, SilentTextLeavesDigests, SilentTextRestricts, ReportsAreFindings, ReportedOnce};

/// A survey reports one list of findings in a dump's nodes, and the list has exactly the findings in them, in order.
/// With each finding that a copy is filtered differently from its source it reports a prefix that causes this.
pub fn each_report_is_found()
    ensures found { ReportsAreFindings }
    ensures once { ReportedOnce }
    ensures prefixes { EachCutNamesPrefix }
{}

/// If a survey reports nothing that matters, or its text says that nothing is found, the dump makes revisions, and the
/// law of filtered dumps holds.
pub fn each_silent_survey_restricts()
    ensures survey { SilentSurveyRestricts }
    ensures text { SilentTextRestricts }
{}

/// If the text of a survey says that nothing is found, only the digest of a text can make the filter stop at a record:
/// the records reach the end of the dump, and none of them has another fault.
pub fn each_silent_survey_leaves_digests()
    ensures { SilentTextLeavesDigests }
{}

/// Under given options a dump has one text of a survey and one map of revisions.
pub fn each_dump_has_one_survey()
    ensures text { SurveyTextIsOnce }
    ensures map { RevisionMapIsOnce }
{}
