//! The lines that count the findings, one line for each kind, with advice.
ghost use Rattle.std.specs.Prelude.{◌≡◌, ◌++◌, [], if◌then◌else◌, OnOk, flat_map, map};
ghost use Rattle.dump_survey.specs.DumpFindings.{has_dump_finding, listed_findings};
ghost use Rattle.dump_survey.specs.FindingRows.{finding_row};
ghost use Rattle.dump_survey.specs.Kinds.{broken_kind, dump_kind_line, ending_kind_line, kind_line, kind_lines, prefix_kind, times_in_prefixes};
ghost use Rattle.dump_survey.specs.PrefixFindings.{prefix_view};
ghost use Rattle.dump_survey.specs.SurveyEnds.{survey_ending};
ghost use Rattle.dump_survey.specs.steps.Counts.{count_in};
ghost use Rattle.dump_survey.specs.steps.LineViews.{kind_view};

use crate::findings::prefix_findings::{PrefixFinding, ReportedPrefix};
use crate::findings::surveyor::{End, SurveyEnd};
use crate::findings::tally::DumpFindings;
use crate::report::counts::Counts;
use crate::report::finding_rows::{Kind, dump_row, node_row};
use crate::report::survey_lines::{push_fault_and_place, push_number};
use dump_history::{DumpFinding, Finding, every_dump_finding, every_finding};
use dump_rules::Memory;

/// The parts of the line of a kind of finding in prefixes.
#[tactic(auto, unfolding(crate::specs::Kinds::prefix_kind, crate::specs::steps::LineViews::kind_view))]
fn prefix_kind(finding: PrefixFinding) -> Kind
    ensures { kind_view result ≡ prefix_kind finding }
{
    match finding {
        PrefixFinding::NotCanonical => Kind {
            what: b"prefixes that are not in canonical form",
            fault: None,
            advice: b"write them without empty names and without single dots",
        },
        PrefixFinding::Idle => Kind {
            what: b"prefixes that match nothing in the dump",
            fault: None,
            advice: b"check that they are spelled as in the dump",
        },
    }
}

/// The parts of the line that says that the dump can't be read to its end.
#[tactic(auto, unfolding(crate::specs::Kinds::broken_kind, crate::specs::steps::LineViews::kind_view))]
fn broken_kind() -> Kind
    ensures { kind_view result ≡ broken_kind }
{
    Kind {
        what: b"a dump that cannot be read to its end",
        fault: None,
        advice: b"dump the repository again",
    }
}

/// Adds the line of a kind with its number of findings, unless the number is 0.
#[tactic(auto, unfolding(crate::specs::Kinds::kind_line, crate::specs::steps::LineViews::kind_view))]
fn push_kind_line(lines: &mut Vec<u8>, times: u64, kind: &Kind) -> Result<(), Memory>
    ensures { OnOk result (lines.new.items ≡ lines.old.items ++ kind_line times (kind_view kind.now)) }
{
    if times == 0 {
        return Ok(());
    }
    lines.extend_from_slice(b"total ")?;
    push_number(lines, times)?;
    lines.extend_from_slice(b": ")?;
    lines.extend_from_slice(kind.what)?;
    push_fault_and_place(lines, kind.fault, None)?;
    lines.extend_from_slice(b": ")?;
    lines.extend_from_slice(kind.advice)?;
    Ok(lines.push(b'\n')?)
}

/// Adds the lines of these kinds, each if it was reported of a node.
fn push_node_kinds(lines: &mut Vec<u8>, counts: &Counts, findings: &[Finding]) -> Result<(), Memory>
    ensures { OnOk result (lines.new.items ≡ lines.old.items
        ++ flat_map (λ f. kind_line (count_in counts.now f) (finding_row f).kind) findings.now) }
{
    for finding in findings {
        push_kind_line(lines, counts.of(*finding), &node_row(*finding).kind)?;
    }
    Ok(())
}

/// Adds the line of a finding in the dump as a whole, if it was found.
fn push_dump_kind(
    lines: &mut Vec<u8>,
    found: &DumpFindings,
    finding: DumpFinding,
) -> Result<(), Memory>
    ensures { OnOk result (lines.new.items ≡ lines.old.items
        ++ (if has_dump_finding found.now finding then dump_kind_line finding else [])) }
{
    if found.has(finding) {
        push_kind_line(lines, 1, &dump_row(finding).kind)?;
    }
    Ok(())
}

/// Adds the lines of the findings in the dump as a whole.
fn push_dump_kinds(lines: &mut Vec<u8>, found: &DumpFindings) -> Result<(), Memory>
    ensures { OnOk result (lines.new.items ≡ lines.old.items
        ++ flat_map dump_kind_line (listed_findings found.now)) }
{
    for finding in every_dump_finding() {
        push_dump_kind(lines, found, *finding)?;
    }
    Ok(())
}

/// The number of prefixes that have this finding.
fn times_in(reported: &[ReportedPrefix<'_>], finding: PrefixFinding) -> u64
    ensures { result ≡ times_in_prefixes (map prefix_view reported.now) finding }
{
    let mut times = 0u64;
    for prefix in reported {
        if prefix.finding == finding {
            times += 1;
        }
    }
    times
}

/// Adds the line of a kind of finding in prefixes, if a prefix has it.
fn push_prefix_kind(
    lines: &mut Vec<u8>,
    reported: &[ReportedPrefix<'_>],
    finding: PrefixFinding,
) -> Result<(), Memory>
    ensures { OnOk result (lines.new.items ≡ lines.old.items
        ++ kind_line (times_in_prefixes (map prefix_view reported.now) finding) (prefix_kind finding)) }
{
    push_kind_line(lines, times_in(reported, finding), &prefix_kind(finding))
}

/// Adds the line that says why the list of records ends before the dump does, if it does.
fn push_ending_kind(lines: &mut Vec<u8>, end: End) -> Result<(), Memory>
    ensures { OnOk result (lines.new.items ≡ lines.old.items ++ ending_kind_line (survey_ending end)) }
{
    match end {
        End::Whole => Ok(()),
        End::Broken { .. } => push_kind_line(lines, 1, &broken_kind()),
    }
}

/// Adds one line for each kind of finding.
pub(crate) fn push_kind_lines(
    lines: &mut Vec<u8>,
    counts: &Counts,
    end: &SurveyEnd,
    prefixes: &[ReportedPrefix<'_>],
) -> Result<(), Memory>
    ensures { OnOk result (lines.new.items ≡ lines.old.items ++ kind_lines (count_in counts.now)
        (listed_findings end.now.dump) (map prefix_view prefixes.now) (survey_ending end.now.end)) }
{
    push_node_kinds(lines, counts, every_finding())?;
    push_dump_kinds(lines, &end.dump)?;
    push_prefix_kind(lines, prefixes, PrefixFinding::NotCanonical)?;
    push_prefix_kind(lines, prefixes, PrefixFinding::Idle)?;
    push_ending_kind(lines, end.end)
}
