//! The lines of the findings in prefixes.
ghost use Rattle.std.specs.Prelude.{◌≡◌, ◌++◌, OnOk, map};
ghost use Rattle.dump_survey.specs.PrefixFindings.{prefix_view};
ghost use Rattle.dump_survey.specs.PrefixLines.{prefix_line, prefix_lines, prefix_line_words};

use crate::findings::prefix_findings::{PrefixFinding, ReportedPrefix};
use crate::report::survey_lines::push_shown;
use dump_rules::Memory;

/// The words that follow the prefix on its line.
fn prefix_line_words(finding: PrefixFinding) -> &'static [u8]
    ensures { result.now ≡ prefix_line_words finding }
{
    match finding {
        PrefixFinding::NotCanonical => {
            b": not in canonical form, so it matches no path of the loaded repository\n"
        }
        PrefixFinding::Idle => {
            b": no node has a path at or below it, and none is copied from there or to a path above it\n"
        }
    }
}

/// Adds the line of a finding in a prefix.
#[tactic(auto, unfolding(crate::specs::PrefixLines::prefix_line))]
fn push_prefix_line(lines: &mut Vec<u8>, reported: &ReportedPrefix<'_>) -> Result<(), Memory>
    ensures { OnOk result (lines.new.items ≡ lines.old.items ++ prefix_line (prefix_view reported.now)) }
{
    lines.extend_from_slice(b"prefix ")?;
    push_shown(lines, reported.prefix)?;
    Ok(lines.extend_from_slice(prefix_line_words(reported.finding))?)
}

/// Adds the lines of the findings in prefixes.
pub(crate) fn push_prefix_lines(
    lines: &mut Vec<u8>,
    reported: &[ReportedPrefix<'_>],
) -> Result<(), Memory>
    ensures { OnOk result (lines.new.items ≡ lines.old.items ++ prefix_lines (map prefix_view reported.now)) }
{
    for prefix in reported {
        push_prefix_line(lines, prefix)?;
    }
    Ok(())
}
