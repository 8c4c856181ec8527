//! The lines of a survey.
ghost use Rattle.std.specs.Prelude.{◌≡◌, ◌++◌, ◌<◌, [], if◌then◌else◌, IfOk, OnOk, IsTrue, flat_map, decimal, map, option_copied};
ghost use Rattle.std.specs.List.{list_all};
ghost use Rattle.dump_records.specs.steps.RecordViews.{record_item};
ghost use Rattle.dump_digest.specs.RecordParts.{is_node};
ghost use Rattle.dump_survey.specs.AddedPrefixLines.{added_prefix_line, added_prefix_lines, added_prefix_words};
ghost use Rattle.dump_survey.specs.DumpFindings.{has_dump_finding, listed_findings};
ghost use Rattle.dump_survey.specs.DumpReport.{reported_at_end, reported_of_dump};
ghost use Rattle.dump_survey.specs.FindingRows.{finding_row};
ghost use Rattle.dump_survey.specs.Kinds.{kind_lines};
ghost use Rattle.dump_survey.specs.OmittedLine.{omitted_line, omitted_words};
ghost use Rattle.dump_survey.specs.AdviceLines.{parent_line, parent_lines};
ghost use Rattle.dump_survey.specs.Lines.{broken_line, cut_words, dump_line, ending_line, fault_and_place, node_line, place_text, is_control_pair, shown_byte, shown_control, shown_path, shown_text, small_digit, source_text};
ghost use Rattle.dump_survey.specs.PrefixFindings.{prefix_view};
ghost use Rattle.dump_survey.specs.PrefixLines.{prefix_lines};
ghost use Rattle.dump_survey.specs.SurveyEnds.{survey_ending};
ghost use Rattle.dump_survey.specs.Reported.{reported_view};
ghost use Rattle.dump_survey.specs.steps.Counts.{count_in};
ghost use Rattle.dump_survey.specs.steps.LineViews.{is_printable};
ghost use Rattle.dump_survey.specs.steps.Surveyed.{reported_of_node};

use crate::findings::places::Place;
use crate::findings::prefix_findings::ReportedPrefix;
use crate::findings::reported::{ReportedFinding, SurveyedNode};
use crate::findings::surveyor::{End, SurveyEnd};
use crate::report::counts::Counts;
use crate::report::finding_rows::{dump_row, node_row};
use crate::report::kind_lines::push_kind_lines;
use crate::report::prefix_lines::push_prefix_lines;
use dump_history::{DumpFinding, every_dump_finding, every_finding};
use dump_rules::{Memory, Side, bare_path};
use dump_text::{FaultKind, spell};
use std::alloc::Global;

/// The bytes for which the lines of a node have room before they grow: enough for most nodes.
const ROOM: usize = 256;

/// A hexadecimal digit.
fn small_digit(value: u8) -> u8
    requires { value < 16 }
    ensures { result ≡ small_digit value }
{
    if value < 10 {
        b'0' + value
    } else {
        b'a' - 10 + value
    }
}

/// Adds a control character in the form in which it is shown.
#[tactic(auto, unfolding(crate::specs::Lines::shown_control))]
fn push_control(line: &mut Vec<u8>, number: u8) -> Result<(), Memory>
    ensures { OnOk result (line.new.items ≡ line.old.items ++ shown_control number) }
{
    let shown = [
        b'\\',
        b'x',
        small_digit(number / 16),
        small_digit(number % 16),
    ];
    Ok(line.extend_from_slice(&shown)?)
}

/// Adds a byte in the form in which it is shown.
#[tactic(auto, unfolding(crate::specs::Lines::shown_byte))]
fn push_byte(line: &mut Vec<u8>, byte: u8) -> Result<(), Memory>
    ensures { OnOk result (line.new.items ≡ line.old.items ++ shown_byte byte) }
{
    if byte < 32 || byte == 127 {
        push_control(line, byte)
    } else {
        Ok(line.push(byte)?)
    }
}

/// Whether the two bytes are a control character from U+0080 to U+009F in UTF-8.
fn is_control_pair(first: u8, second: u8) -> bool
    ensures { result ≡ is_control_pair first second }
{
    first == 0xc2 && 128 <= second && second < 160
}

/// Whether the text has only printable ASCII characters.
fn is_printable(text: &[u8]) -> bool
    ensures { result ≡ list_all is_printable text.now }
{
    text.iter().all(|byte| *byte >= b' ' && *byte < 127)
}

/// Adds a text in the form in which it is shown. Most texts are shown as they are, and are added at once.
pub(crate) fn push_shown(line: &mut Vec<u8>, text: &[u8]) -> Result<(), Memory>
    ensures { OnOk result (line.new.items ≡ line.old.items ++ shown_text text.now) }
{
    if is_printable(text) {
        return Ok(line.extend_from_slice(text)?);
    }
    let mut rest = text;
    loop {
        rest = match rest {
            [] => return Ok(()),
            [first, second, behind @ ..] if is_control_pair(*first, *second) => {
                push_control(line, *second)?;
                behind
            }
            [byte, behind @ ..] => {
                push_byte(line, *byte)?;
                behind
            }
        };
    }
}

/// Adds a path in the form in which it is shown.
#[tactic(auto, unfolding(crate::specs::Lines::shown_path))]
fn push_path(line: &mut Vec<u8>, path: &[u8]) -> Result<(), Memory>
    ensures { OnOk result (line.new.items ≡ line.old.items ++ shown_path path.now) }
{
    line.push(b'/')?;
    push_shown(line, bare_path(path))
}

/// Adds a number in decimal digits.
pub(crate) fn push_number(line: &mut Vec<u8>, number: u64) -> Result<(), Memory>
    ensures { OnOk result (line.new.items ≡ line.old.items ++ decimal number) }
{
    Ok(line.extend_from_slice(spell(number).bytes())?)
}

/// Adds the place of a record.
#[tactic(auto, unfolding(crate::specs::Lines::place_text))]
fn push_place(line: &mut Vec<u8>, number: u64, place: usize) -> Result<(), Memory>
    ensures { OnOk result (line.new.items ≡ line.old.items ++ place_text number place) }
{
    line.extend_from_slice(b"record ")?;
    push_number(line, number)?;
    line.extend_from_slice(b", byte ")?;
    push_number(line, place as u64)
}

/// Adds, in parentheses, the fault and the place of the record, each if there is one.
#[tactic(auto, unfolding(crate::specs::Lines::fault_and_place))]
pub(crate) fn push_fault_and_place(
    line: &mut Vec<u8>,
    fault: Option<FaultKind>,
    at: Option<Place>,
) -> Result<(), Memory>
    ensures { OnOk result (line.new.items ≡ line.old.items ++ fault_and_place fault at) }
{
    match (fault, at) {
        (None, None) => Ok(()),
        (None, Some(at)) => {
            line.extend_from_slice(b" (")?;
            push_place(line, at.number, at.place)?;
            Ok(line.push(b')')?)
        }
        (Some(kind), None) => {
            line.extend_from_slice(b" (fault ")?;
            push_number(line, u64::from(kind.code()))?;
            Ok(line.push(b')')?)
        }
        (Some(kind), Some(at)) => {
            line.extend_from_slice(b" (fault ")?;
            push_number(line, u64::from(kind.code()))?;
            line.extend_from_slice(b", ")?;
            push_place(line, at.number, at.place)?;
            Ok(line.push(b')')?)
        }
    }
}

/// Adds the copy source of a node.
#[tactic(auto, unfolding(crate::specs::Lines::source_text))]
fn push_source(line: &mut Vec<u8>, reported: &ReportedFinding<'_, '_>) -> Result<(), Memory>
    ensures { OnOk result (line.new.items ≡ line.old.items ++ source_text (reported_view reported.now)) }
{
    line.extend_from_slice(b", copied from ")?;
    push_path(line, reported.copy_path)?;
    line.push(b'@')?;
    push_number(line, reported.copy_revision)
}

/// Adds the copy source of the node, if the finding's line states it.
fn push_reported_source(
    line: &mut Vec<u8>,
    reported: &ReportedFinding<'_, '_>,
) -> Result<(), Memory>
    ensures { OnOk result (line.new.items ≡ line.old.items
        ++ (if (finding_row reported.now.finding).states_source then source_text (reported_view reported.now) else [])) }
{
    if node_row(reported.finding).states_source {
        push_source(line, reported)?;
    }
    Ok(())
}

/// Adds the prefix that causes the finding, if there is one.
#[tactic(auto, unfolding(crate::specs::Lines::cut_words))]
fn push_cut(line: &mut Vec<u8>, prefix: Option<&[u8]>) -> Result<(), Memory>
    ensures { OnOk result (line.new.items ≡ line.old.items ++ cut_words (option_copied prefix.entry)) }
{
    let Some(prefix) = prefix else {
        return Ok(());
    };
    line.extend_from_slice(b": prefix ")?;
    push_shown(line, prefix)
}

/// Adds the line of a finding in a node.
#[tactic(auto, unfolding(crate::specs::Lines::node_line))]
pub(crate) fn push_node_line(
    lines: &mut Vec<u8>,
    reported: &ReportedFinding<'_, '_>,
) -> Result<(), Memory>
    ensures { OnOk result (lines.new.items ≡ lines.old.items ++ node_line (reported_view reported.now)) }
{
    let row = node_row(reported.finding);
    let at = Place {
        number: reported.number,
        place: reported.place,
    };
    lines.push(b'r')?;
    push_number(lines, reported.revision)?;
    lines.extend_from_slice(b": ")?;
    push_path(lines, reported.path)?;
    push_reported_source(lines, reported)?;
    lines.extend_from_slice(b": ")?;
    lines.extend_from_slice(row.words)?;
    push_cut(lines, reported.prefix)?;
    push_fault_and_place(lines, row.kind.fault, Some(at))?;
    Ok(lines.push(b'\n')?)
}

/// Adds the line of a finding in the dump as a whole, if it is found, with the place of the first record that causes
/// it.
#[tactic(auto, unfolding(crate::specs::Lines::dump_line, crate::specs::steps::LineViews::kind_view))]
fn push_dump_line(lines: &mut Vec<u8>, end: &SurveyEnd, finding: DumpFinding) -> Result<(), Memory>
    ensures { OnOk result (lines.new.items ≡ lines.old.items
        ++ (if has_dump_finding end.now.dump finding
        then dump_line (reported_of_dump end.now finding) else [])) }
{
    if !end.dump.has(finding) {
        return Ok(());
    }
    let row = dump_row(finding);
    lines.extend_from_slice(row.words)?;
    push_fault_and_place(lines, row.kind.fault, end.places.of(finding))?;
    Ok(lines.push(b'\n')?)
}

/// Adds the lines of the findings in the dump as a whole.
fn push_dump_lines(lines: &mut Vec<u8>, end: &SurveyEnd) -> Result<(), Memory>
    ensures { OnOk result (lines.new.items ≡ lines.old.items ++ flat_map dump_line (reported_at_end end.now)) }
{
    for finding in every_dump_finding() {
        push_dump_line(lines, end, *finding)?;
    }
    Ok(())
}

/// Adds the line of a fault: no record begins at this place.
#[tactic(auto, unfolding(crate::specs::Lines::broken_line))]
fn push_broken_line(lines: &mut Vec<u8>, kind: FaultKind, at: Place) -> Result<(), Memory>
    ensures { OnOk result (lines.new.items ≡ lines.old.items ++ broken_line kind at) }
{
    lines.extend_from_slice(b"the dump cannot be read from here on: ")?;
    lines.extend_from_slice(kind.name().as_bytes())?;
    push_fault_and_place(lines, Some(kind), Some(at))?;
    Ok(lines.push(b'\n')?)
}

/// Adds the line that says why the list of records ends before the dump does, if it does; `count` is the number of
/// records.
fn push_ending_line(lines: &mut Vec<u8>, count: u64, end: End) -> Result<(), Memory>
    ensures { OnOk result (lines.new.items ≡ lines.old.items ++ ending_line count (survey_ending end)) }
{
    match end {
        End::Whole => Ok(()),
        End::Broken { kind, place } => {
            let at = Place {
                number: count,
                place,
            };
            push_broken_line(lines, kind, at)
        }
    }
}

/// The lines of what is known after `count` records, and then one line for each kind of finding.
pub(crate) fn end_lines(
    alloc: Global,
    count: u64,
    end: &SurveyEnd,
    prefixes: &[ReportedPrefix<'_>],
    counts: &Counts,
) -> Result<Vec<u8>, Memory>
    ensures { IfOk result (λ lines. lines.items ≡ flat_map dump_line (reported_at_end end.now)
        ++ (prefix_lines (map prefix_view prefixes.now) ++ (ending_line count (survey_ending end.now.end)
        ++ kind_lines (count_in counts.now) (listed_findings end.now.dump) (map prefix_view prefixes.now)
        (survey_ending end.now.end)))) }
{
    let mut lines = Vec::new(alloc);
    push_dump_lines(&mut lines, end)?;
    push_prefix_lines(&mut lines, prefixes)?;
    push_ending_line(&mut lines, count, end.end)?;
    push_kind_lines(&mut lines, counts, end, prefixes)?;
    Ok(lines)
}

/// The lines of the findings in a node.
pub(crate) fn node_lines(alloc: Global, node: &SurveyedNode<'_, '_>) -> Result<Vec<u8>, Memory>
    requires { IsTrue (is_node (record_item node.now.item)) }
    ensures { IfOk result (λ lines. lines.items ≡ flat_map node_line (reported_of_node node.now)) }
{
    let mut lines = Vec::with_capacity(alloc, ROOM)?;
    for finding in every_finding() {
        if node.found.has(*finding) {
            push_node_line(&mut lines, &node.reported(*finding))?;
        }
    }
    Ok(lines)
}

/// The words that precede the path on the line of a prefix to add.
fn added_prefix_words(side: Side) -> &'static [u8]
    ensures { result.now ≡ added_prefix_words side }
{
    match side {
        Side::Include => b"also include: ",
        Side::Exclude => b"also exclude: ",
    }
}

/// Adds the line of a prefix to add.
#[tactic(auto, unfolding(crate::specs::AddedPrefixLines::added_prefix_line))]
fn push_added_prefix_line(lines: &mut Vec<u8>, side: Side, path: &[u8]) -> Result<(), Memory>
    ensures { OnOk result (lines.new.items ≡ lines.old.items ++ added_prefix_line side path.now) }
{
    lines.extend_from_slice(added_prefix_words(side))?;
    push_path(lines, path)?;
    Ok(lines.push(b'\n')?)
}

/// The lines of the prefixes to add.
pub(crate) fn added_prefix_lines(
    alloc: Global,
    side: Side,
    paths: &[&[u8]],
) -> Result<Vec<u8>, Memory>
    ensures { IfOk result (λ lines. lines.items ≡ added_prefix_lines side (map (λ path. path.now) paths.now)) }
{
    let mut lines = Vec::new(alloc);
    for path in paths {
        push_added_prefix_line(&mut lines, side, path)?;
    }
    Ok(lines)
}

/// Adds the line of a directory to create.
#[tactic(auto, unfolding(crate::specs::AdviceLines::parent_line))]
fn push_parent_line(lines: &mut Vec<u8>, path: &[u8]) -> Result<(), Memory>
    ensures { OnOk result (lines.new.items ≡ lines.old.items ++ parent_line path.now) }
{
    lines.extend_from_slice(b"create first: ")?;
    push_path(lines, path)?;
    Ok(lines.push(b'\n')?)
}

/// The lines of the directories to create.
pub(crate) fn parent_lines(alloc: Global, directories: &[&[u8]]) -> Result<Vec<u8>, Memory>
    ensures { IfOk result (λ lines. lines.items ≡ parent_lines (map (λ path. path.now) directories.now)) }
{
    let mut lines = Vec::new(alloc);
    for path in directories {
        push_parent_line(&mut lines, path)?;
    }
    Ok(lines)
}

/// The words that follow the number on the line about dropped lines of mergeinfo.
fn omitted_words(count: usize) -> &'static [u8]
    ensures { result.now ≡ omitted_words count }
{
    if count == 1 {
        b" line of an excluded path\n"
    } else {
        b" lines of excluded paths\n"
    }
}

/// The line with the number of dropped lines of mergeinfo; empty if the number is 0.
#[tactic(auto, unfolding(crate::specs::OmittedLine::omitted_line))]
pub(crate) fn omitted_line(alloc: Global, count: usize) -> Result<Vec<u8>, Memory>
    ensures { IfOk result (λ line. line.items ≡ omitted_line count) }
{
    let mut line = Vec::new(alloc);
    if count > 0 {
        line.extend_from_slice(b"dropped from svn:mergeinfo: ")?;
        push_number(&mut line, count as u64)?;
        line.extend_from_slice(omitted_words(count))?;
    }
    Ok(line)
}
