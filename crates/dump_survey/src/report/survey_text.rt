//! The text of a survey, which is written while the survey reads the dump, and the advice that follows it.
ghost use Rattle.std.specs.Prelude.{◌≡◌, ◌≢◌, ◌==◌, List, ℕ, Err, IfOk, IsFalse, OnErr, OnOk, length, not};
ghost use Rattle.std.specs.Io.KnownBytes.{Appends};
ghost use Rattle.dump_writer.specs.SinkWords.{HasFailedSince, TakesPart};
ghost use Rattle.dump_survey.specs.declared.report.survey_text.SurveyFailure.TheVariants as failures;
ghost use Rattle.dump_survey.specs.SurveyText.{IsSurveyText, FindsNothing, BreaksOffSurvey};
ghost use Rattle.dump_survey.specs.AddedPrefixLines.{AreAddedPrefixLines};
ghost use Rattle.dump_survey.specs.AdviceLines.{AreAdviceLines, TakesSomeAdvice};

use crate::advice::added_prefixes::prefixes_to_add;
use crate::advice::omitted_mergeinfo::omitted_lines;
use crate::advice::parents::parents_to_create;
use crate::findings::surveyor::{Step, Surveyor};
use crate::report::counts::Counts;
use crate::report::survey_lines::{
    added_prefix_lines, end_lines, node_lines, omitted_line, parent_lines,
};
use dump_rules::{Memory, Options};
use dump_writer::{Chunk, Piece, Sink, write_piece};
use std::alloc::Global;

/// Why a survey wasn't written completely.
#[derive(Clone, Copy, Debug, PartialEq, Eq)]
pub enum SurveyFailure {
    /// Memory ran out.
    Memory,
    /// The sink failed.
    Sink,
}

impl From<Memory> for SurveyFailure {
    ghost from_gives = { λ _ r. r ≡ failures.Memory };

    fn from(_memory: Memory) -> SurveyFailure {
        SurveyFailure::Memory
    }
}

impl From<dump_writer::Memory> for SurveyFailure {
    ghost from_gives = { λ _ r. r ≡ failures.Memory };

    fn from(_memory: dump_writer::Memory) -> SurveyFailure {
        SurveyFailure::Memory
    }
}

/// Writes lines, and returns whether there are any.
pub(crate) fn write_lines<S: Sink>(
    alloc: Global,
    sink: &mut S,
    lines: Vec<u8>,
) -> Result<bool, SurveyFailure>
    ensures whole { IfOk result (λ _. Appends (S.taken sink.old) (S.taken sink.new) lines.items) }
    ensures some { IfOk result (λ some. some ≡ not (length lines.items == 0)) }
    ensures part { OnErr result (TakesPart (S.taken sink.old) (S.taken sink.new) lines.items) }
    ensures no_failure { result ≢ Err SurveyFailure.Sink → S.failure_count sink.new ≡ S.failure_count sink.old }
    ensures failed { result ≡ Err SurveyFailure.Sink
        → HasFailedSince (S.failure_count sink.old) (S.failure_count sink.new) }
    ensures through { S.through sink.new ≡ S.through sink.old }
{
    let some = !lines.is_empty();
    let mut piece = Piece::new(alloc);
    piece.push(Chunk::Own(lines))?;
    match write_piece(sink, &piece) {
        Ok(()) => Ok(some),
        Err(_) => Err(SurveyFailure::Sink),
    }
}

/// Writes the survey of a dump for the filter under these options, and returns whether it found something. It writes
/// each finding's line as soon as it is found, and at the end one line for each kind.
pub fn write_survey<S: Sink>(
    alloc: Global,
    dump: &[u8],
    options: &Options,
    sink: &mut S,
) -> Result<bool, SurveyFailure>
    ensures whole { IfOk result (λ found. (text : List ℕ) × IsSurveyText options.now dump.now text found
        × Appends (S.taken sink.old) (S.taken sink.new) text) }
    ensures part { OnErr result (BreaksOffSurvey options.now dump.now (S.taken sink.old) (S.taken sink.new)) }
    ensures no_failure { result ≢ Err SurveyFailure.Sink → S.failure_count sink.new ≡ S.failure_count sink.old }
    ensures failed { result ≡ Err SurveyFailure.Sink
        → HasFailedSince (S.failure_count sink.old) (S.failure_count sink.new) }
    ensures through { S.through sink.new ≡ S.through sink.old }
{
    let mut surveyor = Surveyor::new(alloc, dump, options)?;
    let mut found = false;
    let mut count = 0u64;
    let mut counts = Counts::new();
    loop {
        match surveyor.next(alloc)? {
            Step::Node(node) => {
                if node.found.is_any() {
                    let lines = node_lines(alloc, &node)?;
                    found |= write_lines(alloc, sink, lines)?;
                    counts = counts.with(&node.found);
                }
                count += 1;
            }
            Step::Other => count += 1,
            Step::Finished(end) => {
                let prefixes = surveyor.reported_prefixes(alloc)?;
                let lines = end_lines(alloc, count, &end, &prefixes, &counts)?;
                found |= write_lines(alloc, sink, lines)?;
                return Ok(found);
            }
        }
    }
}

/// The lines of the prefixes to add. If the survey found nothing, there are none, and the function doesn't read the
/// dump again.
fn lines_of_added_prefixes(
    alloc: Global,
    dump: &[u8],
    options: &Options,
    found: bool,
) -> Result<Vec<u8>, Memory>
    requires { IsFalse found → FindsNothing options.now dump.now }
    ensures { IfOk result (λ lines. AreAddedPrefixLines options.now dump.now lines.items) }
{
    if !found {
        return Ok(Vec::new(alloc));
    }
    let paths = prefixes_to_add(alloc, dump, options)?;
    added_prefix_lines(alloc, options.side(), &paths)
}

/// The lines with the advice for a dump that is filtered under these options: the number of dropped lines of
/// mergeinfo, the parent directories to create before loading, and the prefixes to add.
fn advice_lines(
    alloc: Global,
    dump: &[u8],
    options: &Options,
    found: bool,
) -> Result<Vec<u8>, Memory>
    requires { IsFalse found → FindsNothing options.now dump.now }
    ensures { IfOk result (λ lines. AreAdviceLines options.now dump.now lines.items) }
{
    let directories = parents_to_create(alloc, options)?;
    let added_lines = lines_of_added_prefixes(alloc, dump, options, found)?;
    let mut lines = omitted_line(alloc, omitted_lines(dump, options))?;
    let parents = parent_lines(alloc, &directories)?;
    lines.extend_from_slice(&parents)?;
    lines.extend_from_slice(&added_lines)?;
    Ok(lines)
}

/// Writes the advice for a dump that is filtered under these options, which follows the findings.
///
/// The first line has the number of [`omitted_lines`], unless that is 0. Then there is one line for each parent
/// directory to create, in the order of [`parents_to_create`], and one for each prefix to add, in the order of
/// [`prefixes_to_add`]. There is no prefix to add if the filter stops at no copy. The function writes nothing before
/// all lines are known.
///
/// The caller says whether the survey found something. If it didn't, there is no prefix to add, and the function looks
/// for none.
pub fn write_advice<S: Sink>(
    alloc: Global,
    dump: &[u8],
    options: &Options,
    found: bool,
    sink: &mut S,
) -> Result<(), SurveyFailure>
    requires { IsFalse found → FindsNothing options.now dump.now }
    ensures whole { OnOk result ((lines : List ℕ) × AreAdviceLines options.now dump.now lines
        × Appends (S.taken sink.old) (S.taken sink.new) lines) }
    ensures part { OnErr result (TakesSomeAdvice options.now dump.now (S.taken sink.old) (S.taken sink.new)) }
    ensures no_failure { result ≢ Err SurveyFailure.Sink → S.failure_count sink.new ≡ S.failure_count sink.old }
    ensures failed { result ≡ Err SurveyFailure.Sink
        → HasFailedSince (S.failure_count sink.old) (S.failure_count sink.new) }
    ensures through { S.through sink.new ≡ S.through sink.old }
{
    let lines = advice_lines(alloc, dump, options, found)?;
    write_lines(alloc, sink, lines)?;
    Ok(())
}
