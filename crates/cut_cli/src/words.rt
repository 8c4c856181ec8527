//! The arguments of a call.
ghost use Rattle.std.specs.Prelude.{◌≡◌, ◌≢◌, ◌≤◌, Err, IfOk, is_some, map, option_map, true, false, codes};
ghost use Rattle.std.specs.List.{list_any};
ghost use Rattle.std.specs.Option.{option_and_then};
ghost use Rattle.dump_text.specs.Number.{number_of};
ghost use Rattle.clap.specs.Built.{IsParsedFrom};
ghost use Rattle.clap.specs.Walk.{is_empty};
ghost use Rattle.clap.specs.Words.{app_of, found_of, is_simple_and_free, rows_of};
ghost use Rattle.cli_support.specs.steps.LineReading.{ReadsLine};
ghost use Rattle.cli_support.specs.Arguments.{flag_number};
ghost use Rattle.cli_support.specs.steps.FilledFlags.{AreFilled};
ghost use Rattle.dump_pipeline.specs.PlanViews.{worker_count, window_size};
ghost use Rattle.cut_cli.specs.Words.{are_refused, cut_of_words, cut_of_side, is_named_wrongly, keeps_wrongly, prefixes_in, targets_in, with_texts_of};
ghost use Rattle.cut_cli.specs.steps.Words.{TellsCut, asked_map, cut_meaning};

use crate::command::cut_command;
use crate::mistakes::{Mistake, write_mistake, write_refused_line};
use clap::{ArgMatches, Command};
use cli_support::{
    Usage, is_set, read_number, read_prefixes, read_value, read_values, refusal, side_in,
    with_texts,
};
use dump_pipeline::Plan;
use dump_rules::Side;
use dump_text::number;
use std::alloc::{AllocError, Global};
use std::io::Write;

/// The arguments of a call.
#[derive(Drop)]
pub struct Call<'a> {
    pub side: Side,
    /// As the user wrote them; none is empty.
    pub prefixes: Vec<&'a [u8]>,
    /// The names of files with more prefixes.
    pub targets: Vec<&'a str>,
    /// The name of the file for a map of the revisions.
    pub map_name: Option<&'a str>,
    /// Whether copies of excluded content are excluded too, or sources of included content are included too.
    pub follow: bool,
    /// Whether content that copies bring back is kept, under `exclude`.
    pub keep: bool,
    /// Whether revisions that lose all of their nodes are dropped, and the others are renumbered.
    pub drop: bool,
    /// The revision after which the cut begins; the earlier ones were loaded before.
    pub after: Option<u64>,
    /// The revision that has to be the last one of the dump.
    pub youngest: Option<u64>,
    /// Whether the dump is cut although no revision has a prefix.
    pub allow_missing: bool,
    /// Whether nothing is written.
    pub dry_run: bool,
    /// Whether only warnings and faults are reported.
    pub quiet: bool,
    /// Whether lists are reported completely.
    pub verbose: bool,
    /// How many threads filter the dump.
    pub plan: Plan,
}

/// Reads the arguments, and writes a line if they are wrong. `words[0]` is the program's name.
pub fn call_of<'a, E: Write>(
    alloc: Global,
    words: &'a [&'a str],
    errors: &mut E,
) -> Result<Call<'a>, Usage>
    ensures { TellsCut (cut_of_words (map (λ word. word.now) words.now)) result }
{
    let Some((_, line)) = words.split_first() else {
        return wrong(errors, Mistake::NoArgument);
    };
    let Some(side) = side_in(line) else {
        return wrong(errors, first_mistake(line));
    };
    let Ok(command) = cut_command(alloc) else {
        return Err(Usage::Memory);
    };
    match read_named(alloc, command, line, errors) {
        Ok(matches) => read_call(alloc, side, &matches, errors),
        Err(usage) => Err(usage),
    }
}

/// What is wrong with a line that doesn't begin with a side.
fn first_mistake<'a>(line: &'a [&'a str]) -> Mistake<'a> {
    match line.first() {
        Some(word) => Mistake::NoSubcommand(word),
        None => Mistake::NoArgument,
    }
}

/// Says what is wrong with the arguments.
fn wrong<'a, E: Write>(errors: &mut E, mistake: Mistake<'_>) -> Result<Call<'a>, Usage>
    ensures { result ≡ Err Usage.Words }
{
    let _ = write_mistake(errors, mistake);
    Err(Usage::Words)
}

/// Parses the arguments of a line after the first, which is the subcommand. It writes what is wrong with a line that
/// the command rejects.
fn read_named<'a, E: Write>(
    alloc: Global,
    command: Command<'a>,
    line: &'a [&'a str],
    errors: &mut E,
) -> Result<ArgMatches<'a>, Usage>
    ensures parsed { IfOk result (λ matches. IsParsedFrom command.entry matches) }
    ensures read { is_simple_and_free (app_of command.entry) ≡ true
        → ReadsLine (app_of command.entry) (map (λ word. word.now) line.now) result }
{
    match command.try_get_matches_from(line) {
        Ok(matches) => Ok(matches),
        Err(error) => {
            let _ = write_refused_line(errors, alloc, line, &error);
            Err(refusal(&error))
        }
    }
}

/// Whether one of the prefixes is empty.
fn is_one_empty(prefixes: &[&[u8]]) -> bool
    ensures { result ≡ list_any is_empty (map (λ prefix. prefix.now) prefixes.now) }
{
    for prefix in prefixes {
        if prefix.is_empty() {
            return true;
        }
    }
    false
}

/// What is wrong with a side and the options for content that copies bring back.
fn wrong_keeping(side: Side, keep: bool, follow: bool) -> Option<Mistake<'static>>
    ensures { is_some result ≡ keeps_wrongly side keep follow }
{
    match side {
        Side::Include if keep => Some(Mistake::KeepUnderInclude),
        Side::Exclude if keep && follow => Some(Mistake::KeepAndFollow),
        _ => None,
    }
}

/// The number of a revision, read from its text.
fn revision_of(text: Option<&str>) -> Option<u64>
    ensures { result ≡ option_and_then number_of (option_map (λ text. text.now) text.entry) }
{
    match text {
        Some(text) => number(text.as_bytes()),
        None => None,
    }
}

/// What is wrong with the text of the revision after which the cut begins; `drop` says whether revisions are dropped.
fn wrong_after<'a>(text: Option<&'a str>, drop: bool) -> Option<Mistake<'a>>
    ensures { is_some result ≡ is_named_wrongly (option_map (λ text. text.now) text.entry) drop }
{
    match text {
        Some(text) if number(text.as_bytes()).is_none() => Some(Mistake::AfterNoRevision(text)),
        Some(_) if drop => Some(Mistake::AfterAndDrop),
        _ => None,
    }
}

/// What is wrong with the text of the revision that has to be the last one.
fn wrong_youngest<'a>(text: Option<&'a str>) -> Option<Mistake<'a>>
    ensures { is_some result ≡ is_named_wrongly (option_map (λ text. text.now) text.entry) false }
{
    match text {
        Some(text) if number(text.as_bytes()).is_none() => Some(Mistake::YoungestNoRevision(text)),
        _ => None,
    }
}

/// What is wrong with a side and the arguments after it, which have these prefixes and files.
fn mistake_in<'a>(
    side: Side,
    matches: &ArgMatches<'a>,
    prefixes: &[&[u8]],
    targets: &[&str],
) -> Option<Mistake<'a>>
    requires prefixes { map (λ prefix. prefix.now) prefixes.now ≡ prefixes_in (rows_of (found_of matches.now)) }
    requires targets { map (λ name. name.now) targets.now ≡ targets_in (rows_of (found_of matches.now)) }
    ensures { is_some result ≡ are_refused side (rows_of (found_of matches.now)) }
{
    if prefixes.is_empty() && targets.is_empty() {
        return Some(Mistake::NoPrefix);
    }
    if is_one_empty(prefixes) {
        return Some(Mistake::EmptyPrefix);
    }
    if is_set(matches, "quiet") && is_set(matches, "verbose") {
        return Some(Mistake::QuietAndVerbose);
    }
    let keep = is_set(matches, "keep-copies");
    let wrong = wrong_keeping(side, keep, is_set(matches, "follow-copies"));
    if wrong.is_some() {
        return wrong;
    }
    let drop = is_set(matches, "drop-empty-revs");
    let wrong = wrong_after(read_value(matches, "after"), drop);
    if wrong.is_some() {
        return wrong;
    }
    wrong_youngest(read_value(matches, "youngest"))
}

/// Reads a side and the arguments after it.
fn read_call<'a, E: Write>(
    alloc: Global,
    side: Side,
    matches: &ArgMatches<'a>,
    errors: &mut E,
) -> Result<Call<'a>, Usage>
    requires { AreFilled (rows_of (found_of matches.now)) }
    ensures { TellsCut (cut_of_side side (rows_of (found_of matches.now))) result }
{
    let Ok(prefixes) = read_prefixes(alloc, matches) else {
        return Err(Usage::Memory);
    };
    let Ok(targets) = read_values(alloc, matches, "targets") else {
        return Err(Usage::Memory);
    };
    if let Some(mistake) = mistake_in(side, matches, &prefixes, &targets) {
        return wrong(errors, mistake);
    }
    Ok(Call {
        side,
        prefixes,
        targets,
        map_name: read_value(matches, "map"),
        follow: is_set(matches, "follow-copies"),
        keep: is_set(matches, "keep-copies"),
        drop: is_set(matches, "drop-empty-revs"),
        after: revision_of(read_value(matches, "after")),
        youngest: revision_of(read_value(matches, "youngest")),
        allow_missing: is_set(matches, "allow-missing"),
        dry_run: is_set(matches, "dry-run"),
        quiet: is_set(matches, "quiet"),
        verbose: is_set(matches, "verbose"),
        plan: plan_of(
            read_number(matches, "workers"),
            read_number(matches, "window"),
        ),
    })
}

/// A plan with this many workers, and a window of this many records.
fn plan_of(workers: usize, window: usize) -> Plan
    requires workers { (1 ≤ workers) × (workers ≤ 64) }
    requires window { (1 ≤ window) × (window ≤ 4096) }
    ensures workers { worker_count result ≡ workers }
    ensures window { window_size result ≡ window }
{
    let Some(plan) = Plan::new(workers, window) else {
        unreachable!()
    };
    plan
}

/// The same call with the prefixes in these texts added.
pub fn with_targets<'a>(call: Call<'a>, texts: &'a [Vec<u8>]) -> Result<Call<'a>, AllocError>
    ensures { IfOk result (λ whole. cut_meaning whole ≡ with_texts_of (cut_meaning call.entry) (map (λ text. text.items) texts.now)) }
{
    Ok(Call {
        prefixes: with_texts(call.prefixes, texts)?,
        ..call
    })
}

/// The name of the file for the map, if one is written; a dry run writes none.
pub fn asked_map<'a>(call: &Call<'a>) -> Option<&'a str>
    ensures { option_map (λ name. name.now) result ≡ asked_map (cut_meaning call.now) }
{
    if call.dry_run { None } else { call.map_name }
}
