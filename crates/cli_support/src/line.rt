//! Reads the arguments of a program: the side, what the command finds after it, and the options of the filter.
ghost use Rattle.std.specs.Prelude.{◌≡◌, ◌≢◌, ◌≤◌, ℕ, [], IfOk, Err, map, true, codes, option_map, unwrap_or};
ghost use Rattle.clap.specs.Built.{IsParsedFrom};
ghost use Rattle.clap.specs.Words.{all_of, app_of, first_of, found_of, is_simple_and_free, rows_of, takes};
ghost use Rattle.cli_support.specs.Arguments.{Answers, empty_in, flag_number, is_set, named_side, settings_of, side_in};
ghost use Rattle.cli_support.specs.steps.FilledFlags.{IsNumber};
ghost use Rattle.cli_support.specs.steps.LineReading.{ReadsLine};

use crate::usage::{Usage, refusal};
use clap::{ArgMatches, Command};
use dump_rules::{Empty, Options, Side};
use std::alloc::Global;

/// The side with which a line begins.
pub fn side_in(line: &[&str]) -> Option<Side>
    ensures { result ≡ side_in (map (λ word. word.now) line.now) }
{
    match line.first() {
        Some(name) => named_side(name),
        None => None,
    }
}

/// The side of this name.
fn named_side(name: &str) -> Option<Side>
    ensures { result ≡ named_side name.now }
{
    match name {
        "include" => Some(Side::Include),
        "exclude" => Some(Side::Exclude),
        _ => None,
    }
}

/// Parses the arguments of a line after the first, which is the side.
pub fn read_line<'a>(command: Command<'a>, line: &'a [&'a str]) -> Result<ArgMatches<'a>, Usage>
    ensures parsed { IfOk result (λ matches. IsParsedFrom command.entry matches) }
    ensures read { is_simple_and_free (app_of command.entry) ≡ true
        → ReadsLine (app_of command.entry) (map (λ word. word.now) line.now) result }
    ensures takes { takes (app_of command.entry) (map (λ word. word.now) line.now) ≡ true → result ≢ Err Usage.Words }
{
    match command.try_get_matches_from(line) {
        Ok(matches) => Ok(matches),
        Err(error) => Err(refusal(&error)),
    }
}

/// The options of the filter that a side and the arguments after it give.
pub fn read_options(alloc: Global, side: Side, matches: &ArgMatches<'_>) -> Result<Options, Usage>
    ensures { Answers (λ settings. settings) (settings_of side (rows_of (found_of matches.now))) result }
{
    let Some(empty) = read_empty(matches) else {
        return Err(Usage::BothDrops);
    };
    let Ok(prefixes) = read_prefixes(alloc, matches) else {
        return Err(Usage::Memory);
    };
    let options = Options::new(
        alloc,
        side,
        prefixes.as_slice(),
        empty,
        is_set(matches, "renumber-revs"),
        is_set(matches, "preserve-revprops"),
        is_set(matches, "skip-missing-merge-sources"),
    );
    match options {
        Ok(options) => Ok(options),
        Err(_) => Err(Usage::Memory),
    }
}

/// Whether the switch of this name is set.
pub fn is_set(matches: &ArgMatches<'_>, name: &str) -> bool
    ensures { result ≡ is_set name.now (rows_of (found_of matches.now)) }
{
    matches.get_one(name).unwrap_or(false)
}

/// The number that is the value of the option of this name.
pub fn read_number(matches: &ArgMatches<'_>, name: &str) -> usize
    requires { (most : ℕ) × IsNumber name.now most (rows_of (found_of matches.now)) }
    ensures value { result ≡ flag_number name.now (rows_of (found_of matches.now)) }
    ensures range { (most : ℕ) → IsNumber name.now most (rows_of (found_of matches.now)) → (1 ≤ result) × (result ≤ most) }
{
    let Some(number) = matches.get_one(name) else {
        unreachable!()
    };
    number
}

/// What the filter does with revisions without a kept node; `None` if the options contradict each other.
fn read_empty(matches: &ArgMatches<'_>) -> Option<Empty>
    ensures { result ≡ empty_in (rows_of (found_of matches.now)) }
{
    match (
        is_set(matches, "drop-empty-revs"),
        is_set(matches, "drop-all-empty-revs"),
    ) {
        (false, false) => Some(Empty::Pad),
        (true, false) => Some(Empty::DropEmptied),
        (false, true) => Some(Empty::DropAll),
        (true, true) => None,
    }
}

/// The bytes of the prefixes, as the user wrote them.
pub fn read_prefixes<'a>(alloc: Global, matches: &ArgMatches<'a>) -> Result<Vec<&'a [u8]>, Usage>
    ensures { IfOk result (λ texts. map (λ text. text.now) texts.items ≡ unwrap_or (all_of (codes "PREFIX") (rows_of (found_of matches.now))) []) }
{
    match matches.get_strs("PREFIX") {
        Some(prefixes) => as_bytes(alloc, prefixes),
        None => Ok(Vec::new(alloc)),
    }
}

/// The value of the option of this name, as the user wrote it.
pub fn read_value<'a>(matches: &ArgMatches<'a>, name: &str) -> Option<&'a str>
    ensures { option_map (λ text. text.now) result ≡ first_of name.now (rows_of (found_of matches.now)) }
{
    matches.get_str(name)
}

/// The values of the option of this name, as the user wrote them.
pub fn read_values<'a>(
    alloc: Global,
    matches: &ArgMatches<'a>,
    name: &str,
) -> Result<Vec<&'a str>, Usage>
    ensures { IfOk result (λ texts. map (λ text. text.now) texts.items ≡ unwrap_or (all_of name.now (rows_of (found_of matches.now))) []) }
{
    match matches.get_strs(name) {
        Some(values) => collected(alloc, values),
        None => Ok(Vec::new(alloc)),
    }
}

/// Collects these words in a vector.
fn collected<'a>(alloc: Global, words: &[&'a str]) -> Result<Vec<&'a str>, Usage>
    ensures { IfOk result (λ texts. map (λ text. text.now) texts.items ≡ map (λ word. word.now) words.now) }
{
    let mut texts = Vec::new(alloc);
    for word in words {
        if texts.push(*word).is_err() {
            return Err(Usage::Memory);
        }
    }
    Ok(texts)
}

/// The bytes of texts.
fn as_bytes<'a>(alloc: Global, words: &[&'a str]) -> Result<Vec<&'a [u8]>, Usage>
    ensures { IfOk result (λ texts. map (λ text. text.now) texts.items ≡ map (λ word. word.now) words.now) }
{
    let mut texts = Vec::new(alloc);
    for word in words {
        if texts.push(word.as_bytes()).is_err() {
            return Err(Usage::Memory);
        }
    }
    Ok(texts)
}
