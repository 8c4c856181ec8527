//! The arguments on the command line.
ghost use Rattle.std.specs.Prelude.{◌≡◌, ◌≢◌, ◌+◌, ◌<◌, ◌++◌, Err, IfOk, IfSome, drop, length, map, take, true};
ghost use Rattle.cli_support.specs.FilterCalls.{filter_call_of};
ghost use Rattle.cli_support.specs.FilterCommand.{filter_command};
ghost use Rattle.cli_support.specs.steps.LineReading.{is_line_of, is_line_taken_by};
ghost use Rattle.survey_cli.specs.Words.{TellsCall, call_of_words, survey_of, place_of_map};
ghost use Rattle.survey_cli.specs.steps.LawfulLines.{is_survey_call, is_taken_call};

use cli_support::{Usage, read_filter_call};
use dump_rules::Options;
use std::alloc::{AllocError, Global};

/// The arguments of a call.
#[derive(Drop)]
pub struct Call {
    /// The options of the filter whose dump is surveyed.
    pub options: Options,
    /// Whether the call asks for the map of revisions.
    pub map: bool,
}

/// Reads the arguments. `words[0]` is the program's name.
pub fn call_of<'a>(alloc: Global, words: &'a [&'a str]) -> Result<Call, Usage>
    ensures meaning { TellsCall (call_of_words (map (λ word. word.now) words.now)) result }

    // A well-formed call is never rejected as wrong arguments.
    ensures lawful { is_survey_call (map (λ word. word.now) words.now) ≡ true → result ≢ Err Usage.Words }
    ensures takes { is_taken_call (map (λ word. word.now) words.now) ≡ true → result ≢ Err Usage.Words }
{
    let Some((_, line)) = words.split_first() else {
        return Err(Usage::Words);
    };
    let Some(place) = place_of_map(line) else {
        return read_call(alloc, line, false);
    };
    match without(alloc, line, place) {
        Ok(line) => read_call(alloc, line.as_slice(), true),
        Err(_) => Err(Usage::Memory),
    }
}

/// The place of the first `--map` in a line. After two minus signs there are no options.
fn place_of_map(line: &[&str]) -> Option<usize>
    ensures place { result ≡ place_of_map (map (λ word. word.now) line.now) }
    ensures inside { IfSome result (λ place. place < length line.now) }
{
    for (place, word) in line.iter().enumerate() {
        if *word == "--" {
            return None;
        }
        if *word == "--map" {
            return Some(place);
        }
    }
    None
}

/// The line without its word at this place.
fn without<'a>(alloc: Global, line: &[&'a str], place: usize) -> Result<Vec<&'a str>, AllocError>
    requires { place < length line.now }
    ensures { IfOk result (λ words. map (λ word. word.now) words.items ≡ take place (map (λ word. word.now) line.now) ++ drop (place + 1) (map (λ word. word.now) line.now)) }
{
    let mut words = Vec::new(alloc);
    words.extend_from_slice(&line[..place])?;
    words.extend_from_slice(&line[place + 1..])?;
    Ok(words)
}

/// Reads the arguments of the filter.
fn read_call<'a>(alloc: Global, line: &'a [&'a str], has_map: bool) -> Result<Call, Usage>
    ensures meaning { TellsCall (survey_of has_map (filter_call_of (map (λ word. word.now) line.now))) result }
    ensures lawful { is_line_of filter_command (map (λ word. word.now) line.now) ≡ true → result ≢ Err Usage.Words }
    ensures takes { is_line_taken_by filter_command (map (λ word. word.now) line.now) ≡ true → result ≢ Err Usage.Words }
{
    match read_filter_call(alloc, line) {
        Ok(call) => Ok(Call {
            options: call.options,
            map: has_map,
        }),
        Err(usage) => Err(usage),
    }
}
