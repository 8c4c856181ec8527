//! Reads the ranges of svn:mergeinfo in place.
ghost use Rattle.std.specs.Prelude.{◌≡◌, ◌==◌, not, option_map, position};
ghost use Rattle.dump_rules.specs.steps.Blocks.{parts_agree};
ghost use Rattle.dump_rules.specs.steps.ReadRanges.{ends_in_star, highest_numbers, ends_of, list_reads, raised, raised_by, range_parts, range_of, span_range, without_star};

use crate::blocks::each_part_agrees;
use dump_text::{find, number};

/// A range of revisions, all inheritable or all not.
#[derive(Clone, Copy)]
pub(crate) struct Span {
    pub(crate) from: u64,
    pub(crate) to: u64,
    pub(crate) inheritable: bool,
}

/// The text without a star at its end, and whether it had no star.
fn cut_star(text: &[u8]) -> (&[u8], bool)
    ensures body { result.0.now ≡ without_star text.now }
    ensures inheritable { result.1 ≡ not (ends_in_star text.now) }
{
    match text.strip_suffix(b"*") {
        Some(body) => (body, false),
        None => (text, true),
    }
}

/// The two ends of a range, which is given without its star.
fn ends(text: &[u8]) -> Option<(u64, u64)>
    ensures { result ≡ ends_of text.now }
{
    match find(b'-', text) {
        Some(dash) => {
            let from = number(&text[..dash])?;
            let to = number(&text[dash + 1..])?;
            Some((from, to))
        }
        None => {
            let only = number(text)?;
            Some((only, only))
        }
    }
}

/// Reads a text as a range.
pub(crate) fn range(text: &[u8]) -> Option<Span>
    ensures { option_map span_range result ≡ range_of text.now }
{
    let (body, inheritable) = cut_star(text);
    let (from, to) = ends(body)?;
    if from >= 1 && from <= to {
        Some(Span {
            from,
            to,
            inheritable,
        })
    } else {
        None
    }
}

/// The highest numbers so far of each kind of range.
#[derive(Clone, Copy)]
struct HighestNumbers {
    inheritable: u64,
    starred: u64,
}

impl HighestNumbers {
    /// The highest numbers with those of one more range. `None` if the range doesn't begin above those of the other
    /// kind.
    fn raised(self, span: Span) -> Option<HighestNumbers>
        ensures { result ≡ raised self (span_range span) }
    {
        if span.inheritable {
            if self.starred >= span.from {
                return None;
            }
            Some(HighestNumbers {
                inheritable: self.inheritable.max(span.to),
                starred: self.starred,
            })
        } else {
            if self.inheritable >= span.from {
                return None;
            }
            Some(HighestNumbers {
                inheritable: self.inheritable,
                starred: self.starred.max(span.to),
            })
        }
    }

    /// The same with a part of a list. `None` also if the part is no range.
    fn raised_by(self, part: &[u8]) -> Option<HighestNumbers>
        ensures { result ≡ raised_by self (range_of part.now) }
    {
        match range(part) {
            Some(span) => self.raised(span),
            None => None,
        }
    }
}

/// The highest numbers of a list. `None` if a part is no range, or doesn't begin above all ranges of the other kind
/// before it.
fn highest_numbers(list: &[u8]) -> Option<HighestNumbers>
    ensures { result ≡ highest_numbers (record { inheritable = 0; starred = 0 }) (range_parts list.now) }
{
    let mut highest = HighestNumbers {
        inheritable: 0,
        starred: 0,
    };
    let mut rest = list;
    while let Some(comma) = find(b',', rest) {
        let Some(next) = highest.raised_by(&rest[..comma]) else {
            return None;
        };
        highest = next;
        rest = &rest[comma + 1..];
    }
    highest.raised_by(rest)
}

/// Whether all parts of the list are ranges and no two of them contradict each other. One pass over the list is enough
/// if the ranges rise, as Subversion writes them, or are all of one kind.
fn parts_agree(list: &[u8]) -> bool
    ensures { result ≡ parts_agree (range_parts list.now) (range_parts list.now) }
{
    highest_numbers(list).is_some() || each_part_agrees(list)
}

/// Whether the text is a list of ranges without contradictions.
pub(crate) fn list_reads(list: &[u8]) -> bool
    ensures { result ≡ list_reads list.now }
{
    list.is_empty() || parts_agree(list)
}
