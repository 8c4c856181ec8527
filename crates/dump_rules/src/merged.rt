//! What values of svn:mergeinfo contain that the filter asks for: whether a source is missing, and the bounds of their
//! numbers.
ghost use Rattle.std.specs.Prelude.{◌≡◌, ◌↔◌, ◌==◌, ◌||◌, ℕ, IfSome, IsSome};
ghost use Rattle.std.specs.List.{slice_split};
ghost use Rattle.dump_rules.specs.steps.Merged.{is_outside, line_merged, lines_merged, list_bounds, nothing_merged, widened, widened_by};
ghost use Rattle.dump_rules.specs.Mergeinfo.{HasMergeLines};
ghost use Rattle.dump_rules.specs.steps.RewrittenLines.{text_lines, value_foreign, value_misses};
ghost use Rattle.dump_rules.specs.steps.ReadRanges.{range_of, span_range};

use crate::mergeinfo::{colon_end, without_lf};
use crate::options::{Options, keeps};
use crate::ranges::{Span, list_reads, range};
use crate::runs::cut_at;
use dump_text::find;

/// The least and the greatest number of a set of ranges. Without ranges the least is above the greatest.
#[derive(Clone, Copy, Debug, PartialEq, Eq)]
pub struct Bounds {
    least: u64,
    greatest: u64,
}

impl Bounds {
    /// The bounds of no ranges. Adding a range to them gives the range's own bounds.
    pub const NONE: Bounds = Bounds {
        least: u64::MAX,
        greatest: 0,
    };

    /// The bounds with a range added.
    fn widened(bounds: Bounds, span: Span) -> Bounds
        ensures { result ≡ widened bounds (span_range span) }
    {
        Bounds {
            least: bounds.least.min(span.from),
            greatest: bounds.greatest.max(span.to),
        }
    }

    /// The bounds with a part of a list added, if it is a range.
    fn widened_by(bounds: Bounds, part: &[u8]) -> Bounds
        ensures { result ≡ widened_by bounds (range_of part.now) }
    {
        match range(part) {
            Some(span) => Bounds::widened(bounds, span),
            None => bounds,
        }
    }

    /// The bounds with the ranges of a list added.
    fn widened_by_list(bounds: Bounds, list: &[u8]) -> Bounds
        ensures { result ≡ list_bounds bounds list.now }
    {
        if list.is_empty() {
            return bounds;
        }
        let mut bounds = bounds;
        let mut rest = list;
        while let Some(comma) = find(b',', rest) {
            let (part, others) = cut_at(rest, comma);
            bounds = Bounds::widened_by(bounds, part);
            rest = others;
        }
        Bounds::widened_by(bounds, rest)
    }

    /// Whether a number is above `present`, the present revision, or below `first`, the first revision of the dump.
    /// The latter doesn't count if missing sources are skipped. `options` are those under which the numbers were read.
    pub fn has_foreign_number(&self, options: &Options, first: u64, present: u64) -> bool
        ensures { result ≡ is_outside options.now first present self.now }
    {
        self.greatest > present || !options.skip_missing() && self.least < first
    }
}

/// What some values of svn:mergeinfo say under some options; each value is read once. It allocates nothing.
#[derive(Clone, Copy, Debug, PartialEq, Eq)]
pub struct Merged {
    /// Whether the path of a line isn't kept, and missing sources aren't skipped.
    misses: bool,
    /// The bounds of the numbers in lines whose paths are kept, if revisions are renumbered.
    numbers: Bounds,
}

impl Merged {
    /// What no values say.
    pub fn new() -> Merged
        ensures { result ≡ nothing_merged }
    {
        Merged {
            misses: false,
            numbers: Bounds::NONE,
        }
    }

    /// What these values and one more say; `None` if that one isn't mergeinfo.
    pub fn with(self, value: &[u8], options: &Options) -> Option<Merged>
        ensures read { IsSome result ↔ HasMergeLines value.now }
        ensures sources { IfSome result (λ m. m.misses ≡ (self.misses || value_misses options.now value.now)) }
        ensures numbers { (first now : ℕ) → IfSome result (λ m. is_outside options.now first now m.numbers
            ≡ (is_outside options.now first now self.numbers || value_foreign options.now first now value.now)) }
    {
        self.with_text(without_lf(value), options)
    }

    /// What these values and the lines of a text say.
    fn with_text(self, text: &[u8], options: &Options) -> Option<Merged>
        ensures { result ≡ lines_merged options.now self (text_lines text.now) }
    {
        if text.is_empty() {
            return Some(self);
        }
        self.with_lines(text, options)
    }

    /// What these values and the lines of a text that isn't empty say.
    fn with_lines(self, text: &[u8], options: &Options) -> Option<Merged>
        ensures { result ≡ lines_merged options.now self (slice_split (λ b. b == 10) text.now) }
    {
        let mut merged = self;
        let mut rest = text;
        while let Some(lf) = find(b'\n', rest) {
            let (line, others) = cut_at(rest, lf);
            merged = merged.with_line(line, options)?;
            rest = others;
        }
        merged.with_line(rest, options)
    }

    /// What these values and a line say; `None` if it isn't a line of mergeinfo.
    fn with_line(self, line: &[u8], options: &Options) -> Option<Merged>
        ensures { result ≡ line_merged options.now self line.now }
    {
        let list_from = colon_end(line);
        let list = &line[list_from..];
        if list_from <= 1 || !list_reads(list) {
            return None;
        }
        if !keeps(options, &line[..list_from - 1]) {
            return Some(Merged {
                misses: self.misses || !options.skip_missing(),
                numbers: self.numbers,
            });
        }
        if !options.renumber() {
            return Some(self);
        }
        Some(Merged {
            misses: self.misses,
            numbers: Bounds::widened_by_list(self.numbers, list),
        })
    }

    /// Whether the path of a line isn't kept, and missing sources aren't skipped.
    pub fn misses_source(&self) -> bool
        ensures { result ≡ self.now.misses }
    {
        self.misses
    }

    /// The bounds of the numbers in lines whose paths are kept, if revisions are renumbered.
    pub fn numbers(&self) -> Bounds
        ensures { result ≡ self.now.numbers }
    {
        self.numbers
    }

    /// Whether revisions are renumbered, and a line whose path is kept has a number above `present`, the present
    /// revision, or below `first`, the first revision of the dump. The latter doesn't count if missing sources are
    /// skipped. `options` are those under which the values were read.
    pub fn has_foreign_number(&self, options: &Options, first: u64, present: u64) -> bool
        ensures { result ≡ is_outside options.now first present self.now.numbers }
    {
        self.numbers.has_foreign_number(options, first, present)
    }
}
