//! The filter's options, and which paths they keep.
ghost use Rattle.std.specs.Prelude.{◌≡◌, IfOk, map, option_copied, slice_get};
ghost use Rattle.std.specs.List.{list_any};
ghost use Rattle.dump_rules.specs.Prefix.{matches_path};
ghost use Rattle.dump_rules.specs.Settings.{keeps_path};
ghost use Rattle.dump_rules.specs.PlainSettings.{plain_settings};

use crate::memory::Memory;
use crate::prefix::bare_path;
use crate::prefix_index::IndexedPrefixes;
use std::alloc::Global;
use std::marker::Model;

/// Which nodes the filter keeps: those that some prefix matches, or those that none does.
#[derive(Clone, Copy, Debug, PartialEq, Eq)]
pub enum Side {
    Include,
    Exclude,
}

/// What the filter does with a revision without a kept node.
#[derive(Clone, Copy, Debug, PartialEq, Eq)]
pub enum Empty {
    /// It keeps it; a revision that had nodes is padded.
    Pad,
    /// It drops it if it had nodes.
    DropEmptied,
    /// It drops it.
    DropAll,
}

/// The filter's options, with their own copies of the prefixes.
#[derive(Drop)]
pub struct Options {
    side: Side,
    prefixes: IndexedPrefixes,
    empty: Empty,
    renumber: bool,
    preserve: bool,
    skip_missing: bool,
}

impl Model for Options {
    ghost use Rattle.dump_rules.specs.Settings.{Settings};

    ghost Value = { Settings };

    ghost view = { λ o. record {
      side = o.side;
      prefixes = o.prefixes;
      empty = o.empty;
      renumber = o.renumber;
      preserve = o.preserve;
      skip_missing = o.skip_missing;
    } };
}

impl Options {
    /// Whether a prefix matches the path.
    pub(crate) fn has_match(&self, path: &[u8]) -> bool
        ensures { result ≡ list_any (λ prefix. matches_path prefix path.now) self.now.prefixes }
    {
        self.prefixes.begin(bare_path(path))
    }

    /// Options with copies of the prefixes that keep what some prefix matches. Emptied revisions are padded, and no
    /// switch is set.
    pub fn include(alloc: Global, prefixes: &[&[u8]]) -> Result<Options, Memory>
        ensures { IfOk result (λ o. o ≡ plain_settings Side.Include (map (λ prefix. prefix.now) prefixes.now)) }
    {
        Options::new(
            alloc,
            Side::Include,
            prefixes,
            Empty::Pad,
            false,
            false,
            false,
        )
    }

    /// The same, but they keep what no prefix matches.
    pub fn exclude(alloc: Global, prefixes: &[&[u8]]) -> Result<Options, Memory>
        ensures { IfOk result (λ o. o ≡ plain_settings Side.Exclude (map (λ prefix. prefix.now) prefixes.now)) }
    {
        let options = Options::include(alloc, prefixes)?;
        Ok(Options {
            side: Side::Exclude,
            ..options
        })
    }

    /// The same options, but revisions without a kept node become this.
    pub fn with_empty(self, empty: Empty) -> Options
        ensures { result ≡ record self { empty = empty } }
    {
        Options { empty, ..self }
    }

    /// The same options, but kept revisions get new numbers without gaps if this is true.
    pub fn with_renumber(self, renumber: bool) -> Options
        ensures { result ≡ record self { renumber = renumber } }
    {
        Options { renumber, ..self }
    }

    /// The same options, but an emptied revision keeps its properties if this is true.
    pub fn with_preserve(self, preserve: bool) -> Options
        ensures { result ≡ record self { preserve = preserve } }
    {
        Options { preserve, ..self }
    }

    /// The same options, but lines of mergeinfo are omitted if this is true and their paths aren't kept.
    pub fn with_skip_missing(self, skip_missing: bool) -> Options
        ensures { result ≡ record self { skip_missing = skip_missing } }
    {
        Options {
            skip_missing,
            ..self
        }
    }

    /// Makes options with copies of the prefixes.
    pub fn new(
        alloc: Global,
        side: Side,
        prefixes: &[&[u8]],
        empty: Empty,
        renumber: bool,
        preserve: bool,
        skip_missing: bool,
    ) -> Result<Options, Memory>
        ensures { IfOk result (λ o. o ≡ record {
          side = side;
          prefixes = map (λ prefix. prefix.now) prefixes.now;
          empty = empty;
          renumber = renumber;
          preserve = preserve;
          skip_missing = skip_missing;
        }) }
    {
        let prefixes = IndexedPrefixes::new(alloc, prefixes)?;
        Ok(Options {
            side,
            prefixes,
            empty,
            renumber,
            preserve,
            skip_missing,
        })
    }

    /// Which nodes are kept.
    pub fn side(&self) -> Side
        ensures { result ≡ self.now.side }
    {
        self.side
    }

    /// The prefix with this index, as the caller of `new` passed it.
    pub fn prefix(&self, n: usize) -> Option<&[u8]>
        ensures { option_copied result ≡ slice_get self.now.prefixes n }
    {
        self.prefixes.get(n)
    }

    /// What the filter does with revisions without a kept node.
    pub fn empty(&self) -> Empty
        ensures { result ≡ self.now.empty }
    {
        self.empty
    }

    /// Whether kept revisions get new numbers without gaps.
    pub fn renumber(&self) -> bool
        ensures { result ≡ self.now.renumber }
    {
        self.renumber
    }

    /// Whether an emptied revision keeps its properties.
    pub fn preserve(&self) -> bool
        ensures { result ≡ self.now.preserve }
    {
        self.preserve
    }

    /// Whether lines of mergeinfo are omitted if their paths aren't kept.
    pub fn skip_missing(&self) -> bool
        ensures { result ≡ self.now.skip_missing }
    {
        self.skip_missing
    }
}

/// Whether the options keep the path of a node, a copy source or a merge source.
pub fn keeps(options: &Options, path: &[u8]) -> bool
    ensures { result ≡ keeps_path options.now path.now }
{
    match options.side() {
        Side::Include => options.has_match(path),
        Side::Exclude => !options.has_match(path),
    }
}
