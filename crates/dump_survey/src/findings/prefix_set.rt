//! A set of prefixes that supports fast lookups.
ghost use Rattle.std.specs.Prelude.{◌≡◌, ◌↔◌, ◌++◌, ◌∷◌, ◌≤◌, ◌<◌, [], List, ℕ, IfOk, IsTrue, OnErr, OnOk, bytes_eq, length, map, true};
ghost use Rattle.std.specs.List.{list_any};
ghost use Rattle.dump_rules.specs.Prefix.{bare_prefix, begins_path};
ghost use Rattle.dump_survey.specs.steps.SameTexts.{BeginSame, HaveSame};
ghost use Rattle.dump_survey.specs.steps.IdlePrefixes.{AreWithout, is_among};

use crate::findings::prefixes::begins_path;
use dump_rules::{Memory, bare_prefix};
use std::alloc::Global;
use std::collections::BTreeSet;
use std::marker::Model;

/// A set of prefixes, without the slashes at their ends.
#[derive(Drop)]
pub(crate) struct PrefixSet {
    bare: BTreeSet<Vec<u8>>,
    longest: usize,
}

impl Model for PrefixSet {
    ghost use Rattle.std.specs.Prelude.{ℕ, List, map};
    ghost use Rattle.dump_rules.specs.steps.PrefixSearch.{AreWithin};

    ghost Value = { List (List ℕ) };

    ghost view = { λ set. map (λ prefix. prefix.items) set.bare.keys };

    ghost invariant = { λ set. AreWithin set.longest (map (λ prefix. prefix.items) set.bare.keys) };
}

impl PrefixSet {
    /// The empty set.
    pub(crate) fn new(alloc: Global) -> PrefixSet
        ensures { result ≡ [] }
    {
        PrefixSet {
            bare: BTreeSet::new(alloc),
            longest: 0,
        }
    }

    /// The set of these prefixes.
    pub(crate) fn of(alloc: Global, prefixes: &[&[u8]]) -> Result<PrefixSet, Memory>
        ensures { IfOk result (λ set. HaveSame set (map bare_prefix (map (λ prefix. prefix.now) prefixes.now))) }
    {
        let mut set = PrefixSet::new(alloc);
        for prefix in prefixes {
            set.add(alloc, prefix)?;
        }
        Ok(set)
    }

    /// Adds a prefix. If memory runs out, the set doesn't change.
    pub(crate) fn add(&mut self, alloc: Global, prefix: &[u8]) -> Result<(), Memory>
        ensures added { OnOk result (BeginSame self.new (self.old ++ bare_prefix prefix.now ∷ [])) }
        ensures has { OnOk result (HaveSame self.new (self.old ++ bare_prefix prefix.now ∷ [])) }
        ensures refused { OnErr result (self.new ≡ self.old) }
    {
        let bare = bare_prefix(prefix);
        let copy = Vec::from_slice(alloc, bare)?;
        self.bare.insert(copy)?;
        self.longest = bare.len().max(self.longest);
        Ok(())
    }

    /// Whether the set is empty.
    pub(crate) fn is_empty(&self) -> bool
        ensures { IsTrue result ↔ (self.now ≡ []) }
    {
        self.bare.is_empty()
    }

    /// Whether the text is in the set.
    pub(crate) fn has(&self, text: &[u8]) -> bool
        ensures { result ≡ list_any (λ prefix. bytes_eq text.now prefix) self.now }
    {
        self.bare.contains(text)
    }

    /// Whether a prefix of the set begins the path: it is empty, it is the path, or it is a part of the path that ends
    /// before a slash. The function looks up each such part that isn't longer than the longest prefix.
    pub(crate) fn begin(&self, path: &[u8]) -> bool
        ensures { result ≡ list_any (λ prefix. begins_path prefix path.now) self.now }
    {
        if self.has(b"") || self.has(path) {
            return true;
        }
        let near = self.longest.saturating_add(1).min(path.len());
        for (place, byte) in path[..near].iter().enumerate() {
            if *byte == b'/' && self.has(&path[..place]) {
                return true;
            }
        }
        false
    }

    /// The bound for a search for prefixes that begin the path: each prefix that is shorter than the path is shorter
    /// than this number of bytes.
    fn near(&self, path: &[u8]) -> usize
        ensures within { result ≤ length path.now }
        ensures reach { (text : List ℕ) (n : ℕ) → is_among text self.now ≡ true → n ≤ length text
            → n < length path.now → n < result }
    {
        self.longest.saturating_add(1).min(path.len())
    }

    /// Removes the text from the set, if it is in it.
    fn remove(&mut self, text: &[u8])
        ensures { AreWithout (λ other. bytes_eq other text.now) self.old self.new }
    {
        self.bare.remove(text);
    }

    /// Removes the prefixes that begin the path.
    pub(crate) fn leave(&mut self, path: &[u8])
        ensures { AreWithout (λ text. begins_path text path.now) self.old self.new }
    {
        let near = self.near(path);
        self.remove(b"");
        self.remove(path);
        for (place, byte) in path[..near].iter().enumerate() {
            if *byte == b'/' {
                self.remove(&path[..place]);
            }
        }
    }

    /// Removes the prefixes that the path begins.
    pub(crate) fn leave_below(&mut self, path: &[u8])
        ensures { AreWithout (λ text. begins_path path.now text) self.old self.new }
    {
        self.bare.retain(|text| !begins_path(path, text));
    }
}
