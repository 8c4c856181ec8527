//! The prefixes of the options, and an index to look them up without the slashes at their ends.
ghost use Rattle.std.specs.Prelude.{◌≡◌, IfOk, bytes_eq, map, option_copied, slice_get};
ghost use Rattle.std.specs.List.{list_any};
ghost use Rattle.dump_rules.specs.Prefix.{bare_prefix, begins_path};
ghost use Rattle.dump_rules.specs.steps.PrefixSearch.{bare_at};

use crate::memory::Memory;
use crate::prefix::bare_prefix;
use std::alloc::Global;
use std::marker::Model;

/// Prefixes as the caller passed them, and an index: their places, sorted by the bare prefixes at these places.
#[derive(Drop)]
pub(crate) struct IndexedPrefixes {
    texts: Vec<Vec<u8>>,
    index: Vec<usize>,
    longest: usize,
}

impl Model for IndexedPrefixes {
    ghost use Rattle.std.specs.Prelude.{ℕ, List, map};
    ghost use Rattle.dump_rules.specs.steps.PrefixSearch.{IsIndexed};

    ghost Value = { List (List ℕ) };

    ghost view = { λ prefixes. map (λ text. text.items) prefixes.texts.items };

    ghost invariant = { λ prefixes. IsIndexed (map (λ text. text.items) prefixes.texts.items) prefixes.index.items prefixes.longest };
}

/// Copies of texts, in their order.
fn copies(alloc: Global, texts: &[&[u8]]) -> Result<Vec<Vec<u8>>, Memory>
    ensures { IfOk result (λ copied. map (λ text. text.items) copied.items ≡ map (λ text. text.now) texts.now) }
{
    let mut copied = Vec::new(alloc);
    for text in texts {
        let copy = Vec::from_slice(alloc, text)?;
        copied.push(copy)?;
    }
    Ok(copied)
}

/// The bare prefix at a place; empty if there is none.
fn bare_at(prefixes: &[Vec<u8>], place: usize) -> &[u8]
    ensures { result.now ≡ bare_at (map (λ text. text.items) prefixes.now) place }
{
    match prefixes.get(place) {
        Some(prefix) => bare_prefix(prefix),
        None => b"",
    }
}

impl IndexedPrefixes {
    /// Copies of the prefixes, in their order.
    pub(crate) fn new(alloc: Global, prefixes: &[&[u8]]) -> Result<IndexedPrefixes, Memory>
        ensures { IfOk result (λ made. made ≡ map (λ prefix. prefix.now) prefixes.now) }
    {
        let texts = copies(alloc, prefixes)?;
        let mut index = Vec::new(alloc);
        let mut longest = 0;
        for (place, prefix) in prefixes.iter().enumerate() {
            longest = bare_prefix(prefix).len().max(longest);
            index.push(place)?;
        }
        let given = texts.as_slice();
        index.sort_unstable_by(|a, b| bare_at(given, *a).cmp(bare_at(given, *b)));
        Ok(IndexedPrefixes {
            texts,
            index,
            longest,
        })
    }

    /// The prefix with this index, as the caller passed it.
    pub(crate) fn get(&self, n: usize) -> Option<&[u8]>
        ensures { option_copied result ≡ slice_get self.now n }
    {
        match self.texts.get(n) {
            Some(prefix) => Some(prefix.as_slice()),
            None => None,
        }
    }

    /// Whether the text is a bare prefix.
    fn has(&self, text: &[u8]) -> bool
        ensures { result ≡ list_any (λ prefix. bytes_eq text.now prefix) (map bare_prefix self.now) }
    {
        let texts = self.texts.as_slice();
        self.index
            .binary_search_by(|place| bare_at(texts, *place).cmp(text))
            .is_ok()
    }

    /// Whether a bare prefix begins the path, by whole names. Such a prefix is the path, the part of it before a
    /// slash, or empty. So this function looks up each of these texts that isn't longer than the longest prefix; a
    /// longer path costs no more than one of that length. A look-up costs the logarithm of the number of prefixes,
    /// times the bytes that the text and a prefix have in common.
    pub(crate) fn begin(&self, path: &[u8]) -> bool
        ensures { result ≡ list_any (λ prefix. begins_path prefix path.now) (map bare_prefix self.now) }
    {
        if self.has(b"") || self.has(path) {
            return true;
        }
        let search_end = self.longest.saturating_add(1).min(path.len());
        for (place, byte) in path[..search_end].iter().enumerate() {
            if *byte == b'/' && self.has(&path[..place]) {
                return true;
            }
        }
        false
    }
}
