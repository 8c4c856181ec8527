//! The paths that a cut excludes.
ghost use Rattle.std.specs.Prelude.{◌≡◌, ◌++◌, ◌∷◌, [], ℕ, List, IfOk, IsTrue, OnErr, OnOk, bytes_eq, false, map, not, true};
ghost use Rattle.std.specs.Cmp.Lexicographic.{slice_cmp};
ghost use Rattle.std.specs.List.{list_all, list_any};
ghost use Rattle.std.specs.List.Sorted.{IsStrictlySortedBy};
ghost use Rattle.std.specs.Ordering.{nat_cmp};
ghost use Rattle.dump_trees.specs.CanonicalPaths.{canonical_paths};
ghost use Rattle.dump_trees.specs.Paths.{NodePath, names_of, path_text};
ghost use Rattle.dump_trees.specs.Returns.{is_covered};
ghost use Rattle.dump_trees.specs.steps.Returns.{lie_apart, rests_covered};
ghost use Rattle.dump_trees.specs.Siblings.{has_node_names};
ghost use Rattle.dump_trees.specs.steps.Siblings.{ExcludesPaths, is_above_included};
ghost use Rattle.dump_index.specs.steps.Children.{is_child_named};
ghost use Rattle.dump_index.specs.steps.Effects.{goes_on};
ghost use Rattle.dump_index.specs.steps.InOrder.{ends_in_slash};
ghost use Rattle.dump_index.specs.steps.Names.{AddsNames, texts_of};
ghost use Rattle.dump_cut.specs.steps.ExcludedPaths.{IsGrownIf, emptied_by, paths_of};
ghost use Rattle.dump_cut.specs.steps.ExcludedTexts.{is_text_below, texts_below};

use crate::canonical::canonical_prefix;
use dump_index::rest_behind;
use dump_rules::{Empty, Memory, Options};
use std::alloc::Global;
use std::collections::BTreeSet;
use std::marker::Model;

/// The byte after a slash. Texts that begin with a path and a slash are sorted before the path and this byte.
const BEHIND_SLASH: u8 = b'0';

/// Paths in canonical form, without a leading slash. Each is excluded with all that is below it. None is at or below
/// another one.
#[derive(Drop)]
pub struct Excluded {
    paths: BTreeSet<Vec<u8>>,
}

impl Model for Excluded {
    ghost use Rattle.std.specs.Prelude.{ℕ, List, map};
    ghost use Rattle.dump_cut.specs.steps.ExcludedTexts.{AreExcluded};

    ghost Value = { List (List ℕ) };

    ghost view = { λ excluded. map (λ path. path.items) excluded.paths.keys };

    ghost invariant = { λ excluded. AreExcluded (map (λ path. path.items) excluded.paths.keys) };
}

/// The path, with this byte after it.
fn with_byte(alloc: Global, path: &[u8], byte: u8) -> Result<Vec<u8>, Memory>
    ensures { IfOk result (λ text. text.items ≡ path.now ++ byte ∷ []) }
{
    let mut text = Vec::from_slice(alloc, path)?;
    text.push(byte)?;
    Ok(text)
}

/// The prefix that names the path for the filter, with a slash before each name.
fn prefix_of(alloc: Global, path: &[u8]) -> Result<Vec<u8>, Memory>
    ensures { IfOk result (λ prefix. prefix.items ≡ path_text (names_of path.now)) }
{
    if path.is_empty() {
        return Ok(Vec::new(alloc));
    }
    let mut prefix = Vec::from_slice(alloc, b"/")?;
    prefix.extend_from_slice(path)?;
    Ok(prefix)
}

/// Whether the path is below `top`, and isn't `top`.
fn is_below(top: &[u8], path: &[u8]) -> bool
    ensures { result ≡ is_text_below top.now path.now }
{
    if top.is_empty() {
        return !path.is_empty();
    }
    let end = top.len();
    if path.len() <= end {
        return false;
    }
    path[end] == b'/' && &path[..end] == top
}

/// Appends each part of the path before a slash.
fn push_fronts<'p>(fronts: &mut Vec<&'p [u8]>, path: &'p [u8]) -> Result<(), Memory>
    ensures { OnOk result (AddsNames fronts.old.items fronts.new.items (λ front. goes_on front path.now)) }
{
    for (place, byte) in path.iter().enumerate() {
        if *byte == b'/' {
            fronts.push(&path[..place])?;
        }
    }
    Ok(())
}

impl Excluded {
    /// The empty set.
    pub fn new(alloc: Global) -> Excluded
        ensures { result ≡ [] }
    {
        Excluded {
            paths: BTreeSet::new(alloc),
        }
    }

    /// Whether the path is one of these.
    fn has(&self, path: &[u8]) -> bool
        ensures { result ≡ list_any (λ other. bytes_eq path.now other) self.now }
    {
        self.paths.contains(path)
    }

    /// Whether the path is at or below one of these. It looks up the path and each part of it before a slash.
    pub fn covers(&self, path: &[u8]) -> bool
        ensures { result ≡ is_covered (paths_of self.now) (names_of path.now) }
    {
        if self.has(b"") || self.has(path) {
            return true;
        }
        for (place, byte) in path.iter().enumerate() {
            if *byte == b'/' && self.has(&path[..place]) {
                return true;
            }
        }
        false
    }

    /// The paths below `top`, sorted by their bytes. `top` isn't covered.
    pub(crate) fn below(&self, alloc: Global, top: &[u8]) -> Result<Vec<&[u8]>, Memory>
        requires { is_covered (paths_of self.now) (names_of top.now) ≡ false }
        ensures rests { IfOk result (λ rests. map (λ rest. rest.now) rests.items ≡ texts_below top.now self.now) }
        ensures named { OnOk result (IsTrue (list_all has_node_names (paths_of self.now))) }
    {
        let mut rests = Vec::new(alloc);
        if top.is_empty() {
            for path in &self.paths {
                rests.push(path.as_slice())?;
            }
            return Ok(rests);
        }
        let start = with_byte(alloc, top, b'/')?;
        let end = with_byte(alloc, top, BEHIND_SLASH)?;
        for path in self.paths.range(start..end) {
            rests.push(rest_behind(top, path))?;
        }
        Ok(rests)
    }

    /// The rests of `top` at which the paths begin to cover what is there; the empty rest if they cover `top`.
    pub fn rests_covered(&self, alloc: Global, top: &[u8]) -> Result<Vec<&[u8]>, Memory>
        ensures rests { IfOk result (λ rests. map (λ rest. names_of rest.now) rests.items
            ≡ rests_covered (names_of top.now) (paths_of self.now)) }
        ensures named { IfOk result (λ rests. IsTrue (list_all (λ rest. has_node_names (names_of rest.now)) rests.items)) }
        ensures bare { IfOk result (λ rests. IsTrue (list_all (λ rest. not (ends_in_slash rest.now)) rests.items)) }
    {
        if !self.covers(top) {
            return self.below(alloc, top);
        }
        let mut whole = Vec::new(alloc);
        whole.push(b"".as_slice())?;
        Ok(whole)
    }

    /// The paths, sorted by their bytes.
    pub fn paths(&self, alloc: Global) -> Result<Vec<&[u8]>, Memory>
        ensures texts { IfOk result (λ paths. map (λ path. path.now) paths.items ≡ self.now) }
        ensures named { OnOk result (IsTrue (list_all has_node_names (paths_of self.now))) }
    {
        let mut paths = Vec::new(alloc);
        for path in &self.paths {
            paths.push(path.as_slice())?;
        }
        Ok(paths)
    }

    /// The directories above these paths, each once and sorted by their bytes: the root, and each part of a path
    /// before a slash.
    pub fn directories_above(&self, alloc: Global) -> Result<Vec<&[u8]>, Memory>
        ensures named { OnOk result (IsTrue (list_all has_node_names (paths_of self.now))) }
        ensures above { IfOk result (λ directories. (directory : List ℕ) → is_child_named (texts_of directories.items) directory
            ≡ is_above_included (paths_of self.now) (names_of directory)) }
        ensures ordered { IfOk result (λ directories. IsStrictlySortedBy (slice_cmp nat_cmp) (texts_of directories.items)) }
    {
        let mut directories: Vec<&[u8]> = Vec::new(alloc);
        directories.push(b"".as_slice())?;
        for path in &self.paths {
            push_fronts(&mut directories, path)?;
        }
        directories.sort_unstable();
        directories.dedup();
        Ok(directories)
    }

    /// Adds a path, and removes those below it, unless the path is already covered. Returns whether it was added.
    pub fn add(&mut self, alloc: Global, path: &[u8]) -> Result<bool, Memory>
        requires { IsTrue (has_node_names (names_of path.now)) }
        ensures new { IfOk result (λ added. added ≡ not (is_covered (paths_of self.old) (names_of path.now))) }
        ensures grown { IfOk result (IsGrownIf (paths_of self.old) (names_of path.now) (paths_of self.new)) }
        ensures refused { OnErr result (self.new ≡ self.old) }
    {
        if self.covers(path) {
            return Ok(false);
        }
        let has_some_below = !self.below(alloc, path)?.is_empty();
        let copy = Vec::from_slice(alloc, path)?;
        self.paths.insert(copy)?;
        if has_some_below {
            self.paths.retain(|other| !is_below(path, other));
        }
        Ok(true)
    }

    /// The paths that these prefixes name, read as `svnadmin load` reads paths. Paths at or below others are omitted.
    pub fn of(alloc: Global, prefixes: &[&[u8]]) -> Result<Excluded, Memory>
        ensures { IfOk result (λ excluded. (path : NodePath) → is_covered (paths_of excluded) path
            ≡ is_covered (canonical_paths (map (λ prefix. prefix.now) prefixes.now)) path) }
    {
        let mut excluded = Excluded::new(alloc);
        for prefix in prefixes {
            let path = canonical_prefix(alloc, prefix)?;
            excluded.add(alloc, &path)?;
        }
        Ok(excluded)
    }

    /// The prefixes that name the paths for the filter, in the order of the paths.
    fn prefixes(&self, alloc: Global) -> Result<Vec<Vec<u8>>, Memory>
        ensures texts { IfOk result (λ prefixes. map (λ prefix. prefix.items) prefixes.items ≡ map path_text (paths_of self.now)) }
        ensures named { OnOk result (IsTrue (list_all has_node_names (paths_of self.now))) }
        ensures apart { OnOk result (IsTrue (lie_apart (paths_of self.now))) }
    {
        let mut prefixes = Vec::new(alloc);
        for path in &self.paths {
            let prefix = prefix_of(alloc, path)?;
            prefixes.push(prefix)?;
        }
        Ok(prefixes)
    }

    /// The options of a filter that excludes these paths and omits the lines of mergeinfo with excluded paths. If
    /// `drops` is false, it keeps each revision with its number and properties. Otherwise it drops revisions that lose
    /// all of their nodes; the others get new numbers and keep their properties.
    pub fn filter_options(&self, alloc: Global, drops: bool) -> Result<Options, Memory>
        ensures excludes { IfOk result (λ options. ExcludesPaths options (paths_of self.now)) }
        ensures revisions { IfOk result (λ options. (options.empty ≡ emptied_by drops) × (options.renumber ≡ drops)
            × (options.preserve ≡ true)) }
        ensures skips { IfOk result (λ options. options.skip_missing ≡ true) }
        ensures named { OnOk result (IsTrue (list_all has_node_names (paths_of self.now))) }
        ensures apart { OnOk result (IsTrue (lie_apart (paths_of self.now))) }
    {
        let prefixes = self.prefixes(alloc)?;
        let mut texts = Vec::new(alloc);
        for prefix in &prefixes {
            texts.push(prefix.as_slice())?;
        }
        let empty = if drops {
            Empty::DropEmptied
        } else {
            Empty::Pad
        };
        let options = Options::exclude(alloc, &texts)?.with_empty(empty);
        let options = options.with_renumber(drops).with_preserve(true);
        Ok(options.with_skip_missing(true))
    }
}
