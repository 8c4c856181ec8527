//! The names of what exists in a directory.
ghost use Rattle.std.specs.Prelude.{◌≡◌, false, true, IfOk, OnOk, filter, map};
ghost use Rattle.dump_trees.specs.Paths.{names_of};
ghost use Rattle.dump_trees.specs.steps.Listing.{names_look, names_made};
ghost use Rattle.dump_index.specs.steps.InOrder.{are_in_order, ends_in_slash};
ghost use Rattle.dump_index.specs.steps.Listed.{all_placed, listed_of};
ghost use Rattle.dump_index.specs.steps.Children.{AreChildren, is_child_named, stands_in};
ghost use Rattle.dump_index.specs.steps.NamesEver.{AreNamesEver};
ghost use Rattle.dump_index.specs.steps.Keys.{IsOrder};
ghost use Rattle.dump_index.specs.steps.Names.{AddsNames, AreNames, makes_at, texts_of};

use super::ChangeIndex;
use crate::change::NodeChange;
use crate::order::{Effect, PathOrder};
use crate::origin::Origin;
use crate::path_text::{joined, top_of};
use dump_rules::Memory;
use std::alloc::Global;

/// Whether the change at this place makes something.
fn makes_at(changes: &[NodeChange<'_>], place: usize) -> bool
    ensures { result ≡ makes_at (map listed_of changes.now) place }
{
    match changes.get(place) {
        Some(change) => change.made.is_some(),
        None => false,
    }
}

/// Adds the name of each of the first `count` changes that makes something right below the path.
fn push_made<'a>(
    alloc: Global,
    changes: &[NodeChange<'a>],
    shaping: &PathOrder,
    names: &mut Vec<&'a [u8]>,
    path: &[u8],
    count: usize,
) -> Result<(), Memory>
    requires ordered { are_in_order 0 changes.now ≡ true }
    requires keys { IsOrder Effect.Shaping (map listed_of changes.now) shaping.now }
    ensures named { OnOk result (AddsNames names.old.items names.new.items
        (is_child_named (names_made (all_placed (map listed_of changes.now)) count (names_of path.now)))) }
    ensures names { OnOk result (AreNames names.old.items → AreNames names.new.items) }
{
    let top = top_of(alloc, path)?;
    let mut from = shaping.first_from(changes, &top);
    while let Some(child) = shaping.next_child(changes, &top, from) {
        if child.place < count && makes_at(changes, child.place) {
            names.push(child.name)?;
        }
        from = child.behind;
    }
    Ok(())
}

impl<'a> ChangeIndex<'a> {
    /// Adds the names that can exist right below the path after the first `count` changes: the names of what is made
    /// there, and the names at the source of a copy.
    fn push_names(
        &self,
        alloc: Global,
        names: &mut Vec<&'a [u8]>,
        path: &[u8],
        count: usize,
    ) -> Result<(), Memory>
        requires { ends_in_slash path.now ≡ false }
        ensures named { OnOk result (AddsNames names.old.items names.new.items
            (is_child_named (names_look (all_placed self.now) count (names_of path.now)))) }
        ensures names { OnOk result (AreNames names.old.items → AreNames names.new.items) }
    {
        let mut at = Vec::from_slice(alloc, path)?;
        let mut before = count;
        loop {
            push_made(alloc, &self.changes, &self.shaping, names, &at, before)?;
            let shaped = self.latest_shaping(&at, before);
            match self.origin(&at, shaped) {
                Origin::Copied(source, rest) => {
                    let next = joined(alloc, source.path, rest)?;
                    before = self.end_of(source.revision);
                    at = next;
                }
                _ => return Ok(()),
            }
        }
    }

    /// Returns, of these names, those by which something exists right below the path after the first `count` changes.
    fn standing(
        &self,
        alloc: Global,
        path: &[u8],
        count: usize,
        names: &[&'a [u8]],
    ) -> Result<Vec<&'a [u8]>, Memory>
        requires bare { ends_in_slash path.now ≡ false }
        requires names { AreNames names.now }
        ensures { IfOk result (λ kept. texts_of kept.items
            ≡ filter (stands_in self.now count (names_of path.now)) (texts_of names.now)) }
    {
        let mut kept = Vec::new(alloc);
        for name in names {
            let child = joined(alloc, path, *name)?;
            let kind = self.kind_at(alloc, &child, count)?;
            if kind.is_some() {
                kept.push(*name)?;
            }
        }
        Ok(kept)
    }

    /// The names of what exists in the directory at the path after the first `count` changes, without duplicates and
    /// in the order of their bytes. There are none if no directory exists there.
    pub fn children(
        &self,
        alloc: Global,
        path: &[u8],
        count: usize,
    ) -> Result<Vec<&'a [u8]>, Memory>
        requires { ends_in_slash path.now ≡ false }
        ensures { IfOk result (λ names. AreChildren self.now count (names_of path.now) (texts_of names.items)) }
    {
        let mut names = Vec::new(alloc);
        self.push_names(alloc, &mut names, path, count)?;
        names.sort_unstable();
        names.dedup();
        self.standing(alloc, path, count, &names)
    }

    /// The names by which something can exist right below the path at some time, without duplicates and in the order
    /// of their bytes. They are the names of what is made there, and the names at the source of each copy of the path
    /// or of a directory above.
    pub fn names_ever(&self, alloc: Global, path: &[u8]) -> Result<Vec<&'a [u8]>, Memory>
        requires { ends_in_slash path.now ≡ false }
        ensures { IfOk result (λ names. AreNamesEver self.now (names_of path.now) (texts_of names.items)) }
    {
        let mut names = Vec::new(alloc);
        let mut before = self.len();
        push_made(
            alloc,
            &self.changes,
            &self.shaping,
            &mut names,
            path,
            before,
        )?;
        while let Some(place) = self.latest_shaping(path, before) {
            if let Origin::Copied(source, rest) = self.origin(path, Some(place)) {
                let from = joined(alloc, source.path, rest)?;
                self.push_names(alloc, &mut names, &from, self.end_of(source.revision))?;
            }
            before = place;
        }
        names.sort_unstable();
        names.dedup();
        Ok(names)
    }
}
