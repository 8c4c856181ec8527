//! Paths to which copies are followed, and whether the excluded ones among them ever had other content.
use crate::copy_lines::{write_additions, write_own_life};
use crate::words::Call;
use dump_changes::Memory;
use dump_cut::{Addition, Excluded};
use dump_index::{ChangeIndex, NodeChange, NodeMade, Source, ends_in_slash, joined, rest_behind};
use dump_rules::Side;
use std::alloc::Global;
use std::io::Write;

/// A path that is excluded too, and the first revision in which something else than a copy of excluded content is
/// there, if there is one.
#[derive(Clone, Copy)]
struct Life<'p> {
    path: &'p [u8],
    revision: Option<u64>,
}

impl Life<'_> {
    /// Stores that something else is there in this revision.
    fn note(&mut self, revision: u64) {
        if self.revision.is_none() {
            self.revision = Some(revision);
        }
    }
}

/// Whether the path is below the directory `top`.
fn is_below(top: &[u8], path: &[u8]) -> bool {
    match path.strip_prefix(top) {
        Some(rest) => rest.first() == Some(&b'/'),
        None => false,
    }
}

/// Stores what a copy of a directory brings to the paths below it, unless it is excluded at the source.
fn note_copied(
    alloc: Global,
    index: &ChangeIndex<'_>,
    excluded: &Excluded,
    change: &NodeChange<'_>,
    source: Source<'_>,
    lives: &mut [Life<'_>],
) -> Result<(), Memory> {
    let first = lives.partition_point(|life| life.path <= change.path);
    for life in &mut lives[first..] {
        if !life.path.starts_with(change.path) {
            break;
        }
        if !is_below(change.path, life.path) || life.revision.is_some() {
            continue;
        }
        let there = joined(alloc, source.path, rest_behind(change.path, life.path))?;
        if excluded.covers(&there) || ends_in_slash(&there) {
            continue;
        }
        let count = index.end_of(source.revision);
        if index.kind_at(alloc, &there, count)?.is_some() {
            life.note(change.revision);
        }
    }
    Ok(())
}

/// Stores what a change makes at one of the paths, unless it is a copy of excluded content.
fn note_made(excluded: &Excluded, change: &NodeChange<'_>, lives: &mut [Life<'_>]) {
    let is_own = match change.made {
        None => false,
        Some(NodeMade::CopyOf(source)) => !excluded.covers(source.path),
        Some(_) => true,
    };
    if !is_own {
        return;
    }
    let place = lives.partition_point(|life| life.path < change.path);
    if let Some(life) = lives.get_mut(place) {
        if life.path == change.path {
            life.note(change.revision);
        }
    }
}

/// Warns of excluded paths, sorted, that had content which isn't a copy of excluded content.
fn report_lives<E: Write>(
    alloc: Global,
    index: &ChangeIndex<'_>,
    excluded: &Excluded,
    additions: &[&Addition],
    errors: &mut E,
) -> Result<(), Memory> {
    let mut lives: Vec<Life<'_>> = Vec::new(alloc);
    for addition in additions {
        lives.push(Life {
            path: &addition.path,
            revision: None,
        })?;
    }
    for change in index.changes() {
        note_made(excluded, change, &mut lives);
        if let Some(NodeMade::CopyOf(source)) = change.made {
            note_copied(alloc, index, excluded, change, source, &mut lives)?;
        }
    }
    for life in &lives {
        if let Some(revision) = life.revision {
            let _ = write_own_life(errors, life.path, revision);
        }
    }
    Ok(())
}

/// Reports the paths to which copies are followed, sorted, and which of the excluded ones had other content.
pub fn report_additions<E: Write>(
    alloc: Global,
    index: &ChangeIndex<'_>,
    paths: &Excluded,
    call: &Call<'_>,
    additions: &[Addition],
    errors: &mut E,
) -> Result<(), Memory> {
    let mut sorted: Vec<&Addition> = Vec::new(alloc);
    for addition in additions {
        sorted.push(addition)?;
    }
    sorted.sort_unstable_by(|a, b| a.path.cmp(&b.path));
    let _ = write_additions(errors, call, index.changes(), &sorted);
    match call.side {
        Side::Exclude => report_lives(alloc, index, paths, &sorted, errors),
        Side::Include => Ok(()),
    }
}
