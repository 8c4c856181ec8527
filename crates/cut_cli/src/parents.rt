//! Parents of prefixes that are files in some revision.
use crate::lines::write_file_parent;
use crate::prefixes::is_at_or_below;
use dump_changes::Memory;
use dump_cut::Excluded;
use dump_index::{ChangeIndex, NodeChange, NodeKind, ends_in_slash};
use std::alloc::Global;
use std::io::Write;

/// A directory above included paths, and the first revision in which it is a file, if there is one.
#[derive(Clone, Copy)]
struct Parent<'p> {
    path: &'p [u8],
    revision: Option<u64>,
}

/// Stores which parents are files after the first `count` changes. The parents are sorted by path, and the last of
/// these changes makes something at them or above them.
fn note_files(
    alloc: Global,
    index: &ChangeIndex<'_>,
    count: usize,
    change: &NodeChange<'_>,
    parents: &mut [Parent<'_>],
) -> Result<(), Memory> {
    let first = parents.partition_point(|parent| parent.path < change.path);
    for parent in &mut parents[first..] {
        if !parent.path.starts_with(change.path) {
            break;
        }
        if parent.revision.is_some()
            || ends_in_slash(parent.path)
            || !(change.path.is_empty() || is_at_or_below(change.path, parent.path))
        {
            continue;
        }
        if index.kind_at(alloc, parent.path, count)? == Some(NodeKind::File) {
            parent.revision = Some(change.revision);
        }
    }
    Ok(())
}

/// Reports the parents of included paths that are files in some revision.
pub fn report_parents<E: Write>(
    alloc: Global,
    index: &ChangeIndex<'_>,
    included: &Excluded,
    errors: &mut E,
) -> Result<(), Memory> {
    let mut parents: Vec<Parent<'_>> = Vec::new(alloc);
    for path in &included.directories_above(alloc)? {
        parents.push(Parent {
            path: *path,
            revision: None,
        })?;
    }
    for (place, change) in index.changes().iter().enumerate() {
        if change.made.is_some() {
            note_files(alloc, index, place + 1, change, &mut parents)?;
        }
    }
    for parent in &parents {
        if let Some(revision) = parent.revision {
            let _ = write_file_parent(errors, parent.path, revision);
        }
    }
    Ok(())
}
