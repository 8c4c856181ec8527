//! The last line of a run, with its counts.
use crate::lines::write_count;
use dump_filter::Report;
use std::io::{self, Write};

/// What the summary counts for the revisions that are written, in addition to the counts of the filter.
#[derive(Clone, Copy)]
pub struct Counts {
    /// How many revisions are kept although all of their nodes are dropped.
    pub emptied: u64,
    /// How many paths are deleted after copies.
    pub deleted: usize,
    /// How many nodes of the dump are replaced, and how many replace them.
    pub written: Option<(usize, usize)>,
    /// How many nodes are kept, and how many are dropped, in revisions that aren't written.
    pub kept_before: u64,
    pub dropped_before: u64,
}

/// Writes the counts of a run, without those of the first revisions, whose number is `first`. `youngest` is the number
/// that a load gives to the last revision.
pub fn write_report<E: Write>(
    errors: &mut E,
    report: Report,
    counts: Counts,
    first: u64,
    youngest: u64,
) -> io::Result<()> {
    let Report {
        revisions_kept,
        revisions_dropped,
        nodes_kept,
        nodes_dropped,
        texts_checked,
    } = report;
    let Counts {
        emptied,
        deleted,
        written,
        kept_before,
        dropped_before,
    } = counts;
    let revisions_kept = revisions_kept.saturating_sub(first);
    let nodes_kept = nodes_kept.saturating_sub(kept_before);
    let nodes_dropped = nodes_dropped.saturating_sub(dropped_before);
    write!(errors, "revisions kept {revisions_kept}")?;
    if emptied > 0 {
        write!(errors, " ({emptied} of them emptied)")?;
    }
    write!(errors, ", dropped {revisions_dropped}")?;
    if revisions_dropped > 0 {
        write!(errors, " (the youngest is now r{youngest})")?;
    }
    write!(errors, "; nodes kept {nodes_kept}, dropped {nodes_dropped}")?;
    if let Some((replaced, nodes)) = written {
        write!(errors, "; ")?;
        write_count(errors, replaced, "node")?;
        write!(errors, " written as {nodes}")?;
    }
    if deleted > 0 {
        write!(errors, "; ")?;
        write_count(errors, deleted, "path")?;
        write!(errors, " deleted after copies")?;
    }
    writeln!(errors, "; texts checked {texts_checked}")
}
