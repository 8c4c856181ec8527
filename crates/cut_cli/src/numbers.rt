//! Reports what the numbers of the dump's revisions say about it: that some are missing, or that it may end too early.
use crate::lines::{shown, write_grouped, write_rest};
use crate::words::Call;
use cut_warnings::{Hole, Numbering};
use dump_changes::Memory;
use dump_index::ChangeIndex;
use std::alloc::Global;
use std::io::{self, Write};

/// How many numbers are missing.
fn missing(holes: &[Hole]) -> usize {
    let mut count: u64 = 0;
    for hole in holes {
        count = count.saturating_add(hole.last.saturating_sub(hole.first).saturating_add(1));
    }
    usize::try_from(count).unwrap_or(usize::MAX)
}

/// Writes the numbers of a hole.
fn write_hole<E: Write>(errors: &mut E, hole: Hole) -> io::Result<()> {
    let Hole { first, last } = hole;
    write!(errors, "r{first}")?;
    if first < last {
        write!(errors, " to r{last}")?;
    }
    writeln!(errors, "")
}

/// Warns of numbers that no revision of the dump has, between those of others.
fn write_holes<E: Write>(errors: &mut E, call: &Call<'_>, holes: &[Hole]) -> io::Result<()> {
    write!(errors, "svndumpcut: warning: ")?;
    if let [hole] = holes {
        write!(errors, "the dump has no ")?;
        return write_hole(errors, *hole);
    }
    write_grouped(errors, missing(holes))?;
    write!(errors, " numbers of revisions are missing in the dump, in ")?;
    write_grouped(errors, holes.len())?;
    writeln!(errors, " places")?;
    let most = shown(call);
    for hole in holes.iter().take(most) {
        write!(errors, "  ")?;
        write_hole(errors, *hole)?;
    }
    write_rest(errors, holes.len(), most)
}

/// Reports which numbers no revision of the dump has, between those of others.
pub fn report_holes<E: Write>(
    alloc: Global,
    numbers: &[u64],
    call: &Call<'_>,
    errors: &mut E,
) -> Result<(), Memory> {
    let holes = Numbering::of(alloc, numbers, None)?.holes(alloc)?;
    if !holes.is_empty() {
        let _ = write_holes(errors, call, &holes);
    }
    Ok(())
}

/// Says that the last revision of the dump, which has this number if there is one, is not the one that has to be it.
fn write_other_end<E: Write>(errors: &mut E, last: Option<u64>, youngest: u64) -> io::Result<()> {
    write!(errors, "svndumpcut: ")?;
    match last {
        Some(last) => write!(errors, "the dump ends at r{last}")?,
        None => write!(errors, "the dump has no revision")?,
    }
    write!(errors, ", and --youngest is {youngest}")?;
    if last < Some(youngest) {
        write!(errors, ": it is not whole")?;
    }
    writeln!(errors, "")
}

/// Whether the last of these revisions is another one than the call names, if it names one. It reports that.
pub fn ends_elsewhere<E: Write>(numbers: &[u64], call: &Call<'_>, errors: &mut E) -> bool {
    let Some(youngest) = call.youngest else {
        return false;
    };
    let last = numbers.last().copied();
    if last == Some(youngest) {
        return false;
    }
    let _ = write_other_end(errors, last, youngest);
    true
}

/// Warns that the last revision, which has this number, has no nodes. `svnadmin dump` writes the record of a revision
/// before it finds that it can't read it.
pub fn report_last<E: Write>(index: &ChangeIndex<'_>, last: Option<u64>, errors: &mut E) {
    let Some(last) = last else {
        return;
    };
    let is_empty = match index.changes().last() {
        Some(change) => change.revision < last,
        None => true,
    };
    if last > 0 && is_empty {
        let _ = writeln!(
            errors,
            "svndumpcut: warning: the last revision, r{last}, is empty: if it is not so in the repository, svnadmin dump failed there"
        );
    }
}
