//! The lines about copies: what they bring back, what is written in their place, and what is deleted after them.
use crate::lines::{
    shown, write_count, write_grouped, write_joined, write_path, write_path_line, write_rest,
};
use crate::sizes::Size;
use crate::words::Call;
use dump_cut::{Addition, Excluded, PlacedRest};
use dump_index::{NodeChange, NodeMade, Source, rest_behind};
use dump_rules::Side;
use std::io::{self, Write};

/// The copy at this place, and its source.
fn source_at<'a>(changes: &[NodeChange<'a>], place: usize) -> Option<(NodeChange<'a>, Source<'a>)> {
    let change = changes.get(place)?;
    match change.made {
        Some(NodeMade::CopyOf(source)) => Some((*change, source)),
        _ => None,
    }
}

/// Writes `copied from` with the source of a copy, or a path below it.
pub fn write_source<E: Write>(errors: &mut E, source: Source<'_>, rest: &[u8]) -> io::Result<()> {
    write!(errors, "copied from ")?;
    write_joined(errors, source.path, rest)?;
    let revision = source.revision;
    write!(errors, "@{revision}")
}

/// Writes the number of files or directories, and the number of bytes.
fn write_size<E: Write>(errors: &mut E, size: Size) -> io::Result<()> {
    let directories = size.directories;
    if size.files == 0 && directories > 0 {
        let ending = if directories == 1 { "y" } else { "ies" };
        write_grouped(errors, directories)?;
        write!(errors, " director{ending}")?;
    } else {
        write_count(errors, size.files, "file")?;
    }
    if let (Some(bytes), true) = (size.bytes, size.files > 0) {
        write!(errors, ", ")?;
        write_count(errors, bytes, "byte")?;
    }
    if size.is_changed {
        write!(errors, ", changed in the copy")?;
    }
    Ok(())
}

/// Writes the line of something that a copy brings back.
fn write_return<E: Write>(
    errors: &mut E,
    changes: &[NodeChange<'_>],
    found: PlacedRest<'_>,
    size: Size,
) -> io::Result<()> {
    let Some((change, source)) = source_at(changes, found.place) else {
        return Ok(());
    };
    let revision = change.revision;
    write!(errors, "  r{revision}: ")?;
    write_joined(errors, change.path, found.rest)?;
    write!(errors, ", ")?;
    write_source(errors, source, found.rest)?;
    write!(errors, ": ")?;
    write_size(errors, size)?;
    writeln!(errors, "")
}

/// Says that copies would bring excluded content back, or that they come from paths that aren't included.
pub fn write_places<E: Write>(errors: &mut E, call: &Call<'_>, count: usize) -> io::Result<()> {
    write!(errors, "svndumpcut: nothing written: ")?;
    match call.side {
        Side::Exclude => write!(errors, "copies would bring excluded content back, in ")?,
        Side::Include => write!(errors, "sources of copies are not included, in ")?,
    }
    write_count(errors, count, "place")?;
    writeln!(errors, "")
}

/// Lists these places, with the size of what comes back for the first of them.
pub fn write_returns<E: Write>(
    errors: &mut E,
    changes: &[NodeChange<'_>],
    returns: &[PlacedRest<'_>],
    sizes: &[Size],
) -> io::Result<()> {
    for (found, size) in returns.iter().zip(sizes) {
        write_return(errors, changes, *found, *size)?;
    }
    write_rest(errors, returns.len(), sizes.len())
}

/// Says how many paths `--follow-copies` excludes, or includes, and that `--keep-copies` keeps what would come back.
pub fn write_advice<E: Write>(errors: &mut E, call: &Call<'_>, additions: usize) -> io::Result<()> {
    match call.side {
        Side::Exclude => write!(errors, "use --follow-copies to exclude these too, ")?,
        Side::Include => write!(errors, "use --follow-copies to include the sources too, ")?,
    }
    write_count(errors, additions, "path")?;
    write!(errors, " in all")?;
    if call.side == Side::Exclude && !call.keep {
        write!(errors, ", or --keep-copies to keep them")?;
    }
    writeln!(errors, "")
}

/// Says that copies after this revision change how the revisions up to it are cut, and lists the paths where the cuts
/// differ.
pub fn write_differences<E: Write>(
    errors: &mut E,
    call: &Call<'_>,
    number: u64,
    paths: &[&[u8]],
) -> io::Result<()> {
    write!(
        errors,
        "svndumpcut: nothing written: --follow-copies now cuts what exists up to r{number} differently, at "
    )?;
    write_count(errors, paths.len(), "path")?;
    writeln!(errors, ": cut the whole dump again")?;
    if call.quiet {
        return Ok(());
    }
    let most = shown(call);
    for path in paths.iter().take(most) {
        write_path_line(errors, path)?;
    }
    write_rest(errors, paths.len(), most)
}

/// Says how a repository can be kept up to date by the paths of its first cut, and lists these if the call is for whole
/// lists.
pub fn write_first_paths<E: Write>(
    errors: &mut E,
    call: &Call<'_>,
    paths: &[&[u8]],
) -> io::Result<()> {
    if !call.verbose {
        return writeln!(
            errors,
            "or go on with the paths of the first cut as prefixes, without --follow-copies (--verbose lists them)"
        );
    }
    writeln!(
        errors,
        "or go on with these paths of the first cut as prefixes, without --follow-copies:"
    )?;
    for path in paths {
        write_path_line(errors, path)?;
    }
    Ok(())
}

/// Writes the line of a path to which a copy is followed: for an excluded path, what is copied to it; for an included
/// path, what is copied from it.
fn write_addition<E: Write>(
    errors: &mut E,
    side: Side,
    changes: &[NodeChange<'_>],
    addition: &Addition,
) -> io::Result<()> {
    let Some((change, source)) = source_at(changes, addition.place) else {
        return Ok(());
    };
    let revision = change.revision;
    write!(errors, "  ")?;
    write_path(errors, &addition.path)?;
    write!(errors, " (r{revision}")?;
    let rest = match side {
        Side::Exclude => rest_behind(change.path, &addition.path),
        Side::Include => {
            let rest = rest_behind(source.path, &addition.path);
            write!(errors, ": ")?;
            write_joined(errors, change.path, rest)?;
            rest
        }
    };
    write!(errors, ", ")?;
    write_source(errors, source, rest)?;
    writeln!(errors, ")")
}

/// Warns that a path that is excluded too had other content in this revision.
pub fn write_own_life<E: Write>(errors: &mut E, path: &[u8], revision: u64) -> io::Result<()> {
    write!(errors, "svndumpcut: warning: ")?;
    write_path(errors, path)?;
    writeln!(
        errors,
        " is excluded in every revision, though what r{revision} has there was not copied from excluded content"
    )
}

/// Lists the paths that are excluded too, as copies of excluded content, or included too, as sources of copies.
pub fn write_additions<E: Write>(
    errors: &mut E,
    call: &Call<'_>,
    changes: &[NodeChange<'_>],
    additions: &[&Addition],
) -> io::Result<()> {
    if call.quiet || additions.is_empty() {
        return Ok(());
    }
    match call.side {
        Side::Exclude => write!(errors, "also excluded, as copies of excluded content: ")?,
        Side::Include => write!(errors, "also included, as sources of copies: ")?,
    }
    write_count(errors, additions.len(), "path")?;
    writeln!(errors, "")?;
    let most = shown(call);
    for addition in additions.iter().take(most) {
        write_addition(errors, call.side, changes, addition)?;
    }
    write_rest(errors, additions.len(), most)
}

/// Writes the revision and the path of the copy at this place, and its source.
fn write_copy<E: Write>(
    errors: &mut E,
    change: NodeChange<'_>,
    source: Source<'_>,
) -> io::Result<()> {
    let revision = change.revision;
    write!(errors, "r{revision}: ")?;
    write_path(errors, change.path)?;
    write!(errors, ", ")?;
    write_source(errors, source, b"")
}

/// Lists the copies, from this place on, after which paths are deleted. `deletes` has the paths for each change at a
/// path that isn't excluded.
pub fn write_deletes<E: Write>(
    errors: &mut E,
    changes: &[NodeChange<'_>],
    excluded: &Excluded,
    deletes: &[Vec<Vec<u8>>],
    from: usize,
) -> io::Result<()> {
    let mut behind = deletes;
    for (place, change) in changes.iter().enumerate() {
        if excluded.covers(change.path) {
            continue;
        }
        let [paths, others @ ..] = behind else {
            break;
        };
        behind = others;
        let Some((change, source)) = source_at(changes, place) else {
            continue;
        };
        if place >= from && !paths.is_empty() {
            write_copy(errors, change, source)?;
            write!(errors, ": ")?;
            write_count(errors, paths.len(), "path")?;
            writeln!(errors, " deleted after the copy")?;
        }
    }
    Ok(())
}

/// Says that a path should be deleted after the copy at this place, but no header line can have this path.
pub fn write_odd_delete<E: Write>(
    errors: &mut E,
    changes: &[NodeChange<'_>],
    place: usize,
) -> io::Result<()> {
    let Some((change, source)) = source_at(changes, place) else {
        return Ok(());
    };
    write!(errors, "svndumpcut: nothing written: ")?;
    write_copy(errors, change, source)?;
    writeln!(
        errors,
        ": a path that has to be deleted after the copy has a line feed or a zero byte"
    )
}

/// Says that copies bring back excluded content, and that it is kept.
pub fn write_kept<E: Write>(errors: &mut E, count: usize) -> io::Result<()> {
    write!(errors, "copies bring excluded content back, in ")?;
    write_count(errors, count, "place")?;
    writeln!(errors, " (--keep-copies)")
}

/// Says that copies are written as additions, since their sources aren't included.
pub fn write_written<E: Write>(errors: &mut E, count: usize) -> io::Result<()> {
    if count == 1 {
        return writeln!(
            errors,
            "1 copy is written as an addition, because its source is not included: svn merge does not take it for a copy; --follow-copies includes the source"
        );
    }
    write_grouped(errors, count)?;
    writeln!(
        errors,
        " copies are written as additions, because their sources are not included: svn merge does not take them for copies; --follow-copies includes the sources"
    )
}

/// Says how many copies of parents of prefixes are written as additions.
pub fn write_written_parents<E: Write>(errors: &mut E, count: usize) -> io::Result<()> {
    write!(
        errors,
        "copies of parents of prefixes that are written as additions: "
    )?;
    write_grouped(errors, count)?;
    writeln!(errors, "")
}

/// Says how many nodes are written in place of the copy at this place.
pub fn write_replaced<E: Write>(
    errors: &mut E,
    changes: &[NodeChange<'_>],
    place: usize,
    nodes: usize,
) -> io::Result<()> {
    let Some((change, source)) = source_at(changes, place) else {
        return Ok(());
    };
    write_copy(errors, change, source)?;
    write!(errors, ": written as ")?;
    write_count(errors, nodes, "node")?;
    writeln!(errors, "")
}
