//! Whether the call cuts the revisions before its part in the same way as those of a dump that ends there.
ghost use Rattle.std.specs.Prelude.{IfOk, IsTrue, MatchBool, map};
ghost use Rattle.std.specs.List.{list_all};
ghost use Rattle.dump_trees.specs.Paths.{names_of};
ghost use Rattle.dump_cut.specs.steps.NamedPaths.{has_named_paths};
ghost use Rattle.dump_cut.specs.steps.ExcludedPaths.{paths_of};
ghost use Rattle.cut_cli.specs.steps.Cuts.{BeginsAsBefore, CutsOtherwise, DiffersBefore};
ghost use Rattle.cut_cli.specs.steps.Words.{cut_meaning};

use crate::copy_lines::{write_differences, write_first_paths};
use crate::examine::ask_paths;
use crate::words::Call;
use dump_changes::Memory;
use dump_cut::{Excluded, cut_differences, first_part};
use dump_index::ChangeIndex;
use std::alloc::Global;
use std::io::{self, Write};

/// The paths at which the cut that excludes these paths differs, up to this revision, from the cut of the dump that
/// ends there.
fn differences_before(
    alloc: Global,
    dump: &[u8],
    index: &ChangeIndex<'_>,
    excluded: &Excluded,
    call: &Call<'_>,
    number: u64,
) -> Result<Vec<Vec<u8>>, Memory>
    requires { IsTrue (list_all has_named_paths index.now) }
    ensures { IfOk result (λ found. DiffersBefore (cut_meaning call.now) dump.now index.now number (paths_of excluded.now)
        (map (λ path. names_of path.items) found.items)) }
{
    let first = first_part(dump, number);
    let index = index.up_to(alloc, number)?;
    // what this call excludes there was reported when those revisions were cut
    let asked = ask_paths(alloc, first, &index, call, &mut io::sink())?;
    cut_differences(alloc, first, &index, excluded, &asked.excluded)
}

/// Reports where the two cuts differ up to a revision: the topmost of these paths.
fn report_differences<E: Write>(
    alloc: Global,
    call: &Call<'_>,
    number: u64,
    found: &[Vec<u8>],
    errors: &mut E,
) -> Result<(), Memory> {
    let mut paths: Vec<&[u8]> = Vec::new(alloc);
    for path in found {
        paths.push(path.as_slice())?;
    }
    let topmost = Excluded::of(alloc, &paths)?;
    let _ = write_differences(errors, call, number, &topmost.paths(alloc)?);
    Ok(())
}

/// Reports how the repository that was loaded can be kept up to date all the same.
fn report_way_out<E: Write>(
    alloc: Global,
    dump: &[u8],
    index: &ChangeIndex<'_>,
    call: &Call<'_>,
    number: u64,
    errors: &mut E,
) -> Result<(), Memory>
    requires { IsTrue (list_all has_named_paths index.now) }
{
    if call.quiet {
        return Ok(());
    }
    let earlier = index.up_to(alloc, number)?;
    let asked = ask_paths(
        alloc,
        first_part(dump, number),
        &earlier,
        call,
        &mut io::sink(),
    )?;
    let _ = write_first_paths(errors, call, &asked.named().paths(alloc)?);
    Ok(())
}

/// Whether the call follows copies and writes the part after a revision, and the cut up to this revision differs from
/// the cut of a dump that ends there. It reports where.
pub fn cuts_otherwise<E: Write>(
    alloc: Global,
    dump: &[u8],
    index: &ChangeIndex<'_>,
    excluded: &Excluded,
    call: &Call<'_>,
    errors: &mut E,
) -> Result<bool, Memory>
    requires { IsTrue (list_all has_named_paths index.now) }
    ensures { IfOk result (λ found. MatchBool found
        (CutsOtherwise (cut_meaning call.now) dump.now index.now (paths_of excluded.now))
        (BeginsAsBefore (cut_meaning call.now) dump.now index.now (paths_of excluded.now))) }
{
    let Some(number) = call.after else {
        return Ok(false);
    };
    if !call.follow {
        return Ok(false);
    }
    let found = differences_before(alloc, dump, index, excluded, call, number)?;
    if found.is_empty() {
        return Ok(false);
    }
    report_differences(alloc, call, number, &found, errors)?;
    report_way_out(alloc, dump, index, call, number, errors)?;
    Ok(true)
}
