//! Examines a dump before anything is written.
ghost use Rattle.std.specs.Prelude.{◌≡◌, List, None, IfOk, IsTrue};
ghost use Rattle.std.specs.List.{AllZip, list_all};
ghost use Rattle.dump_records.specs.DumpText.{Ending, HasRecords};
ghost use Rattle.dump_records.specs.RecordText.{DumpRecord};
ghost use Rattle.dump_index.specs.steps.IndexLaws.{IsListed};
ghost use Rattle.dump_index.specs.steps.ToldKinds.{kinds_told_by};
ghost use Rattle.dump_trees.specs.steps.Looking.{Placed};
ghost use Rattle.dump_cut.specs.steps.NamedPaths.{has_named_paths};
ghost use Rattle.dump_cut.specs.steps.ExcludedPaths.{paths_of};
ghost use Rattle.dump_cut.specs.steps.Returned.{way_meant};
ghost use Rattle.cut_cli.specs.steps.Cuts.{AreDeletesIfAny, AreNamed, BeginsAsBefore, BringsSomeBack, FollowsAsAsked, HasPartIf, IsAskedBy, IsTakenDump, LeavesIncluded, text_read};
ghost use Rattle.cut_cli.specs.steps.Words.{cut_meaning};
ghost use Rattle.cut_cli.specs.steps.Examined.{IsExamined, IsExpandedToCut, IsFrontOf, IsPrepared, expansion_text};

use crate::copy_lines::{write_advice, write_deletes, write_odd_delete, write_places};
use crate::earlier::cuts_otherwise;
use crate::expansion::{Expansion, front_to_cut, returns_of, with_additions};
use crate::faults::{write_no_part, write_not_added, write_rejected, write_unread};
use crate::lines::write_siblings;
use crate::numbers::{ends_elsewhere, report_holes, report_last};
use crate::own_lives::report_additions;
use crate::parents::report_parents;
use crate::prefixes::report_prefixes;
use crate::read::{Front, Unread, read_front};
use crate::summary::Counts;
use crate::words::Call;
use crate::written::{count_earlier, list_returns, report_replaced, report_written};
use dump_additions::NotAdded;
use dump_changes::Memory;
use dump_cut::{
    Deletes, Excluded, NoPart, PlacedRest, Rejected, Way, add_named_siblings, find_siblings,
    first_rejected, follow, no_part_after,
};
use dump_index::{ChangeIndex, NodeChange};
use dump_rules::{Options, Side};
use std::alloc::Global;
use std::io::Write;

/// Why the program writes nothing.
#[derive(Clone, Copy, Debug, PartialEq, Eq)]
pub enum Obstacle {
    /// The changes of the dump can't be read.
    Unread(Unread),
    /// `svnadmin load` would reject a change of the dump.
    Rejected(Rejected),
    /// The last revision of the dump is not the one that the call names.
    EndsElsewhere,
    /// The dump has no part after the revision that the call names.
    NoPart(NoPart),
    /// No revision has one of the prefixes, and the call doesn't allow that.
    Missing,
    /// The call follows copies, and a call for the revisions before its part alone would cut them in another way.
    CutsOtherwise,
    /// Copies would bring excluded content back.
    ComesBack,
    /// After the change at this place, which is a copy, a path should be deleted that no header line can have.
    OddDelete(usize),
    /// No nodes can be written in place of a copy that comes from a path that isn't included.
    NotAdded(NotAdded),
}

/// How a dump is cut.
#[derive(Drop)]
pub struct Ready {
    /// The options of the filter that writes the cut.
    pub options: Options,
    /// The paths to delete after each node that the filter keeps; `None` if there are none.
    pub deletes: Option<Deletes>,
    /// The counts for the revisions that are written.
    pub counts: Counts,
    /// The text that the filter reads instead of the dump, if excluded content comes back in the dump.
    pub expansion: Option<Expansion>,
}

impl Ready {
    /// The text that the filter reads.
    pub fn text<'a>(&'a self, dump: &'a [u8]) -> &'a [u8]
        ensures { result.now ≡ text_read (expansion_text self.now.expansion) dump.now }
    {
        match &self.expansion {
            Some(expansion) => &expansion.text,
            None => dump,
        }
    }
}

/// The paths that a call excludes.
#[derive(Drop)]
pub(crate) struct Asked {
    pub excluded: Excluded,
    /// The paths that it includes, under `include`.
    pub included: Option<Excluded>,
}

impl Asked {
    /// The paths of this side of the call: what it includes, or what it excludes.
    pub(crate) fn named(&self) -> &Excluded {
        match &self.included {
            Some(included) => included,
            None => &self.excluded,
        }
    }
}

/// How many revisions have changes, all of them at excluded paths.
fn count_emptied(excluded: &Excluded, changes: &[NodeChange<'_>]) -> u64 {
    let mut emptied: u64 = 0;
    let mut revision = 0;
    let mut keeps_some = true;
    for change in changes {
        if change.revision != revision {
            emptied = emptied.saturating_add(u64::from(!keeps_some));
            revision = change.revision;
            keeps_some = false;
        }
        keeps_some = keeps_some || !excluded.covers(change.path);
    }
    emptied.saturating_add(u64::from(!keeps_some))
}

/// How many of the changes are at paths that aren't excluded.
fn count_kept(excluded: &Excluded, changes: &[NodeChange<'_>]) -> usize {
    let mut kept: usize = 0;
    for change in changes {
        kept = kept.saturating_add(usize::from(!excluded.covers(change.path)));
    }
    kept
}

/// How many paths are deleted after copies, not counting those after the first kept nodes.
fn count_deletes(deletes: &Option<Deletes>, first: usize) -> usize {
    let mut count: usize = 0;
    if let Some(deletes) = deletes {
        for paths in deletes.behind().iter().skip(first) {
            count = count.saturating_add(paths.len());
        }
    }
    count
}

/// The counts for the revisions that are written.
fn counts_of(
    index: &ChangeIndex<'_>,
    excluded: &Excluded,
    call: &Call<'_>,
    deletes: &Option<Deletes>,
) -> Counts {
    let changes = index.changes();
    let first = count_earlier(changes, call.after);
    let kept = count_kept(excluded, &changes[..first]);
    Counts {
        emptied: if call.drop {
            0
        } else {
            count_emptied(excluded, &changes[first..])
        },
        deleted: count_deletes(deletes, kept),
        written: None,
        kept_before: kept as u64,
        dropped_before: first.saturating_sub(kept) as u64,
    }
}

/// The paths that the prefixes name.
fn named(alloc: Global, call: &Call<'_>) -> Result<Excluded, Memory>
    ensures { IfOk result (λ excluded. AreNamed (cut_meaning call.now).prefixes (paths_of excluded)) }
{
    Excluded::of(alloc, &call.prefixes)
}

/// Which way a call of this side follows copies: from what it excludes to its copies, or from what it includes to its sources.
fn way_of(side: Side) -> Way {
    match side {
        Side::Exclude => Way::ToCopies,
        Side::Include => Way::ToSources,
    }
}

/// How many paths `--follow-copies` would add.
fn count_additions(alloc: Global, index: &ChangeIndex<'_>, call: &Call<'_>) -> Result<usize, Memory>
    requires { IsTrue (list_all has_named_paths index.now) }
{
    let mut paths = named(alloc, call)?;
    let additions = follow(alloc, index, &mut paths, way_of(call.side))?;
    Ok(additions.len())
}

/// Reports what copies would bring back.
fn report_returns<E: Write>(
    alloc: Global,
    dump: &[u8],
    index: &ChangeIndex<'_>,
    excluded: &Excluded,
    call: &Call<'_>,
    returns: &[PlacedRest<'_>],
    errors: &mut E,
) -> Result<(), Memory>
    requires { IsTrue (list_all has_named_paths index.now) }
{
    let _ = write_places(errors, call, returns.len());
    if call.quiet {
        return Ok(());
    }
    list_returns(alloc, dump, index, excluded, call, returns, errors)?;
    if call.follow {
        return Ok(());
    }
    let count = count_additions(alloc, index, call)?;
    let _ = write_advice(errors, call, count);
    Ok(())
}

/// The paths that the call names, and if it follows copies, those to which it follows them. It reports the latter.
fn followed<E: Write>(
    alloc: Global,
    index: &ChangeIndex<'_>,
    call: &Call<'_>,
    way: Way,
    errors: &mut E,
) -> Result<Excluded, Memory>
    requires { IsTrue (list_all has_named_paths index.now) }
    ensures { IfOk result (λ paths. FollowsAsAsked (cut_meaning call.now) index.now (way_meant way) (paths_of paths)) }
{
    let mut paths = named(alloc, call)?;
    if !call.follow {
        return Ok(paths);
    }
    let additions = follow(alloc, index, &mut paths, way)?;
    report_additions(alloc, index, &paths, call, &additions, errors)?;
    Ok(paths)
}

/// The siblings of what the call includes. It reports which sources of copies are included too, and which parents are
/// files.
fn leave_included<E: Write>(
    alloc: Global,
    dump: &[u8],
    index: &ChangeIndex<'_>,
    call: &Call<'_>,
    errors: &mut E,
) -> Result<Asked, Memory>
    requires { IsTrue (list_all has_named_paths index.now) }
    ensures { IfOk result (λ asked. LeavesIncluded (cut_meaning call.now) dump.now index.now (paths_of asked.excluded)) }
{
    let included = followed(alloc, index, call, Way::ToSources, errors)?;
    let mut siblings = find_siblings(alloc, index, &included)?;
    add_named_siblings(alloc, dump, &included, &mut siblings)?;
    report_parents(alloc, index, &included, errors)?;
    Ok(Asked {
        excluded: siblings,
        included: Some(included),
    })
}

/// The paths that the call excludes.
pub(crate) fn ask_paths<E: Write>(
    alloc: Global,
    dump: &[u8],
    index: &ChangeIndex<'_>,
    call: &Call<'_>,
    errors: &mut E,
) -> Result<Asked, Memory>
    requires { IsTrue (list_all has_named_paths index.now) }
    ensures { IfOk result (λ asked. IsAskedBy call.now.side (cut_meaning call.now) dump.now index.now (paths_of asked.excluded)) }
{
    match call.side {
        Side::Exclude => Ok(Asked {
            excluded: followed(alloc, index, call, Way::ToCopies, errors)?,
            included: None,
        }),
        Side::Include => leave_included(alloc, dump, index, call, errors),
    }
}

/// Lists the excluded siblings of included paths.
fn report_siblings<E: Write>(
    alloc: Global,
    excluded: &Excluded,
    call: &Call<'_>,
    errors: &mut E,
) -> Result<(), Memory> {
    if call.verbose && call.side == Side::Include {
        let paths = excluded.paths(alloc)?;
        let _ = write_siblings(errors, &paths);
    }
    Ok(())
}

/// The paths to delete after each kept change; `None` if there are none. It reports them.
fn look_for_deletes<E: Write>(
    alloc: Global,
    index: &ChangeIndex<'_>,
    excluded: &Excluded,
    call: &Call<'_>,
    errors: &mut E,
) -> Result<Result<Option<Deletes>, usize>, Memory>
    requires { IsTrue (list_all has_named_paths index.now) }
    ensures { IfOk result (λ found. IfOk found (λ deletes. (placed : List Placed) → AllZip IsListed index.now placed
        → AreDeletesIfAny (paths_of excluded.now) (kinds_told_by index.now) placed deletes)) }
{
    match Deletes::find(alloc, index, excluded)? {
        Ok(deletes) => {
            if deletes.is_empty() {
                return Ok(Ok(None));
            }
            if call.verbose {
                let changes = index.changes();
                let first = count_earlier(changes, call.after);
                let _ = write_deletes(errors, changes, excluded, deletes.behind(), first);
            }
            Ok(Ok(Some(deletes)))
        }
        Err(place) => {
            let _ = write_odd_delete(errors, index.changes(), place);
            Ok(Err(place))
        }
    }
}

/// How to write the cut with a filter that excludes these paths, and with deletes after copies.
fn prepare<E: Write>(
    alloc: Global,
    index: &ChangeIndex<'_>,
    excluded: &Excluded,
    call: &Call<'_>,
    errors: &mut E,
) -> Result<Result<Ready, Obstacle>, Memory>
    requires { IsTrue (list_all has_named_paths index.now) }
    ensures { IfOk result (IsPrepared (cut_meaning call.now) (paths_of excluded.now) index.now) }
{
    report_siblings(alloc, excluded, call, errors)?;
    let deletes = match look_for_deletes(alloc, index, excluded, call, errors)? {
        Ok(deletes) => deletes,
        Err(place) => return Ok(Err(Obstacle::OddDelete(place))),
    };
    let options = excluded.filter_options(alloc, call.drop)?;
    let counts = counts_of(index, excluded, call, &deletes);
    Ok(Ok(Ready {
        options,
        deletes,
        counts,
        expansion: None,
    }))
}

/// How to cut a dump with additions, instead of a dump where these paths come back; `None` if that isn't possible. It
/// reports what is added.
fn prepare_expanded<E: Write>(
    alloc: Global,
    dump: &[u8],
    index: &ChangeIndex<'_>,
    asked: &Asked,
    call: &Call<'_>,
    returns: &[PlacedRest<'_>],
    errors: &mut E,
) -> Result<Option<Result<Ready, Obstacle>>, Memory>
    requires named { IsTrue (list_all has_named_paths index.now) }
    requires taken { IsTakenDump dump.now index.now }
    ensures { IfOk result (IsExpandedToCut (cut_meaning call.now) dump.now index.now (paths_of asked.now.excluded)) }
{
    let excluded = &asked.excluded;
    let expansion = match with_additions(alloc, dump, index, excluded)? {
        Ok(expansion) => expansion,
        Err(not_added) => {
            let _ = write_not_added(errors, dump, index.changes(), not_added);
            return Ok(Some(Err(Obstacle::NotAdded(not_added))));
        }
    };
    let found = {
        let Some(front) = front_to_cut(alloc, &expansion.text, excluded, call.drop)? else {
            return Ok(None);
        };
        report_written(alloc, dump, index, asked, call, returns, errors)?;
        prepare(alloc, &front.index, excluded, call, errors)?
    };
    match found {
        Ok(mut ready) => {
            ready.counts.written = report_replaced(index, excluded, &expansion, call, errors);
            ready.expansion = Some(expansion);
            Ok(Some(Ok(ready)))
        }
        Err(obstacle) => Ok(Some(Err(obstacle))),
    }
}

/// Examines the changes of a dump that loads, in which these excluded paths come back.
fn examine_returns<E: Write>(
    alloc: Global,
    dump: &[u8],
    index: &ChangeIndex<'_>,
    asked: &Asked,
    call: &Call<'_>,
    returns: &[PlacedRest<'_>],
    errors: &mut E,
) -> Result<Result<Ready, Obstacle>, Memory>
    requires named { IsTrue (list_all has_named_paths index.now) }
    requires taken { IsTakenDump dump.now index.now }
    requires asked { IsAskedBy call.now.side (cut_meaning call.now) dump.now index.now (paths_of asked.now.excluded) }
    requires goes_on { BeginsAsBefore (cut_meaning call.now) dump.now index.now (paths_of asked.now.excluded) }
    requires back { BringsSomeBack index.now (paths_of asked.now.excluded) }
    ensures { IfOk result (IsExamined (cut_meaning call.now) dump.now) }
{
    if call.side == Side::Include || call.keep {
        if let Some(found) = prepare_expanded(alloc, dump, index, asked, call, returns, errors)? {
            return Ok(found);
        }
    }
    report_returns(alloc, dump, index, &asked.excluded, call, returns, errors)?;
    Ok(Err(Obstacle::ComesBack))
}

/// Examines the changes of a dump that loads.
fn examine_changes<E: Write>(
    alloc: Global,
    dump: &[u8],
    index: &ChangeIndex<'_>,
    numbers: &[u64],
    call: &Call<'_>,
    errors: &mut E,
) -> Result<Result<Ready, Obstacle>, Memory>
    requires named { IsTrue (list_all has_named_paths index.now) }
    requires taken { IsTakenDump dump.now index.now }
    ensures { IfOk result (IsExamined (cut_meaning call.now) dump.now) }
{
    if report_prefixes(alloc, numbers.first().copied(), index, call, errors)? {
        return Ok(Err(Obstacle::Missing));
    }
    report_last(index, numbers.last().copied(), errors);
    let asked = ask_paths(alloc, dump, index, call, errors)?;
    if cuts_otherwise(alloc, dump, index, &asked.excluded, call, errors)? {
        return Ok(Err(Obstacle::CutsOtherwise));
    }
    let returns = returns_of(alloc, index, &asked.excluded)?;
    if returns.is_empty() {
        return prepare(alloc, index, &asked.excluded, call, errors);
    }
    examine_returns(alloc, dump, index, &asked, call, &returns, errors)
}

/// Examines the changes of a dump up to the record at which its reading stops. If a load would reject a change, the
/// first such change is before that record.
fn examine_front<E: Write>(
    alloc: Global,
    dump: &[u8],
    front: &Front<'_>,
    call: &Call<'_>,
    errors: &mut E,
) -> Result<Result<Ready, Obstacle>, Memory>
    requires named { IsTrue (list_all has_named_paths front.now.index) }
    requires front { IsFrontOf dump.now front.now }
    ensures examined { IfOk result (IsExamined (cut_meaning call.now) dump.now) }
    ensures part { IfOk result (λ found. IfOk found (λ ready. HasPartIf call.now.after dump.now)) }
{
    let index = &front.index;
    if let Some(rejected) = first_rejected(alloc, index)? {
        let _ = write_rejected(errors, dump, index.changes(), rejected);
        return Ok(Err(Obstacle::Rejected(rejected)));
    }
    if let Some(unread) = front.stop {
        let _ = write_unread(errors, dump, unread);
        return Ok(Err(Obstacle::Unread(unread)));
    }
    if ends_elsewhere(&front.numbers, call, errors) {
        return Ok(Err(Obstacle::EndsElsewhere));
    }
    if let Some(why) = no_part(dump, call) {
        let _ = write_no_part(errors, call.after, why);
        return Ok(Err(Obstacle::NoPart(why)));
    }
    examine_changes(alloc, dump, index, &front.numbers, call, errors)
}

/// Why a whole dump has no part after the revision that the call names, if it names one.
fn no_part(dump: &[u8], call: &Call<'_>) -> Option<NoPart>
    ensures { (records : List DumpRecord) → HasRecords dump.now records Ending.Whole → result ≡ None → HasPartIf call.now.after dump.now }
{
    match call.after {
        Some(number) => no_part_after(dump, number),
        None => None,
    }
}

/// Examines whether the dump loads, what the call excludes, and whether the filter can write the cut. It reports what
/// it finds.
pub fn examine<E: Write>(
    alloc: Global,
    dump: &[u8],
    call: &Call<'_>,
    errors: &mut E,
) -> Result<Result<Ready, Obstacle>, Memory>
    ensures examined { IfOk result (IsExamined (cut_meaning call.now) dump.now) }
    ensures part { IfOk result (λ found. IfOk found (λ ready. HasPartIf call.now.after dump.now)) }
{
    let front = read_front(alloc, dump, call.drop)?;
    report_holes(alloc, &front.numbers, call, errors)?;
    examine_front(alloc, dump, &front, call, errors)
}
