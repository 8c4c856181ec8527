//! The dump that the filter reads if excluded content comes back. In it, other nodes replace the copies that bring it
//! back.
ghost use Rattle.std.specs.Prelude.{IfOk, IfSome, IsTrue, MatchBool};
ghost use Rattle.clap.specs.Walk.{is_empty};
ghost use Rattle.std.specs.List.{list_all};
ghost use Rattle.dump_cut.specs.steps.NamedPaths.{has_named_paths};
ghost use Rattle.dump_cut.specs.steps.ExcludedPaths.{paths_of};
ghost use Rattle.cut_cli.specs.steps.Cuts.{BringsNothingBack, BringsSomeBack, HasAdditionsFor, IsTakenDump};
ghost use Rattle.cut_cli.specs.steps.Examined.{IsFrontToCut};

use crate::read::{Front, read_front};
use dump_additions::{NotAdded, additions};
use dump_changes::{Memory, PropertyTable, TextTable};
use dump_cut::{Excluded, PlacedRest, Way, all_followed, first_rejected};
use dump_expansion::{Stead, expanded};
use dump_index::ChangeIndex;
use std::alloc::Global;

/// A node of the dump that other nodes replace, or before which one is added.
#[derive(Clone, Copy, Debug, PartialEq, Eq)]
pub struct Replaced {
    pub record_number: u64,
    /// How many nodes replace it, with itself if it is kept.
    pub nodes: usize,
}

/// The dump with additions.
#[derive(Drop)]
pub struct Expansion {
    pub text: Vec<u8>,
    /// The nodes that are replaced, in the order of the dump.
    pub replaced: Vec<Replaced>,
}

impl Expansion {
    /// The number of the dump's record for the record of the new text with this number: the same record, or the one
    /// that it replaces.
    pub fn given_number(&self, number: u64) -> u64 {
        let mut more: u64 = 0;
        for one in &self.replaced {
            let first = one.record_number.saturating_add(more);
            let after = first.saturating_add(one.nodes as u64);
            if number < first {
                break;
            }
            if number < after {
                return one.record_number;
            }
            more = more.saturating_add((one.nodes as u64).saturating_sub(1));
        }
        number.saturating_sub(more)
    }
}

/// The nodes that these replace, and how many nodes replace each.
fn replaced_by(alloc: Global, steads: &[Stead<'_>]) -> Result<Vec<Replaced>, Memory> {
    let mut replaced = Vec::new(alloc);
    for stead in steads {
        replaced.push(Replaced {
            record_number: stead.record_number,
            nodes: stead.nodes.len().saturating_add(usize::from(stead.keeps)),
        })?;
    }
    Ok(replaced)
}

/// What copies bring back of the excluded paths, in the order of the dump.
pub fn returns_of<'e>(
    alloc: Global,
    index: &ChangeIndex<'_>,
    excluded: &'e Excluded,
) -> Result<Vec<PlacedRest<'e>>, Memory>
    requires { IsTrue (list_all has_named_paths index.now) }
    ensures { IfOk result (λ returns. MatchBool (is_empty returns.items) (BringsNothingBack index.now (paths_of excluded.now))
        (BringsSomeBack index.now (paths_of excluded.now))) }
{
    all_followed(alloc, index, excluded, Way::ToCopies)
}

/// The dump with additions in place of each copy that brings back excluded content, and with deletes before the other
/// copies to a path where something is. If that can't be written for some copy, the first such copy, and why.
pub fn with_additions(
    alloc: Global,
    dump: &[u8],
    index: &ChangeIndex<'_>,
    excluded: &Excluded,
) -> Result<Result<Expansion, NotAdded>, Memory>
    requires named { IsTrue (list_all has_named_paths index.now) }
    requires taken { IsTakenDump dump.now index.now }
    ensures { IfOk result (λ found. IfOk found
        (λ expansion. HasAdditionsFor dump.now index.now (paths_of excluded.now) expansion.text.items)) }
{
    let table = PropertyTable::of(alloc, dump)?;
    let texts = TextTable::of(alloc, dump)?;
    match additions(alloc, &table, &texts, index, excluded)? {
        Ok(steads) => {
            let text = expanded(alloc, dump, &steads)?;
            let replaced = replaced_by(alloc, &steads)?;
            Ok(Ok(Expansion { text, replaced }))
        }
        Err(not_added) => Ok(Err(not_added)),
    }
}

/// The changes of a dump with additions. `None` if it can't be read, a load would reject one of its changes, or
/// excluded content comes back in it too. If `drop` is set, revisions are renumbered.
pub fn front_to_cut<'a>(
    alloc: Global,
    text: &'a [u8],
    excluded: &Excluded,
    drop: bool,
) -> Result<Option<Front<'a>>, Memory>
    ensures { IfOk result (λ found. IfSome found (IsFrontToCut text.now (paths_of excluded.now))) }
{
    let front = read_front(alloc, text, drop)?;
    if front.stop.is_some() {
        return Ok(None);
    }
    if first_rejected(alloc, &front.index)?.is_some() {
        return Ok(None);
    }
    if !returns_of(alloc, &front.index, excluded)?.is_empty() {
        return Ok(None);
    }
    Ok(Some(front))
}
