//! Reads the changes of a dump into an index, or says why this isn't possible.
ghost use Rattle.std.specs.Prelude.{◌≡◌, ℕ, List, None, true, IfOk, IsTrue};
ghost use Rattle.std.specs.List.{list_all};
ghost use Rattle.dump_index.specs.steps.InOrder.{are_in_order};
ghost use Rattle.dump_index.specs.steps.Listed.{listed_of};
ghost use Rattle.dump_changes.specs.steps.ListedDumps.{without_number};
ghost use Rattle.dump_changes.specs.declared.read.End.TheVariants.{Whole};
ghost use Rattle.dump_changes.specs.steps.DumpReading.{IsReadingOfDump};
ghost use Rattle.dump_cut.specs.steps.NamedPaths.{has_named_paths};
ghost use Rattle.cut_cli.specs.steps.Examined.{IsFrontOf, IsKnownOf};

use dump_changes::{End, Memory, Reading, copies_from_gap, read_changes, with_loaded_source};
use dump_index::{ChangeIndex, NodeChange, first_out_of_order};
use dump_text::FaultKind;
use std::alloc::Global;

/// Why the changes of a dump can't be read.
#[derive(Clone, Copy, Debug, PartialEq, Eq)]
pub enum Unread {
    /// No record is at this byte, because of this fault.
    Broken { kind: FaultKind, place: usize },
    /// The record with this number is a node, and the change that it makes isn't modelled.
    NoChange(u64),
    /// The record with this number is a node of revision 0 or of none, or a revision whose number isn't above the one before.
    OutOfOrder(u64),
    /// The record with this number is a node that copies from its own revision or from a later one.
    LaterCopy(u64),
    /// The record with this number is a node that copies from a revision that a load doesn't know.
    NoSource(u64),
    /// The record with this number is a node that copies from a revision which the dump doesn't have and which has no
    /// new number.
    Gap(u64),
}

/// The changes of a dump, up to where the reading stops.
#[derive(Drop)]
pub struct Front<'a> {
    pub index: ChangeIndex<'a>,
    /// The numbers of the revisions, in their order.
    pub numbers: Vec<u64>,
    /// Why it stops before the end of the dump, if it does.
    pub stop: Option<Unread>,
}

/// The changes of a dump, up to where the reading stops; each copy is of the revision from which a load takes it.
#[derive(Drop)]
pub(crate) struct Known<'a> {
    changes: Vec<NodeChange<'a>>,
    /// The numbers of the revisions, in their order.
    numbers: Vec<u64>,
    /// Why it stops before the end of the dump, if it does.
    stop: Option<Unread>,
}

/// Why the reading of a dump stops before its end, if it does.
fn stop_at(end: End) -> Option<Unread>
    ensures { result ≡ None → end ≡ Whole }
{
    match end {
        End::Whole => None,
        End::NoChange(number) => Some(Unread::NoChange(number)),
        End::OutOfOrder(number) => Some(Unread::OutOfOrder(number)),
        End::Broken { kind, place } => Some(Unread::Broken { kind, place }),
    }
}

/// The change as a load makes it, if the dump's revisions have these numbers. The error says why a load can't make it,
/// or if `drop` is set, why the filter can't renumber it.
fn known_change<'a>(
    numbers: &[u64],
    change: &NodeChange<'a>,
    drop: bool,
) -> Result<NodeChange<'a>, Unread>
    ensures { IfOk result (λ known. without_number (listed_of known) ≡ without_number (listed_of change.now)) }
{
    if drop && copies_from_gap(numbers, change) {
        return Err(Unread::Gap(change.record_number));
    }
    match with_loaded_source(numbers, change) {
        Some(known) => Ok(known),
        None => Err(Unread::NoSource(change.record_number)),
    }
}

/// The changes that were read, up to the first one that a load can't make or, if `drop` is set, the filter can't
/// renumber.
fn known_changes<'a>(alloc: Global, reading: Reading<'a>, drop: bool) -> Result<Known<'a>, Memory>
    ensures { IfOk result (λ known. (dump : List ℕ) → IsReadingOfDump dump reading.entry → IsKnownOf dump known) }
{
    let stop = stop_at(reading.end);
    if reading.numbered {
        return Ok(Known {
            changes: reading.changes,
            numbers: reading.numbers,
            stop,
        });
    }
    let mut changes = Vec::new(alloc);
    for change in &reading.changes {
        match known_change(&reading.numbers, change, drop) {
            Ok(known) => changes.push(known)?,
            Err(unread) => {
                return Ok(Known {
                    changes,
                    numbers: reading.numbers,
                    stop: Some(unread),
                });
            }
        }
    }
    Ok(Known {
        changes,
        numbers: reading.numbers,
        stop,
    })
}

/// The same, up to the first change that copies from its own revision or from a later one.
fn in_order(mut known: Known<'_>) -> Known<'_>
    ensures ordered { are_in_order 0 result.changes.items ≡ true }
    ensures known { (dump : List ℕ) → IsKnownOf dump known.entry → IsKnownOf dump result }
{
    if let Some(place) = first_out_of_order(&known.changes) {
        known.stop = Some(Unread::LaterCopy(known.changes[place].record_number));
        known.changes.truncate(place);
    }
    known
}

/// An index of the changes of the dump, up to where the reading stops. If `drop` is set, revisions are renumbered.
pub fn read_front<'a>(alloc: Global, dump: &'a [u8], drop: bool) -> Result<Front<'a>, Memory>
    ensures { IfOk result (λ front. IsFrontOf dump.now front × IsTrue (list_all has_named_paths front.index)) }
{
    let reading = read_changes(alloc, dump)?;
    let known = in_order(known_changes(alloc, reading, drop)?);
    let index = ChangeIndex::new(alloc, known.changes)?;
    Ok(Front {
        index,
        numbers: known.numbers,
        stop: known.stop,
    })
}
