//! Which revisions of a dump the filter keeps.
ghost use Rattle.std.specs.Prelude.{◌≡◌, ◌++◌, IfOk, OnOk};
ghost use Rattle.dump_records.specs.steps.RecordViews.{record_item};
ghost use Rattle.dump_cut.specs.steps.OpenRevisions.{AreFatesIn, ended_fates, fates_before, open_after, open_fate};

use dump_digest::is_kept;
use dump_filter::keeps_empty;
use dump_records::{Cut, Cutter, Record};
use dump_rules::{Memory, Options};
use std::alloc::Global;

/// A revision of a dump, and whether the filter keeps it.
#[derive(Clone, Copy, Debug, PartialEq, Eq)]
pub struct RevisionFate {
    pub number: u64,
    pub stays: bool,
}

/// A revision after which the dump may still have nodes of it.
#[derive(Clone, Copy)]
struct OpenRevision {
    number: u64,
    /// Whether it has no node so far.
    bare: bool,
    /// Whether the filter keeps one of its nodes.
    kept: bool,
}

impl OpenRevision {
    /// Whether the filter keeps it, if it has no more nodes.
    fn fate(self, options: &Options) -> RevisionFate
        ensures { result ≡ open_fate options.now self }
    {
        RevisionFate {
            number: self.number,
            stays: self.number == 0 || self.kept || keeps_empty(options.empty(), self.bare),
        }
    }
}

/// Appends the open revision, if it has no more nodes.
fn push_ended(
    fates: &mut Vec<RevisionFate>,
    present: Option<OpenRevision>,
    options: &Options,
) -> Result<(), Memory>
    ensures { OnOk result (fates.new.items ≡ fates.old.items ++ ended_fates options.now present) }
{
    if let Some(revision) = present {
        fates.push(revision.fate(options))?;
    }
    Ok(())
}

/// The same, unless this record is one more node of it.
fn push_before(
    fates: &mut Vec<RevisionFate>,
    present: Option<OpenRevision>,
    item: &Record<'_>,
    options: &Options,
) -> Result<(), Memory>
    ensures { OnOk result (fates.new.items ≡ fates.old.items ++ fates_before options.now present (record_item item.now)) }
{
    if !item.is_node() {
        push_ended(fates, present, options)?;
    }
    Ok(())
}

/// The open revision after this record.
fn open_after(
    present: Option<OpenRevision>,
    item: &Record<'_>,
    options: &Options,
) -> Option<OpenRevision>
    ensures { result ≡ open_after options.now present (record_item item.now) }
{
    if let Some(number) = item.revision() {
        return Some(OpenRevision {
            number,
            bare: true,
            kept: false,
        });
    }
    if !item.is_node() {
        return None;
    }
    let kept = is_kept(item, options);
    present.map(|revision| OpenRevision {
        number: revision.number,
        bare: false,
        kept: revision.kept || kept,
    })
}

/// The revisions of a dump, in its order, up to where the list of records ends, and which of them the filter keeps.
pub fn revision_fates(
    alloc: Global,
    dump: &[u8],
    options: &Options,
) -> Result<Vec<RevisionFate>, Memory>
    ensures { IfOk result (λ fates. AreFatesIn options.now dump.now fates.items) }
{
    let mut cutter = Cutter::new(dump);
    let mut present = None;
    let mut fates = Vec::new(alloc);
    while let Cut::Item(item) = cutter.next() {
        push_before(&mut fates, present, &item, options)?;
        present = open_after(present, &item, options);
    }
    push_ended(&mut fates, present, options)?;
    Ok(fates)
}
