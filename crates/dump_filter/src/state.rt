//! What the filter stores about the records that it has taken.
ghost use Rattle.std.specs.Prelude.{◌≡◌, None};
ghost use Rattle.dump_filter.specs.Groups.{is_pad, keeps_empty};
ghost use Rattle.dump_filter.specs.steps.State.{view_pending, view_group, view_state, new_state};
ghost use Rattle.dump_filter.specs.steps.Advance.{stays, pads, emptied};
ghost use Rattle.dump_filter.specs.steps.Decision.{takes_node};

use crate::pending::Pending;
use crate::revisions::{Revisions, revision_number};
use dump_records::Record;
use dump_rules::{Empty, Options};
use std::alloc::Global;

/// What a run kept, dropped and checked.
#[derive(Clone, Copy, Debug, PartialEq, Eq)]
pub struct Report {
    pub revisions_kept: u64,
    pub revisions_dropped: u64,
    pub nodes_kept: u64,
    pub nodes_dropped: u64,
    /// The number of kept texts that were compared with a digest.
    pub texts_checked: u64,
}

/// The group to which the next node belongs.
#[derive(Drop)]
pub(crate) enum PresentGroup<'a> {
    /// There is none: the next record may not be a node.
    None,
    /// Its revision isn't written yet.
    Pending(Pending<'a>),
    /// Its revision is written.
    Written,
}

/// What the filter stores about the records that it has taken.
#[derive(Drop)]
pub(crate) struct State<'a> {
    /// The last record.
    pub(crate) last: Option<Record<'a>>,
    pub(crate) group: PresentGroup<'a>,
    pub(crate) revisions: Revisions,
    pub(crate) report: Report,
}

/// Whether emptied revisions are padded.
fn is_pad(empty: Empty) -> bool
    ensures { result ≡ is_pad empty }
{
    matches!(empty, Empty::Pad)
}

/// Whether the options keep a revision that has no kept node, unless it is revision 0, which always stays. `bare` says
/// whether it had no nodes.
pub fn keeps_empty(empty: Empty, bare: bool) -> bool
    ensures { result ≡ keeps_empty empty bare }
{
    match empty {
        Empty::Pad => true,
        Empty::DropEmptied => bare,
        Empty::DropAll => false,
    }
}

impl<'a> Pending<'a> {
    /// Whether the options keep the revision if its group ends now.
    pub(crate) fn stays(&self, options: &Options) -> bool
        ensures { result ≡ stays options.now (view_pending self.now) }
    {
        revision_number(&self.revision.item()) == 0 || keeps_empty(options.empty(), self.bare)
    }

    /// Whether the revision is padded if its group ends now.
    pub(crate) fn pads(&self, options: &Options) -> bool
        ensures { result ≡ pads options.now (view_pending self.now) }
    {
        !self.bare && is_pad(options.empty()) && !options.preserve()
    }
}

impl<'a> PresentGroup<'a> {
    /// Whether the next record may be a node.
    pub(crate) fn takes_node(&self) -> bool
        ensures { result ≡ takes_node (view_group self.now) }
    {
        match self {
            PresentGroup::None => false,
            PresentGroup::Pending(_) | PresentGroup::Written => true,
        }
    }

    /// Stores that a node of this group was dropped.
    pub(crate) fn drop_node(&mut self)
        ensures { view_group self.new ≡ emptied (view_group self.old) }
    {
        match self {
            PresentGroup::Pending(pending) => pending.bare = false,
            PresentGroup::None | PresentGroup::Written => {}
        }
    }
}

impl<'a> State<'a> {
    /// The state before the first record. It allocates nothing.
    pub(crate) fn new(alloc: Global) -> State<'a>
        ensures state { view_state result ≡ new_state }
        ensures last { result.last ≡ None }
    {
        State {
            last: None,
            group: PresentGroup::None,
            revisions: Revisions::new(alloc),
            report: Report {
                revisions_kept: 0,
                revisions_dropped: 0,
                nodes_kept: 0,
                nodes_dropped: 0,
                texts_checked: 0,
            },
        }
    }
}
