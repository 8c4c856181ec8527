//! The revisions that are kept, and their new numbers.
ghost use Rattle.std.specs.Prelude.{◌≡◌, ◌++◌, ◌<◌, ◌≤◌, [], ◌∷◌, All, OnErr, OnOk, count_by, length, nat_le, nat_lt, option_map};
ghost use Rattle.dump_rules.specs.steps.NewRanges.{new_range};
ghost use Rattle.dump_rules.specs.steps.ReadRanges.{span_range};
ghost use Rattle.dump_rules.specs.Renumbering.{image};
ghost use Rattle.dump_rules.specs.steps.RisingNumbers.{RiseFrom};

use crate::memory::Memory;
use crate::ranges::Span;
use std::alloc::Global;
use std::marker::Model;

/// The revisions that the filter keeps, and their new numbers.
///
/// New numbers count up from the dump's first revision, without gaps. A caller adds the kept revisions in rising
/// order, and a binary search finds the new number of each.
#[derive(Drop)]
pub struct Reach {
    first: u64,
    numbers: Vec<u64>,
}

impl Model for Reach {
    ghost use Rattle.dump_rules.specs.Renumbering.{KeptRevisions};
    ghost use Rattle.dump_rules.specs.steps.RisingNumbers.{RiseFrom};

    ghost Value = { KeptRevisions };

    ghost view = { λ r. record { first = r.first; numbers = r.numbers.items } };

    ghost invariant = { λ r. RiseFrom r.first r.numbers.items };
}

impl Reach {
    /// A table without kept revisions, for a dump whose first revision has this number. It allocates nothing.
    pub fn new(alloc: Global, first: u64) -> Reach
        ensures { result ≡ record { first = first; numbers = [] } }
    {
        Reach {
            first,
            numbers: Vec::new(alloc),
        }
    }

    /// Adds a kept revision. If the allocation fails, the table is unchanged.
    pub fn push(&mut self, revision: u64) -> Result<(), Memory>
        requires from_first { self.old.first ≤ revision }
        requires above_last { All (λ k. k < revision) self.old.numbers }
        ensures ok { OnOk result (self.new ≡ record self.old { numbers = self.old.numbers ++ revision ∷ [] }) }
        ensures err { OnErr result (self.new ≡ self.old) }
    {
        Ok(self.numbers.push(revision)?)
    }

    /// The new number of the last kept revision that is at most this one, if there is one.
    pub fn reach(&self, revision: u64) -> Option<u64>
        ensures { result ≡ image self.now revision }
    {
        let up_to = self.numbers.partition_point(|number| *number <= revision);
        let before = up_to.checked_sub(1)?;
        Some(self.first + before as u64)
    }

    /// How many kept revisions have a lower number.
    fn below(&self, revision: u64) -> usize
        ensures { result ≡ count_by (λ k. nat_lt k revision) self.now.numbers }
    {
        self.numbers.partition_point(|number| *number < revision)
    }

    /// How many kept revisions have at most this number.
    fn up_to(&self, revision: u64) -> usize
        ensures { result ≡ count_by (λ k. nat_le k revision) self.now.numbers }
    {
        self.numbers.partition_point(|number| *number <= revision)
    }

    /// The new numbers of the kept revisions in a range, if there are any.
    pub(crate) fn span(&self, span: Span) -> Option<Span>
        ensures { option_map span_range result ≡ new_range self.now (span_range span) }
    {
        let below = self.below(span.from);
        let up_to = self.up_to(span.to);
        if below >= up_to {
            return None;
        }
        Some(Span {
            from: self.first + below as u64,
            to: self.first + (up_to - 1) as u64,
            inheritable: span.inheritable,
        })
    }

    /// The number of the dump's first revision.
    pub fn first(&self) -> u64
        ensures first { result ≡ self.now.first }
        ensures rising { RiseFrom self.now.first self.now.numbers }
    {
        self.first
    }

    /// How many revisions are kept.
    pub fn count(&self) -> u64
        ensures { result ≡ length self.now.numbers }
    {
        self.numbers.len() as u64
    }
}
