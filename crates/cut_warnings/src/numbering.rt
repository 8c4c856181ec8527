//! The numbers of a dump's revisions, and those that a load gives them.
use dump_rules::Memory;
use std::alloc::Global;

/// Numbers that no revision of a dump has, between two that have revisions.
#[derive(Clone, Copy, Debug, PartialEq, Eq)]
pub struct Hole {
    pub first: u64,
    pub last: u64,
}

/// Revisions whose numbers follow each other without a gap.
#[derive(Clone, Copy)]
struct Run {
    first: u64,
    last: u64,
    /// The number that a load gives the first of them.
    loaded: u64,
}

/// The numbers of a dump's revisions, and those that a load gives them. A load keeps revision 0, and numbers the others
/// from the youngest revision of the repository on.
#[derive(Drop)]
pub struct Numbering {
    runs: Vec<Run>,
    /// The youngest revision of the repository before the load.
    before: u64,
    has_zero: bool,
}

/// The numbers of the dump for a number that a value has.
#[derive(Clone, Copy, Debug, PartialEq, Eq)]
pub(crate) enum Place {
    /// The dump has a revision with it, to which a load gives this number.
    Own(u64),
    /// It is in a gap, after the revision to which a load gives this number.
    Gap(u64),
    /// The dump begins after it.
    Before,
    /// It is above all numbers of the dump.
    After,
}

impl Numbering {
    /// The numbering of a dump whose revisions have these numbers, in rising order. A load is into an empty repository, or
    /// if `after` names a revision, into one whose youngest revision that is.
    pub fn of(alloc: Global, numbers: &[u64], after: Option<u64>) -> Result<Numbering, Memory> {
        let before = after.unwrap_or(0);
        let mut runs: Vec<Run> = Vec::new(alloc);
        let mut loaded = before;
        for number in numbers {
            if *number == 0 {
                continue;
            }
            loaded = loaded.saturating_add(1);
            match runs.last_mut() {
                Some(run) if run.last.saturating_add(1) == *number => run.last = *number,
                _ => runs.push(Run {
                    first: *number,
                    last: *number,
                    loaded,
                })?,
            }
        }
        Ok(Numbering {
            runs,
            before,
            has_zero: numbers.first() == Some(&0),
        })
    }

    /// The numbers that the dump lacks, between those that it has.
    pub fn holes(&self, alloc: Global) -> Result<Vec<Hole>, Memory> {
        let mut holes = Vec::new(alloc);
        let mut last = if self.has_zero { Some(0) } else { None };
        for run in &self.runs {
            if let Some(last) = last {
                push_hole(&mut holes, last, run.first)?;
            }
            last = Some(run.last);
        }
        Ok(holes)
    }

    /// The number of the dump's first revision above 0.
    pub(crate) fn first(&self) -> Option<u64> {
        self.runs.first().map(|run| run.first)
    }

    /// The youngest revision of the repository before the load.
    pub(crate) fn before(&self) -> u64 {
        self.before
    }

    /// The youngest revision of the repository after the load.
    pub(crate) fn youngest(&self) -> u64 {
        match self.runs.last() {
            Some(run) => run
                .loaded
                .saturating_add(run.last.saturating_sub(run.first)),
            None => self.before,
        }
    }

    /// Where a number above 0 is.
    pub(crate) fn place_of(&self, number: u64) -> Place {
        let place = self.runs.partition_point(|run| run.last < number);
        let Some(run) = self.runs.get(place) else {
            return Place::After;
        };
        if run.first <= number {
            return Place::Own(run.loaded.saturating_add(number - run.first));
        }
        match place.checked_sub(1).and_then(|place| self.runs.get(place)) {
            Some(run) => Place::Gap(
                run.loaded
                    .saturating_add(run.last.saturating_sub(run.first)),
            ),
            None => Place::Before,
        }
    }

    /// The number that a load has for another one, when it reads a node of the revision `present`: the number that it gave
    /// a revision, or for one in a gap, the number in the dump of the revision before the gap.
    pub(crate) fn known_at(&self, present: u64, number: u64) -> Option<u64> {
        let place = self.runs.partition_point(|run| run.last < number);
        let run = self.runs.get(place)?;
        if run.first > number {
            let before = self.runs.get(place.checked_sub(1)?)?;
            return if run.first < present {
                Some(before.last)
            } else {
                None
            };
        }
        if number < present {
            return Some(run.loaded.saturating_add(number - run.first));
        }
        None
    }

    /// The last number of the run that has this number, if there is one.
    pub(crate) fn run_end(&self, number: u64) -> Option<u64> {
        let place = self.runs.partition_point(|run| run.last < number);
        match self.runs.get(place) {
            Some(run) if run.first <= number => Some(run.last),
            _ => None,
        }
    }

    /// The first number of the run after this number, if there is one.
    pub(crate) fn next_run(&self, number: u64) -> Option<u64> {
        let place = self.runs.partition_point(|run| run.first <= number);
        self.runs.get(place).map(|run| run.first)
    }
}

/// Appends the hole between two numbers, if there is one.
fn push_hole(holes: &mut Vec<Hole>, last: u64, next: u64) -> Result<(), Memory> {
    let first = last.saturating_add(1);
    if first < next {
        let last = next - 1;
        holes.push(Hole { first, last })?;
    }
    Ok(())
}
