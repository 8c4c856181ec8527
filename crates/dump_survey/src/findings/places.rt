//! The first record that causes each finding in a dump as a whole.
ghost use Rattle.std.specs.Prelude.{◌≡◌};
ghost use Rattle.dump_survey.specs.DumpReport.{place_in};
ghost use Rattle.dump_survey.specs.steps.Places.{AreNextPlaces, first_place, no_places};

use crate::findings::tally::DumpFindings;
use dump_history::DumpFinding;

/// The place of a record in a dump.
#[derive(Clone, Copy, Debug, PartialEq, Eq)]
pub struct Place {
    /// The record's number, from 0.
    pub number: u64,
    /// The offset of the record's first byte in the dump.
    pub place: usize,
}

/// For each finding in the dump as a whole, the place of the first record that causes it, if there is one. No record
/// causes the finding that there is no revision.
#[derive(Clone, Copy, Debug, PartialEq, Eq)]
pub struct DumpPlaces {
    pub other_numbers: Option<Place>,
    pub number_falls: Option<Place>,
    pub unread_revision: Option<Place>,
    pub node_in_first: Option<Place>,
    pub source_before: Option<Place>,
    pub node_outside: Option<Place>,
    pub numbers_left: Option<Place>,
}

/// The place of a finding after one more record. `before` is its place before this record, and `found` says whether it
/// is found now; `here` is the place of this record.
fn first_place(before: Option<Place>, found: bool, here: Place) -> Option<Place>
    ensures { result ≡ first_place before found here }
{
    match before {
        Some(place) => Some(place),
        None if found => Some(here),
        None => None,
    }
}

impl DumpPlaces {
    /// The places before the first record: there are none.
    pub(crate) fn new() -> DumpPlaces
        ensures { result ≡ no_places }
    {
        DumpPlaces {
            other_numbers: None,
            number_falls: None,
            unread_revision: None,
            node_in_first: None,
            source_before: None,
            node_outside: None,
            numbers_left: None,
        }
    }

    /// The place of the finding, if it has one.
    pub(crate) fn of(&self, finding: DumpFinding) -> Option<Place>
        ensures { result ≡ place_in self.now finding }
    {
        match finding {
            DumpFinding::NoRevision => None,
            DumpFinding::OtherNumbers => self.other_numbers,
            DumpFinding::NumberFalls => self.number_falls,
            DumpFinding::UnreadRevision => self.unread_revision,
            DumpFinding::NodeInFirst => self.node_in_first,
            DumpFinding::SourceBefore => self.source_before,
            DumpFinding::NodeOutside => self.node_outside,
            DumpFinding::NumbersLeft => self.numbers_left,
        }
    }

    /// The places after one more record. The record is at `here`, and `found` is what is found up to it.
    fn with(&self, found: &DumpFindings, here: Place) -> DumpPlaces
        ensures { AreNextPlaces self.now found.now here result }
    {
        DumpPlaces {
            other_numbers: first_place(self.other_numbers, found.other_numbers, here),
            number_falls: first_place(self.number_falls, found.number_falls, here),
            unread_revision: first_place(self.unread_revision, found.unread_revision, here),
            node_in_first: first_place(self.node_in_first, found.node_in_first, here),
            source_before: first_place(self.source_before, found.source_before, here),
            node_outside: first_place(self.node_outside, found.node_outside, here),
            numbers_left: first_place(self.numbers_left, found.numbers_left, here),
        }
    }

    /// Updates the places for one more record. The record is at `here`, and `found` is what is found up to it. If
    /// nothing is found, nothing changes.
    pub(crate) fn note(&mut self, found: &DumpFindings, here: Place)
        ensures { AreNextPlaces self.old found.now here self.new }
    {
        if !found.is_any() {
            return;
        }
        *self = self.with(found, here);
    }
}
