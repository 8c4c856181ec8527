//! One pass over the records of a dump.
ghost use Rattle.std.specs.Prelude.{◌∷◌, ◌++◌, [], List, OnOk};
ghost use Rattle.dump_records.specs.DumpText.{Ending, HasRecords};
ghost use Rattle.dump_records.specs.RecordText.{DumpRecord};
ghost use Rattle.dump_records.specs.steps.RecordViews.{record_item};
ghost use Rattle.dump_survey.specs.steps.Visits.{IsVisitedAfter};

use dump_records::{Cut, Cutter, Record};

/// What is made of the records of a dump, one after the other.
pub(crate) trait RecordVisitor<'a> {
    /// Why it stops before the last record.
    type Error: Drop;

    /// The first value becomes the second one if it is given these records.
    ghost has_visited: { Self → List DumpRecord → Self → Type 0 };

    /// Takes the next record.
    fn visit(&mut self, item: &Record<'a>) -> Result<(), Self::Error>
        requires { (first : Self) × (before : List DumpRecord) × IsVisitedAfter item.now before × has_visited first before self.old }
        ensures { OnOk result ((first : Self) → (before : List DumpRecord) → IsVisitedAfter item.now before
            → has_visited first before self.old → has_visited first (before ++ record_item item.now ∷ []) self.new) };
}

/// Passes all records of a dump to a visitor, in the dump's order, up to the end of the list of records.
pub(crate) fn visit_records<'a, V: RecordVisitor<'a>>(
    dump: &'a [u8],
    visitor: &mut V,
) -> Result<(), V::Error>
    requires { V.has_visited visitor.old [] visitor.old }
    ensures { OnOk result ((records : List DumpRecord) × (ending : Ending) × HasRecords dump.now records ending
        × V.has_visited visitor.old records visitor.new) }
{
    let mut cutter = Cutter::new(dump);
    while let Cut::Item(item) = cutter.next() {
        visitor.visit(&item)?;
    }
    Ok(())
}
