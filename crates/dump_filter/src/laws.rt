//! Laws of what the filter writes. Each law is the contract of a function that does nothing.
ghost use Rattle.dump_filter.specs.FilterLaws.{KeepsItsOwnText, WrittenOnlyGrows};

/// If the first records of a dump have no fault, what is written for them is the beginning of what is written for more
/// records.
pub fn written_only_grows()
    ensures { WrittenOnlyGrows }
{}

/// What is written for a dump without a fault is such a dump again, and the filter leaves that one unchanged if it
/// keeps everything. This holds if no length in the dump reaches 10^18.
pub fn keeps_its_own_text()
    ensures { KeepsItsOwnText }
{}
