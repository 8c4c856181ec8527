//! Laws of text deltas. Each law is the contract of a function that does nothing.
ghost use Rattle.svndiff.specs.DeltaLaws.{MiddlesAreReplaced, ViewsAreOfOldText};

/// The bytes that a window sees are those of the old text from its offset on, if no view left a gap.
pub fn views_are_of_the_old_text()
    ensures { ViewsAreOfOldText }
{}

/// There is a delta for each text of at most 100 KB in which other bytes are put between a front and an end of the old one.
pub fn middles_are_replaced()
    ensures { MiddlesAreReplaced }
{}
