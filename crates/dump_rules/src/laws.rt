//! Laws of mergeinfo. Each law is the contract of a function that does nothing.
ghost use Rattle.dump_rules.specs.RangeLaws.{EachMapHasOneSpelling};

/// Each map that is the meaning of a range list has exactly one spelling, and this is read as that map.
pub fn each_map_has_one_spelling()
    ensures { EachMapHasOneSpelling }
{}
