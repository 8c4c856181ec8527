//! A law of the filter's answers. It is the contract of a function that does nothing.
ghost use Rattle.dump_pipeline.specs.RunLaws.{EachDumpHasOneAnswer};

/// Under given options, each dump has exactly one answer of the filter and exactly one text that it writes.
pub fn each_dump_has_one_answer()
    ensures { EachDumpHasOneAnswer }
{}
