//! Laws of dumps and of the repositories that they make; each is the contract of a function that does nothing.
ghost use Rattle.dump_history.specs.DumpLaws.{DumpLoadsOnce, FilteredDumpRestricts, FilteredDumpRestrictsAfterDirectories, NoGapIsNeeded, FilteredDumpFrontRestricts, QuietDumpRestricts, QuietDumpRestrictsAfterDirectories, QuietDumpFrontRestricts};
ghost use Rattle.dump_history.specs.steps.ExpandedDumps.{ExpandedDumpLoads};
ghost use Rattle.dump_history.specs.steps.ExpandedText.{ExpansionsAreDumps};
ghost use Rattle.dump_history.specs.steps.KeptChanges.{FilteredChangesAreKept, TrimmedChangesAreKept};
ghost use Rattle.dump_history.specs.PartLaws.{FilteredPartRestricts, NoGapIsNeededInPart, QuietPartRestricts};
ghost use Rattle.dump_history.specs.steps.Replacing.{KeptCopyReplaces};
ghost use Rattle.dump_history.specs.SurveyLaws.{AlarmsAreExact, DumpFindingsAreOnce, FindingsAreOnce, ObstaclesAreExact, SurveyedDumpRestricts, SurveyedDumpFrontRestricts};
ghost use Rattle.dump_history.specs.steps.TrimmedDumps.{EachBranchIsCutAlike, EachChangeStays, TrimmedDumpLoads, TrimmedDumpLoadsRenumbered, TrimmedTextsAreDumps};
ghost use Rattle.dump_history.specs.steps.WrittenNodes.{WrittenNodesAreRecords, WrittenNodesMakeChanges};

/// Take a dump without a fault, whose changes are separated. What the filter writes of it, loaded over the parent
/// directories, has the trees of the whole dump, restricted to the kept paths.
pub fn each_filtered_dump_restricts()
    ensures { FilteredDumpRestricts }
{}

/// The same is true of a dump whose changes give no alarm.
pub fn each_quiet_dump_restricts()
    ensures { QuietDumpRestricts }
{}

/// The law is true of the first revisions of a dump, even if a later revision is rejected or isn't separated.
pub fn each_filtered_front_restricts()
    ensures separated { FilteredDumpFrontRestricts }
    ensures quiet { QuietDumpFrontRestricts }
{}

/// An administrator may make the parent directories in a revision of their own. Loaded after it, what the filter
/// writes has the restricted trees, each one revision later, and the numbers in mergeinfo are higher by one.
pub fn each_dump_restricts_after_directories()
    ensures separated { FilteredDumpRestrictsAfterDirectories }
    ensures quiet { QuietDumpRestrictsAfterDirectories }
{}

/// The law is true of a partial dump, which begins above revision 0, too: loaded over the parent directories, or after
/// them.
pub fn each_part_restricts()
    ensures separated { FilteredPartRestricts }
    ensures quiet { QuietPartRestricts }
{}

/// A dump has only one list of records, revisions and trees, with or without gaps in its numbers.
pub fn each_dump_loads_once()
    ensures once { DumpLoadsOnce }
    ensures dump { NoGapIsNeeded }
    ensures part { NoGapIsNeededInPart }
{}

/// A survey has only one list of findings in a node, and the list is exact. A node without an obstacle makes a change,
/// and no other node does. The change is quiet exactly if there is no alarm.
pub fn each_finding_is_exact()
    ensures once { FindingsAreOnce }
    ensures whole { DumpFindingsAreOnce }
    ensures obstacles { ObstaclesAreExact }
    ensures alarms { AlarmsAreExact }
{}

/// If a survey finds nothing that matters, a dump makes revisions, and the law of filtered dumps is true of the whole
/// dump or of its first revisions.
pub fn each_surveyed_dump_restricts()
    ensures whole { SurveyedDumpRestricts }
    ensures front { SurveyedDumpFrontRestricts }
{}

/// The nodes that an expanded dump has in place of others are records of it, and each makes the change for which it is
/// written.
pub fn written_nodes_make_changes()
    ensures records { WrittenNodesAreRecords }
    ensures changes { WrittenNodesMakeChanges }
{}

/// What is written in place of the records of a dump is a dump, whose records are an expanded form of them.
pub fn each_expansion_is_a_dump()
    ensures { ExpansionsAreDumps }
{}

/// The expanded form of a dump loads to the dump's trees, and each of its changes is separated, whatever the dump's
/// changes are.
pub fn each_expanded_dump_loads()
    ensures { ExpandedDumpLoads }
{}

/// The changes that are written in place of a copy to a kept path may begin with a change that replaces the node
/// there.
pub fn written_copies_replace()
    ensures { KeptCopyReplaces }
{}

/// The filter may write, by excluded prefixes, deletions after its copies, which remove what the copies take to paths
/// that aren't kept. The result is a dump that loads into a new repository. It has the restricted trees, each under
/// its own number, or at the images if revisions are renumbered. With options that keep everything, each change is an
/// expansion of itself, and each branch may be copied.
pub fn each_trimmed_dump_loads()
    ensures dump { TrimmedTextsAreDumps }
    ensures stays { EachChangeStays }
    ensures alike { EachBranchIsCutAlike }
    ensures excluded { TrimmedDumpLoads }
    ensures renumbered { TrimmedDumpLoadsRenumbered }
{}

/// What the filter writes of a dump comes from its kept changes, if it leaves no gap in the numbers. This is true of
/// each property except mergeinfo, of each text, and of each copy except its number. It is also true of what the
/// filter writes with deletions after its copies. If prefixes are excluded, a copy in it is over what its own revision
/// changed only if the dump has such a copy.
pub fn filtered_changes_come_of_kept_ones()
    ensures filtered { FilteredChangesAreKept }
    ensures trimmed { TrimmedChangesAreKept }
{}
