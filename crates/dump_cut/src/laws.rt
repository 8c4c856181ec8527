//! Laws of what a cut finds. Each law is the contract of a function that does nothing.
ghost use Rattle.dump_cut.specs.steps.FilteredAlike.{AlikeCutsAreFilteredAlike, AlikeCutsCoverTheSame, FiltersWriteAlike, FirstPartsGoOn, FirstSiblingsCoverTheSame, FirstSiblingsFilterAlike};
ghost use Rattle.dump_cut.specs.FirstParts.{FirstPartsAreFiltered, FirstPartsAreTrimmed};
ghost use Rattle.dump_cut.specs.steps.FollowedCopies.{FollowedIsLeast};
ghost use Rattle.dump_cut.specs.steps.FoundSiblings.{FoundSiblingsAreAll};
ghost use Rattle.dump_cut.specs.steps.LaterParts.{DumpsLoadInParts};
ghost use Rattle.dump_cut.specs.steps.LoadChecks.{RejectedIsFirst, UnrejectedLoads};
ghost use Rattle.dump_cut.specs.steps.Rejections.{RejectedIsNotAllowed};
ghost use Rattle.dump_cut.specs.steps.TrimmedCopies.{TrimmedCopiesLoad};

/// If the load check rejects no change, a dump whose text deltas apply loads into an empty repository. If it rejects
/// one, a load accepts the changes before this one, and stops there.
pub fn loads_are_decided()
    ensures kinds { RejectedIsNotAllowed }
    ensures loads { UnrejectedLoads }
    ensures stops { RejectedIsFirst }
{}

/// If nothing excluded comes back, each copy can stay. Then the output of the filter is the cut, if deletes after the
/// copies remove exactly what these take to excluded paths.
pub fn lost_parts_are_deleted()
    ensures { TrimmedCopiesLoad }
{}

/// The paths after all copies of a dump were followed cover the least set that has the given paths, what is below
/// them, and the paths to which copies are followed.
pub fn followed_paths_are_least()
    ensures { FollowedIsLeast }
{}

/// Each sibling at which something exists in some revision is found. So the paths that are kept without the siblings
/// are those at or below an included path, and the directories above.
pub fn siblings_are_found()
    ensures { FoundSiblingsAreAll }
{}

/// A dump that loads, and has one format version, can be divided after each revision. The first part loads into an
/// empty repository. The records before the first revision, with the records after the first part, load into the
/// result.
pub fn dumps_load_in_parts()
    ensures { DumpsLoadInParts }
{}

/// If no revision is dropped or renumbered, what the filter writes for the first part of a dump is the first part of
/// what it writes for the dump. The same is true with deletes after the nodes.
pub fn first_parts_are_cut()
    ensures filtered { FirstPartsAreFiltered }
    ensures trimmed { FirstPartsAreTrimmed }
{}

/// Filters that exclude different paths write the same for a dump if they keep the same nodes of it, the same sources
/// of copies and the same lines of mergeinfo. So if this is true of the first part of a dump, the first part of what
/// one filter writes for the dump is what the other one writes for the first part.
pub fn filters_write_alike()
    ensures alike { FiltersWriteAlike }
    ensures first_parts { FirstPartsGoOn }
{}

/// If two cuts of a dump don't differ, they exclude the same of what exists in some revision of it, and filters that
/// exclude their paths keep the same of its records.
pub fn alike_cuts_filter_alike()
    ensures covered { AlikeCutsCoverTheSame }
    ensures filtered { AlikeCutsAreFilteredAlike }
{}

/// The siblings that are found in a dump exclude the same in its first part as the siblings that are found in that
/// part. So if copies aren't followed, later revisions change nothing of what is included in the earlier ones.
pub fn first_siblings_stay()
    ensures covered { FirstSiblingsCoverTheSame }
    ensures filtered { FirstSiblingsFilterAlike }
{}
