//! Laws of filtered dumps. Each is the contract of a function that does nothing.
ghost use Rattle.dump_trees.specs.steps.CanonicalPaths.{CanonicalPathsHaveNames, ShortPathsAreCanonical};
ghost use Rattle.dump_trees.specs.steps.CutLines.{NamedLineStays};
ghost use Rattle.dump_trees.specs.steps.DeletesBehind.{DeletesAreFound};
ghost use Rattle.dump_trees.specs.steps.EverSiblings.{ChangedPathsExist, CopiedPathsExist, EverKeptInCut, EverSiblingsAreFound};
ghost use Rattle.dump_trees.specs.steps.ExpansionCases.{ExcludedChangeStays, KeptCopyExpands, SeparatedExpands};
ghost use Rattle.dump_trees.specs.steps.Expansions.{ExpandedLead, ExpandedLoad, SeparatedRevisionsExpand};
ghost use Rattle.dump_trees.specs.steps.FindingSiblings.{AboveAreListed, SiblingsAreFound};
ghost use Rattle.dump_trees.specs.steps.FollowedRests.{AllRestsAreListed, NoneAtAnyPlace, NoReturnsBringNothing};
ghost use Rattle.dump_trees.specs.steps.Following.{CopiesArePlaced, EachCopyIsOver, FollowedBringNothingBack, FollowedIsTold, FollowingIsLeast, GrownPathsCover, ListedAreFollowed};
ghost use Rattle.dump_trees.specs.steps.FrontLaws.{BegunTreesStay, EachFrontRestricts};
ghost use Rattle.dump_trees.specs.steps.HistoryLaws.{EachHistoryRestricts, EachRevisionRestricts};
ghost use Rattle.dump_trees.specs.steps.Listing.{NamesAreLooked};
ghost use Rattle.dump_trees.specs.steps.LoadCheck.{DumpIsAllowed, FirstRejectionIsThere, PlainLooksTellKinds, StepIsAllowed, TellsEachTree};
ghost use Rattle.dump_trees.specs.steps.Looking.{LookFinds, LookFindsEach};
ghost use Rattle.dump_trees.specs.steps.MovedLaws.{EachLoadsAlike};
ghost use Rattle.dump_trees.specs.steps.PathLaws.{KeepsAsTextDoes, TextsAreRead};
ghost use Rattle.dump_trees.specs.steps.Returns.{ReturnsTellAll};
ghost use Rattle.dump_trees.specs.steps.Quiet.{AllQuietSeparate, QuietSeparates};
ghost use Rattle.dump_trees.specs.steps.Siblings.{LoadedTreesHaveDirectories, LoadedTreesHaveNames, NamedPathsLeaveCut, NamedTextsLeaveCut, ShortPathsHaveNames, SiblingsLeaveCut};
ghost use Rattle.dump_trees.specs.steps.StepLaws.{EachStepRestricts, FilteredIsNew};
ghost use Rattle.dump_trees.specs.steps.TreeLaws.{GivesNothingBelowKept, GivesRootAlone, KeepsNothingBelowLeft, KeepsOrGivesAbove};
ghost use Rattle.dump_trees.specs.steps.Trimming.{EachTrimmedFilteredRestricts, EachTrimmedHistoryRestricts, EachTrimmedRevisionRestricts};

/// The filter keeps a path exactly if it keeps the path's text. A path of names is read back from its text.
pub fn paths_are_their_texts()
    ensures kept { KeepsAsTextDoes }
    ensures read { TextsAreRead }
{}

/// These laws say which paths below and above a path are kept, and which of the others are parent directories. A path
/// below a kept one is kept, or it is no parent directory. A path above a kept one is kept, or it is a parent
/// directory. If prefixes are excluded, nothing below a dropped path is kept, and the only parent directory is the
/// root.
pub fn kept_paths_hang_together()
    ensures below { GivesNothingBelowKept }
    ensures above { KeepsOrGivesAbove }
    ensures left { KeepsNothingBelowLeft }
    ensures alone { GivesRootAlone }
{}

/// What the filter writes of a separated change does to the restricted tree what the change does to the whole tree.
pub fn each_step_restricts()
    ensures step { EachStepRestricts }
    ensures filtered { FilteredIsNew }
{}

/// The same is true of the changes of a revision.
pub fn each_revision_restricts()
    ensures { EachRevisionRestricts }
{}

/// If each change of a dump is separated, a load of the filtered dump makes the restricted trees of the whole dump. At
/// the image of each number it makes the tree that the whole dump has at that number, restricted to the kept paths.
pub fn each_history_restricts()
    ensures { EachHistoryRestricts }
{}

/// A change that gives no alarm by its own strings is separated. The exception is a copy that loses its source and
/// replaces a node without deleting it.
pub fn quiet_changes_are_separated()
    ensures each { QuietSeparates }
    ensures all { AllQuietSeparate }
{}

/// The law of a whole dump is true of its first revisions, even if a load rejects a later revision or a later change
/// is not separated. If the changes of the first revisions are separated, a load takes what the filter writes of them.
/// It makes the restricted trees.
pub fn each_front_restricts()
    ensures restricts { EachFrontRestricts }
    ensures trees { BegunTreesStay }
{}

/// After older revisions a dump makes the trees that it makes in a new repository. This is true even if the load sets
/// new properties, as it does with mergeinfo.
pub fn each_dump_loads_behind_others()
    ensures { EachLoadsAlike }
{}

/// If each change of some revisions is replaced by an expansion, the revisions load to the same trees, and each of
/// their new changes is separated. So what the filter writes of them has the restricted trees of the dump, whatever the
/// dump's own changes are. Revisions whose changes are all separated need no expansion.
pub fn expanded_revisions_restrict()
    ensures itself { SeparatedRevisionsExpand }
    ensures lead { ExpandedLead }
    ensures load { ExpandedLoad }
{}

/// These laws say what an expansion of a change is. A separated change is its own expansion. A copy at a kept path is
/// expanded to the changes that write its branch out. If prefixes are excluded, a change at a path that is not kept is
/// its own expansion.
pub fn changes_have_expansions()
    ensures separated { SeparatedExpands }
    ensures kept { KeptCopyExpands }
    ensures excluded { ExcludedChangeStays }
{}

/// A program finds the node at a path without building trees. It goes back to the latest change that touches the path,
/// and from a copy to its source.
pub fn nodes_are_found_without_trees()
    ensures front { LookFinds }
    ensures each { LookFindsEach }
{}

/// A program finds the names in a directory without building trees. They are among the names of what was made there,
/// and those at the source of a copy.
pub fn names_are_found_without_trees()
    ensures { NamesAreLooked }
{}

/// A load takes a change exactly if the nodes at single paths allow it, and its delta applies. So a program finds
/// without trees whether a load takes a dump, and which change the load rejects first.
pub fn loads_are_checked()
    ensures step { StepIsAllowed }
    ensures dump { DumpIsAllowed }
    ensures plain { PlainLooksTellKinds }
    ensures trees { TellsEachTree }
    ensures place { FirstRejectionIsThere }
{}

/// The excluded paths, and what exists at the source of a copy, determine what returns by the copy. If nothing returns,
/// nothing comes back.
pub fn returns_are_found()
    ensures { ReturnsTellAll }
{}

/// A program follows copies, and each path to which it follows one is an addition. The paths then cover the addition,
/// what is below it, and what they covered before. If a pass adds nothing, the paths cover exactly the least closed
/// set, and nothing comes back.
pub fn copies_are_followed()
    ensures listed { ListedAreFollowed }
    ensures grown { GrownPathsCover }
    ensures least { FollowingIsLeast }
    ensures back { FollowedBringNothingBack }
{}

/// The copies of a history are at the places of its changes. A program that knows the kinds of nodes finds the paths to
/// which they are followed. If it follows excluded paths to their copies, nothing comes back exactly if it finds none.
pub fn followed_copies_are_told()
    ensures placed { CopiesArePlaced }
    ensures over { EachCopyIsOver }
    ensures told { FollowedIsTold }
    ensures rests { AllRestsAreListed }
    ensures none { NoneAtAnyPlace }
    ensures returns { NoReturnsBringNothing }
{}

/// The paths that a copy takes to paths that are not kept are found among the excluded paths below its path.
pub fn taken_tops_are_found()
    ensures { DeletesAreFound }
{}

/// If the siblings of included paths are excluded, the filter keeps of a tree the included paths, what is below them,
/// and the directories above them, and nothing else. Of the paths that a dump names it keeps the same, even if nothing
/// exists there.
pub fn siblings_leave_the_cut()
    ensures cut { SiblingsLeaveCut }
    ensures named { NamedPathsLeaveCut }
    ensures texts { NamedTextsLeaveCut }
{}

/// If siblings that cover the paths named by a dump are excluded, they decide about mergeinfo lines. A line whose path
/// the dump names in canonical form stays exactly if this path is in the cut, even if nothing exists there.
pub fn lines_stay_by_the_cut()
    ensures { NamedLineStays }
{}

/// A program finds the siblings without building trees. It finds them among the names that can exist in the directories
/// above included paths.
pub fn siblings_are_found()
    ensures above { AboveAreListed }
    ensures found { SiblingsAreFound }
{}

/// If the siblings of every tree are excluded, also of the trees within revisions, the filter keeps of all paths that
/// ever exist those in the cut. A program finds these siblings in the same way. Something exists at some time at the
/// path of each change that does something, and at the source of each copy.
pub fn siblings_are_ever_found()
    ensures kept { EverKeptInCut }
    ensures found { EverSiblingsAreFound }
    ensures changed { ChangedPathsExist }
    ensures copied { CopiedPathsExist }
{}

/// In each loaded tree the nodes are in directories, and have names of nodes if the paths of the changes have. A canonical
/// path has names of nodes.
pub fn loaded_trees_have_names()
    ensures directories { LoadedTreesHaveDirectories }
    ensures names { LoadedTreesHaveNames }
    ensures short { ShortPathsHaveNames }
{}

/// A prefix names the path that a load reads from it. This path has names of nodes. A canonical prefix names the
/// path of its text.
pub fn prefixes_are_canonical()
    ensures have { CanonicalPathsHaveNames }
    ensures short { ShortPathsAreCanonical }
{}

/// If prefixes are excluded and a kept copy brings nothing back, the copy may stay in the filtered dump. The deletions
/// of what it takes to paths that are not kept follow it. Revisions may be written in this way, and so may a whole
/// history, whether each revision keeps its number or is renumbered. The result has the restricted trees, though no node
/// in it is written again as an addition.
pub fn trimmed_histories_restrict()
    ensures revision { EachTrimmedRevisionRestricts }
    ensures history { EachTrimmedHistoryRestricts }
    ensures filtered { EachTrimmedFilteredRestricts }
{}
