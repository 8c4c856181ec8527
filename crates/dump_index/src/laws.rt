//! Laws of an index; each is the contract of a function that does nothing.
ghost use Rattle.dump_index.specs.steps.ExistsEver.{ExistingIsFound};
ghost use Rattle.dump_index.specs.steps.ToldKinds.{IndexTellsKinds};
ghost use Rattle.dump_index.specs.steps.IndexLaws.{ChildrenAreOfTrees, KindsAreFound, KindsAreOfTrees, NamesEverAreFound, NamesEverSuffice, PropsAreFound, TextsAreFound};

/// If a node exists in the repository, an index finds its kind. If the dump loads, an index finds what exists in each
/// tree, and at which paths nothing exists.
pub fn kinds_are_found()
    ensures node { KindsAreFound }
    ensures trees { KindsAreOfTrees }
    ensures told { IndexTellsKinds }
{}

/// If a node exists in the repository, its properties and its text are what the changes make that an index finds.
pub fn settings_are_found()
    ensures props { PropsAreFound }
    ensures text { TextsAreFound }
{}

/// If the dump loads, the names that an index finds in a directory are exactly the names of what exists in it. Each
/// name by which something can exist in the directory at the end of a revision is one of the names that `names_ever`
/// returns, so siblings are found with these names.
pub fn children_are_found()
    ensures trees { ChildrenAreOfTrees }
    ensures ever { NamesEverAreFound }
    ensures siblings { NamesEverSuffice }
{}

/// If the dump loads, and something exists at a path after some of the changes, an index finds that something exists
/// there at some time. If the dump has a revision, the reverse is true too.
pub fn existing_is_found()
    ensures { ExistingIsFound }
{}
