//! Laws of what is read from a dump. Each law is the contract of a function that does nothing.
ghost use Rattle.dump_changes.specs.steps.NodeProperties.{PropertiesAreOfTrees};
ghost use Rattle.dump_changes.specs.steps.PatchedTexts.{PatchedTextsAreFound};

/// If the dump loads, the properties that are found at a path after the changes of a revision are those of the node in the
/// tree of the revision.
pub fn properties_are_found()
    ensures { PropertiesAreOfTrees }
{}

/// If the whole texts and the deltas of a trail give a text, it is that of the file that is there, for each reading of text
/// deltas that agrees with svndiff.
pub fn patched_texts_are_found()
    ensures { PatchedTextsAreFound }
{}
