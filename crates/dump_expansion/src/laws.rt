//! Laws of the changes that the new nodes of a dump make. Each law is the contract of a function that does nothing.
ghost use Rattle.dump_expansion.specs.steps.ByChanges.{SteadsAreByChanges};

/// The new nodes have to be for nodes of a dump, in the order of their record numbers. Then they determine, together
/// with the numbers of the nodes that they replace, which changes are made in each revision.
pub fn steads_are_by_changes()
    ensures { SteadsAreByChanges }
{}
