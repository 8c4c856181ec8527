//! The changes that make copies.
ghost use Rattle.std.specs.Prelude.{◌≡◌, IfSome, IsFalse, IsNone, Some, option_map};
ghost use Rattle.dump_trees.specs.Changes.{is_copied};
ghost use Rattle.dump_index.specs.steps.Listed.{listed_made};
ghost use Rattle.dump_index.specs.declared.change.NodeMade.TheVariants.{CopyOf};

use dump_index::{NodeChange, NodeMade, Source};

/// The source of the change, if it makes a copy.
pub fn source_of<'a>(change: &NodeChange<'a>) -> Option<Source<'a>>
    ensures copy { IfSome result (λ source. change.now.made ≡ Some (CopyOf source)) }
    ensures none { IsNone result → IsFalse (is_copied (option_map listed_made change.now.made)) }
{
    match change.made {
        None => None,
        Some(NodeMade::Directory) => None,
        Some(NodeMade::File) => None,
        Some(NodeMade::CopyOf(source)) => Some(source),
    }
}
