//! Prefixes in canonical form.
ghost use Rattle.std.specs.Prelude.{◌≡◌, ◌++◌, ◌∷◌, [], IfOk, OnOk, IsTrue};
ghost use Rattle.dump_trees.specs.CanonicalPaths.{canonical_path};
ghost use Rattle.dump_trees.specs.Paths.{is_name, names_of};
ghost use Rattle.dump_trees.specs.Siblings.{is_node_name};
ghost use Rattle.dump_cut.specs.steps.NameTexts.{has_no_slash};

use dump_rules::Memory;
use std::alloc::Global;

const DOT: &[u8] = b".";

/// Whether a name in a path can be the name of a node. It has no slash.
pub(crate) fn is_node_name(name: &[u8]) -> bool
    requires { IsTrue (has_no_slash name.now) }
    ensures { result ≡ is_node_name name.now }
{
    !name.is_empty() && name != DOT
}

/// Appends a name to the text of a path.
pub(crate) fn push_name(text: &mut Vec<u8>, name: &[u8]) -> Result<(), Memory>
    requires { IsTrue (is_node_name name.now) }
    ensures { OnOk result (names_of text.new.items ≡ names_of text.old.items ++ name.now ∷ []) }
{
    if !text.is_empty() {
        text.push(b'/')?;
    }
    text.extend_from_slice(name)?;
    Ok(())
}

/// The path that a prefix names, as `svnadmin load` reads paths: without empty names and names of one dot.
pub fn canonical_prefix(alloc: Global, prefix: &[u8]) -> Result<Vec<u8>, Memory>
    ensures { IfOk result (λ text. names_of text.items ≡ canonical_path prefix.now) }
{
    let mut text = Vec::new(alloc);
    for name in prefix.split(|byte| *byte == b'/') {
        if is_node_name(name) {
            push_name(&mut text, name)?;
        }
    }
    Ok(text)
}
