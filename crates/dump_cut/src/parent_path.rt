//! The directory that contains a path.
ghost use Rattle.std.specs.Prelude.{◌≡◌, ◌==◌, length};
ghost use Rattle.dump_trees.specs.Paths.{names_of};
ghost use Rattle.dump_trees.specs.Restriction.{is_root};
ghost use Rattle.dump_cut.specs.steps.ParentTexts.{parent_text};

/// Whether the path is the root.
pub(crate) fn is_root(path: &[u8]) -> bool
    ensures { result ≡ is_root (names_of path.now) }
{
    path.is_empty()
}

/// The text before the last slash of the path; empty if there is none.
pub(crate) fn parent_text(path: &[u8]) -> &[u8]
    ensures { result.now ≡ parent_text path.now }
{
    let mut front = path;
    while let [before @ .., byte] = front {
        if *byte == b'/' {
            return before;
        }
        front = before;
    }
    front
}
