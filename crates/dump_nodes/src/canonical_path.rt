//! Whether a path is canonical, so that `svnadmin load` uses it unchanged.
ghost use Rattle.std.specs.Prelude.{◌≡◌};
ghost use Rattle.dump_trees.specs.Paths.{is_short};
ghost use Rattle.dump_nodes.specs.steps.Names.{name_with, is_whole, are_short_from};
ghost use Rattle.dump_nodes.specs.declared.canonical_path.Name.TheVariants.{Empty};

use dump_rules::bare_path;

/// What is known of a name, after a part of it was read.
#[derive(Clone, Copy)]
enum Name {
    /// It has no byte so far.
    Empty,
    /// It is a dot.
    Dot,
    Other,
}

impl Name {
    /// The name with one more byte, which is no slash.
    fn with(self, byte: u8) -> Name
        ensures { result ≡ name_with self byte }
    {
        match self {
            Name::Empty => { if byte == b'.' { Name::Dot } else { Name::Other } }
            _ => Name::Other,
        }
    }

    /// Whether the name may end here.
    fn is_whole(self) -> bool
        ensures { result ≡ is_whole self }
    {
        match self {
            Name::Other => true,
            _ => false,
        }
    }
}

/// Whether no name of the text, between its slashes, is empty or a dot.
fn are_canonical(text: &[u8]) -> bool
    ensures { result ≡ are_short_from Empty text.now }
{
    let mut name = Name::Empty;
    let mut rest = text;
    while let [byte, behind @ ..] = rest {
        if *byte == b'/' {
            if !name.is_whole() {
                return false;
            }
            name = Name::Empty;
        } else {
            name = name.with(*byte);
        }
        rest = behind;
    }
    name.is_whole()
}

/// Whether the path is canonical: none of its names is empty or a dot. One leading slash is ignored.
pub fn is_canonical(path: &[u8]) -> bool
    ensures { result ≡ is_short path.now }
{
    let bare = bare_path(path);
    bare.is_empty() || are_canonical(bare)
}
