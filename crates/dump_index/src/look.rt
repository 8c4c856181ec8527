//! What one step of a look finds.
ghost use Rattle.std.specs.Prelude.{◌≡◌};
ghost use Rattle.dump_index.specs.steps.Looks.{is_since};

use crate::change::{NodeKind, Source};

/// What exists at a path, or the copy source at which the caller has to look for it.
#[derive(Clone, Copy)]
pub(crate) enum Look<'p, 'a> {
    /// This exists at the path.
    Found(Option<NodeKind>),
    /// What existed at the source, or at this rest of the path below it. The flag says whether a text is set on it
    /// since.
    Copied(Source<'a>, &'p [u8], bool),
}

/// Whether a text is set, and not before the change that shapes the path. Both arguments are places.
pub(crate) fn is_since(shaped: Option<usize>, set: Option<usize>) -> bool
    ensures { result ≡ is_since shaped set }
{
    match (shaped, set) {
        (_, None) => false,
        (None, Some(_)) => true,
        (Some(shaped), Some(set)) => shaped <= set,
    }
}
