//! The mergeinfo of a kept node.
ghost use Rattle.std.specs.Prelude.{◌≡◌, List, MatchOption, false};
ghost use Rattle.dump_text.specs.PropertyList.{IsPropertyBlock, Property};
ghost use Rattle.dump_text.specs.steps.PropertyViews.{entry_property, props_bytes};
ghost use Rattle.dump_digest.specs.steps.Checks.{properties_read};
ghost use Rattle.dump_digest.specs.steps.ContentViews.{IsSaidBy};
ghost use Rattle.dump_digest.specs.RecordParts.{is_mergeinfo};

use dump_rules::{Merged, Options};
use dump_text::{Entry, Props};

/// The property that says what was merged.
const MERGEINFO: &[u8] = b"svn:mergeinfo";

/// Whether the property is mergeinfo; a deleted one isn't.
pub fn is_mergeinfo(entry: &Entry<'_>) -> bool
    ensures { result ≡ is_mergeinfo (entry_property entry.now) }
{
    !entry.gone && entry.name == MERGEINFO
}

/// The mergeinfo in a list of properties, each value of which can be read.
#[derive(Clone, Copy)]
pub(crate) struct Mergeinfo {
    /// Whether there is any.
    pub(crate) found: bool,
    /// What the values say together.
    pub(crate) said: Merged,
}

impl Mergeinfo {
    /// The mergeinfo of an empty list.
    pub(crate) fn none() -> Mergeinfo {
        Mergeinfo {
            found: false,
            said: Merged::new(),
        }
    }

    /// The mergeinfo in the properties of a block; `None` if a value can't be read. There may be several properties of
    /// the name.
    pub(crate) fn of(props: &Props<'_>, options: &Options) -> Option<Mergeinfo>
        ensures { (ps : List Property) → IsPropertyBlock (props_bytes props.now) ps
            → MatchOption result (properties_read ps ≡ false) (λ m. IsSaidBy options.now ps m) }
    {
        let mut found = false;
        let mut said = Merged::new();
        let mut entries = props.entries();
        while let Some(entry) = entries.next() {
            if is_mergeinfo(&entry) {
                found = true;
                said = said.with(entry.value, options)?;
            }
        }
        Some(Mergeinfo { found, said })
    }
}
