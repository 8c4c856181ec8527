//! Applies a delta to a text.
ghost use Rattle.std.specs.Prelude.{◌≡◌, IfErr, MatchResult, Some};
ghost use Rattle.svndiff.specs.Svndiff.{patch};
ghost use Rattle.svndiff.specs.steps.Readings.{NamesPlaceIn, Says};

use crate::error::{Defect, NotApplied};
use crate::sources::Source;
use crate::targets::{Inputs, make_target};
use crate::windows::window_at;
use std::alloc::Global;

/// The first bytes of a delta, and those of a compressed one but for the last.
const MAGIC: [u8; 4] = *b"SVN\0";

/// What is wrong with a delta that begins otherwise.
fn header_defect(delta: &[u8]) -> Defect {
    match delta {
        [b'S', b'V', b'N', 1 | 2, ..] => Defect::Compressed,
        _ => Defect::Header,
    }
}

/// The text that a delta makes of the base: the text of the file before the change or, if it is copied, that of its
/// source; it is empty for a file that is added without a copy source.
pub fn apply(alloc: Global, base: &[u8], delta: &[u8]) -> Result<Vec<u8>, NotApplied>
    ensures text { MatchResult result (λ text. patch delta.now base.now ≡ Some text.items)
        (λ error. Says error (patch delta.now base.now)) }
    ensures place { IfErr result (λ error. NamesPlaceIn delta.now error) }
{
    let magic = &delta[..delta.len().min(MAGIC.len())];
    if magic != MAGIC.as_slice() {
        return Err(NotApplied::Broken {
            defect: header_defect(delta),
            place: 0,
        });
    }
    let mut text = Vec::new(alloc);
    let mut source = Source::new(base);
    let mut at = magic.len();
    while at < delta.len() {
        let window = match window_at(delta, at) {
            Ok(window) => window,
            Err(defect) => return Err(NotApplied::Broken { defect, place: at }),
        };
        let Some(seen) = source.slid(window.offset, window.source_size) else {
            return Err(NotApplied::Broken {
                defect: Defect::View,
                place: at,
            });
        };
        let inputs = Inputs {
            view: seen.view(window.source_size),
            size: window.target_size,
            instructions: &delta[..window.new_data],
            first: window.instructions,
            new_data: &delta[window.new_data..window.after],
        };
        make_target(&mut text, &inputs)?;
        source = seen;
        at = window.after;
    }
    Ok(text)
}
