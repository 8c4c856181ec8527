//! The text of the file at a path, after some of a dump's changes.
ghost use Rattle.std.specs.Prelude.{◌≡◌, false, IfOk, MatchResult, Some, reverse, slice_get};
ghost use Rattle.dump_index.specs.steps.InOrder.{ends_in_slash};
ghost use Rattle.dump_changes.specs.steps.PatchedTexts.{latest_delta, told_patched, told_set_by};
ghost use Rattle.dump_changes.specs.steps.MadeTexts.{IsDigestDefect, IsFoundText, IsNoText, SaysNone, told_of_made};

use crate::file_text::FileText;
use crate::made_text::MadeText;
use crate::no_text::{NoText, TextDefect};
use crate::node_text::NodeText;
use crate::text_table::TextTable;
use dump_index::{ChangeIndex, Part, Setting};
use dump_rules::Memory;
use std::alloc::Global;
use svndiff::NotApplied;

/// The text of a file if no change sets one.
const NO_TEXT: NodeText<'static> = NodeText {
    text: b"",
    md5: None,
    sha1: None,
};

/// What the change at a place makes of a text.
fn set_at<'a>(
    alloc: Global,
    table: &TextTable<'a>,
    index: &ChangeIndex<'_>,
    place: usize,
    old: MadeText<'a>,
) -> Result<MadeText<'a>, NotApplied>
    ensures { let defined = told_set_by table.now (slice_get index.now place) (told_of_made old.entry) in
        MatchResult result (λ new. defined ≡ Some (told_of_made new)) (λ error. SaysNone error defined) }
{
    let Some(change) = index.get(place) else {
        return Ok(old);
    };
    // the table has no such record if it is of another dump
    let own = table.text(change.record_number).unwrap_or(NO_TEXT);
    match change.text {
        Setting::Keeps | Setting::EditsNothing => Ok(old),
        Setting::Replaces => Ok(MadeText::whole(alloc, own)),
        Setting::Edits => old.edited(alloc, own),
    }
}

/// The text that the changes at these places make, one after the other. The error says which of them has a delta that
/// can't be applied.
fn text_made<'a>(
    alloc: Global,
    table: &TextTable<'a>,
    index: &ChangeIndex<'_>,
    places: &[usize],
) -> Result<Result<MadeText<'a>, NoText>, Memory>
    ensures { IfOk result (λ made. MatchResult made
        (λ text. told_patched table.now index.now (reverse places.now) ≡ Some (told_of_made text))
        (IsNoText table.now index.now (reverse places.now))) }
{
    let mut text = MadeText::whole(alloc, NO_TEXT);
    for place in places {
        text = match set_at(alloc, table, index, *place, text) {
            Ok(text) => text,
            Err(NotApplied::Memory) => return Err(Memory),
            Err(
                NotApplied::Broken {
                    defect,
                    place: byte,
                },
            ) => {
                return Ok(Err(NoText {
                    place: *place,
                    defect: TextDefect::Delta { defect, byte },
                }));
            }
        };
    }
    Ok(Ok(text))
}

/// The last of these places, if the change there has a delta.
fn latest_delta(index: &ChangeIndex<'_>, places: &[usize]) -> Option<usize>
    ensures { result ≡ latest_delta index.now (reverse places.now) }
{
    let Some(place) = places.last() else {
        return None;
    };
    match index.get(*place) {
        Some(change) if change.text == Setting::Edits => Some(*place),
        _ => None,
    }
}

/// Which of the digests that the dump gives of a text isn't its own.
fn digest_defect(text: &MadeText<'_>) -> Option<TextDefect>
    ensures { IsDigestDefect (told_of_made text.now) result }
{
    if !text.has_own_md5() {
        Some(TextDefect::Md5)
    } else if !text.has_own_sha1() {
        Some(TextDefect::Sha1)
    } else {
        None
    }
}

/// The text of the file at the path after the first `count` changes. The table and the index have to be of one dump.
/// The error says why it can't be made: a delta can't be applied, or the digests of the text that the latest change
/// makes by a delta are others. The digests of whole texts are not looked at.
///
/// If no file is at the path, the result means nothing.
pub fn text_at<'a>(
    alloc: Global,
    table: &TextTable<'a>,
    index: &ChangeIndex<'_>,
    path: &[u8],
    count: usize,
) -> Result<Result<FileText<'a>, NoText>, Memory>
    requires { ends_in_slash path.now ≡ false }
    ensures { IfOk result (IsFoundText table.now index.now path.now count) }
{
    let places = index.settings_at(alloc, Part::Text, path, count)?;
    let text = match text_made(alloc, table, index, &places)? {
        Ok(text) => text,
        Err(no_text) => return Ok(Err(no_text)),
    };
    let Some(place) = latest_delta(index, &places) else {
        return Ok(Ok(text.into_text()));
    };
    match digest_defect(&text) {
        Some(defect) => Ok(Err(NoText { place, defect })),
        None => Ok(Ok(text.into_text())),
    }
}
