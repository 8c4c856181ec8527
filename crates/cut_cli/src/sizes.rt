//! The size of what a copy brings back.
use dump_changes::Memory;
use dump_cut::{Excluded, PlacedRest};
use dump_index::{
    ChangeIndex, NodeChange, NodeKind, NodeMade, Part, Setting, Source, ends_in_slash, joined,
};
use dump_records::{Cut, Cutter};
use std::alloc::Global;

/// The size of what a copy brings back at a path.
#[derive(Clone, Copy)]
pub struct Size {
    pub files: usize,
    pub directories: usize,
    /// The sum of the lengths of the files; `None` if the text of one is stored as a delta.
    pub bytes: Option<usize>,
    /// Whether the node of the copy also sets a text.
    pub is_changed: bool,
}

/// The lengths of the texts of all records, by the numbers of the records.
pub fn text_lengths(alloc: Global, dump: &[u8]) -> Result<Vec<usize>, Memory> {
    let mut cutter = Cutter::new(dump);
    let mut lengths = Vec::new(alloc);
    // no dump has more records than bytes
    for _ in 0..=dump.len() {
        let Cut::Item(item) = cutter.next() else {
            break;
        };
        lengths.push(item.text().map_or(0, |text| text.len()))?;
    }
    Ok(lengths)
}

/// The length of the text of the file at the path after the first `count` changes; `None` if it is stored as a delta.
fn text_length(
    alloc: Global,
    index: &ChangeIndex<'_>,
    lengths: &[usize],
    path: &[u8],
    count: usize,
) -> Result<Option<usize>, Memory> {
    if ends_in_slash(path) {
        return Ok(None);
    }
    let places = index.settings_at(alloc, Part::Text, path, count)?;
    let Some(change) = places.last().and_then(|place| index.changes().get(*place)) else {
        return Ok(Some(0));
    };
    match change.text {
        Setting::Keeps => Ok(Some(0)),
        Setting::Replaces => Ok(lengths.get(change.record_number as usize).copied()),
        Setting::Edits | Setting::EditsNothing => Ok(None),
    }
}

impl Size {
    /// The size with one more file of this length.
    fn with_file(self, length: Option<usize>) -> Size {
        let bytes = match (self.bytes, length) {
            (Some(bytes), Some(length)) => Some(bytes.saturating_add(length)),
            _ => None,
        };
        Size {
            files: self.files.saturating_add(1),
            bytes,
            ..self
        }
    }

    /// The size with one more directory.
    fn with_directory(self) -> Size {
        Size {
            directories: self.directories.saturating_add(1),
            ..self
        }
    }
}

/// The size of the part of the source at this rest and below it.
fn size_below(
    alloc: Global,
    index: &ChangeIndex<'_>,
    excluded: &Excluded,
    lengths: &[usize],
    change: &NodeChange<'_>,
    source: Source<'_>,
    rest: &[u8],
) -> Result<Size, Memory> {
    let count = index.end_of(source.revision);
    let mut size = Size {
        files: 0,
        directories: 0,
        bytes: Some(0),
        is_changed: rest.is_empty() && change.text != Setting::Keeps,
    };
    let mut left = Vec::new(alloc);
    left.push(Vec::from_slice(alloc, rest)?)?;
    // no memory holds this many paths
    for _ in 0..u64::MAX {
        let Some(below) = left.pop() else {
            break;
        };
        let at = joined(alloc, change.path, &below)?;
        let there = joined(alloc, source.path, &below)?;
        if excluded.covers(&at) || ends_in_slash(&there) {
            continue;
        }
        match index.kind_at(alloc, &there, count)? {
            Some(NodeKind::Directory) => {
                size = size.with_directory();
                for name in &index.children(alloc, &there, count)? {
                    left.push(joined(alloc, &below, name)?)?;
                }
            }
            Some(NodeKind::File) => {
                size = size.with_file(text_length(alloc, index, lengths, &there, count)?);
            }
            None => {}
        }
    }
    Ok(size)
}

/// The size of what each of these copies brings back.
pub fn sizes_of(
    alloc: Global,
    dump: &[u8],
    index: &ChangeIndex<'_>,
    excluded: &Excluded,
    returns: &[PlacedRest<'_>],
) -> Result<Vec<Size>, Memory> {
    let lengths = text_lengths(alloc, dump)?;
    let mut sizes = Vec::new(alloc);
    for found in returns {
        let Some(change) = index.changes().get(found.place) else {
            continue;
        };
        if let Some(NodeMade::CopyOf(source)) = change.made {
            let size = size_below(alloc, index, excluded, &lengths, change, source, found.rest)?;
            sizes.push(size)?;
        }
    }
    Ok(sizes)
}
