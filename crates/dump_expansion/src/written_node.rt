//! A node that is written in place of another.
ghost use Rattle.std.specs.Prelude.{◌≡◌, ◌&&◌, ◌+◌, ◌-◌, ◌^◌, ◌++◌, ◌∷◌, [], List, IfOk, OnOk, codes, length, map, min, not, option_copied};
ghost use Rattle.std.specs.List.{list_all};
ghost use Rattle.dump_text.specs.HeaderBlock.{lines_bytes};
ghost use Rattle.dump_text.specs.HeaderLine.{has_byte, header_text};
ghost use Rattle.dump_text.specs.Number.{spelled_number};
ghost use Rattle.dump_text.specs.PropertyList.{Property, property_block_text, sized_text};
ghost use Rattle.dump_text.specs.steps.KnownValues.{name_text};
ghost use Rattle.dump_records.specs.DumpText.{line_feeds};
ghost use Rattle.dump_history.specs.WrittenNodes.{WrittenNode, are_plain_entries, can_be_written, is_plain_option, is_plain_path, is_plain_value, is_readable, kind_word, line, line_of_some, making_word};
ghost use Rattle.dump_history.specs.steps.WrittenNodes.{node_bytes};
ghost use Rattle.dump_changes.specs.steps.ChangedProperties.{as_property};
ghost use Rattle.dump_changes.specs.steps.MadeTexts.{told_of_file};
ghost use Rattle.dump_expansion.specs.steps.NewNodes.{written_kind, written_of};
ghost use Rattle.dump_expansion.specs.steps.NodeTexts.{file_lines, lfs_after};

use dump_changes::{FileText, NodeProperty};
use dump_index::NodeKind;
use dump_nodes::is_canonical;
use dump_rules::Memory;
use dump_text::{HeaderName, push_block_end, push_header, push_property, spell};
use std::alloc::Global;

/// A node that is written in place of another. Its paths are written unchanged; the paths of a dump have no leading
/// slash.
#[derive(Drop)]
pub enum NewNode<'t> {
    /// Deletes what is at the path.
    Deletion {
        path: Vec<u8>,
    },
    /// Copies the source, as it is in this revision, to the path, where nothing is.
    Copy {
        /// The kind of node that the source is. A load ignores it.
        kind: NodeKind,
        revision: u64,
        source: Vec<u8>,
        path: Vec<u8>,
    },
    /// Makes a directory with these properties, where nothing is or in place of what is there.
    Directory {
        replaces: bool,
        path: Vec<u8>,
        entries: Vec<NodeProperty<'t>>,
    },
    /// Makes a file with these properties and this text, where nothing is or in place of what is there. The digests of
    /// the text are written too, if it has some.
    File {
        replaces: bool,
        path: Vec<u8>,
        entries: Vec<NodeProperty<'t>>,
        text: FileText<'t>,
    },
}

/// Numbers and lengths of a dump are less than this.
const TOO_LONG: u64 = 1_000_000_000_000_000_000;

/// Whether a header line can have this value, and `svnadmin load` reads it unchanged.
fn is_plain_value(value: &[u8]) -> bool
    ensures { result ≡ is_plain_value value.now }
{
    !value.contains(&b'\n') && !value.contains(&0)
}

/// Whether a header line can have this path, and `svnadmin load` reads it unchanged.
fn is_plain_path(path: &[u8]) -> bool
    ensures { result ≡ is_plain_path path.now }
{
    is_canonical(path) && is_plain_value(path)
}

/// Whether a header line can have this digest, or there is none.
fn is_plain_digest(digest: Option<&[u8]>) -> bool
    ensures { result ≡ is_plain_option (option_copied digest.entry) }
{
    match digest {
        Some(value) => is_plain_value(value),
        None => true,
    }
}

/// Whether no name has a zero byte, which `svnadmin load` rejects.
fn are_names_plain(entries: &[NodeProperty<'_>]) -> bool
    ensures { result ≡ list_all (λ entry. not (has_byte 0 entry.name.now)) entries.now }
{
    for entry in entries {
        if entry.name.contains(&0) {
            return false;
        }
    }
    true
}

/// The size of these bytes in a property block, with the line of their length.
fn part_size(bytes: &[u8]) -> u64
    ensures { result ≡ length (sized_text (codes "K") (spelled_number (length bytes.now)) bytes.now) }
{
    let length = bytes.len() as u64;
    spell(length).bytes().len() as u64 + length + 4
}

/// The size of the block of these properties; `u64::MAX` if it is larger than that.
fn block_size(entries: &[NodeProperty<'_>]) -> u64
    ensures { result ≡ min (length (property_block_text (map as_property entries.now))) (2 ^ 64 - 1) }
{
    let mut size = b"PROPS-END\n".len() as u64;
    for entry in entries {
        size = size.saturating_add(part_size(entry.name));
        size = size.saturating_add(part_size(entry.value));
    }
    size
}

/// Whether a directory can have these properties, as [`NewNode::can_be_written`] requires.
#[tactic(auto, using(crate::proofs::NodeLemmas::plain_entries))]
fn are_entries_plain(entries: &[NodeProperty<'_>]) -> bool
    ensures { let ps = map as_property entries.now in
        result ≡ (are_plain_entries ps && is_readable (length (property_block_text ps))) }
{
    are_names_plain(entries) && block_size(entries) < TOO_LONG
}

/// Whether a file can have these properties and a text of this size, as [`NewNode::can_be_written`] requires.
#[tactic(auto, using(crate::proofs::NodeLemmas::plain_entries))]
fn is_content_plain(entries: &[NodeProperty<'_>], text_size: usize) -> bool
    ensures { let ps = map as_property entries.now in
        result ≡ (are_plain_entries ps && is_readable (length (property_block_text ps) + text_size)) }
{
    are_names_plain(entries) && block_size(entries).saturating_add(text_size as u64) < TOO_LONG
}

/// Appends a header line.
fn push_line(out: &mut Vec<u8>, name: HeaderName, value: &[u8]) -> Result<(), Memory>
    ensures { OnOk result (out.new.items ≡ out.old.items ++ (header_text (line (name_text name) value.now) ++ 10 ∷ [])) }
{
    out.extend_from_slice(name.bytes())?;
    out.extend_from_slice(b": ")?;
    out.extend_from_slice(value)?;
    Ok(out.extend_from_slice(b"\n")?)
}

/// Appends a node that deletes what is at the path.
fn push_deletion(out: &mut Vec<u8>, path: &[u8]) -> Result<(), Memory>
    ensures { OnOk result (out.new.items ≡ out.old.items ++ node_bytes (WrittenNode.Deletion path.now)) }
{
    push_line(out, HeaderName::NodePath, path)?;
    push_line(out, HeaderName::NodeAction, b"delete")?;
    Ok(out.extend_from_slice(b"\n")?)
}

/// The value of `Node-kind` for a kind.
fn kind_word(kind: NodeKind) -> &'static [u8]
    ensures { result.now ≡ kind_word (written_kind kind) }
{
    match kind {
        NodeKind::Directory => b"dir",
        NodeKind::File => b"file",
    }
}

/// Appends a node that copies the source, as it is in this revision, to the path.
fn push_copy(
    out: &mut Vec<u8>,
    kind: NodeKind,
    revision: u64,
    source: &[u8],
    path: &[u8],
) -> Result<(), Memory>
    ensures { OnOk result (out.new.items
        ≡ out.old.items ++ node_bytes (WrittenNode.Copy (written_kind kind) revision source.now path.now)) }
{
    push_line(out, HeaderName::NodePath, path)?;
    push_line(out, HeaderName::NodeKind, kind_word(kind))?;
    push_line(out, HeaderName::NodeAction, b"add")?;
    push_header(out, HeaderName::NodeCopyfromRev.bytes(), revision)?;
    push_line(out, HeaderName::NodeCopyfromPath, source)?;
    Ok(out.extend_from_slice(b"\n")?)
}

/// The block of these properties.
fn block_of(alloc: Global, entries: &[NodeProperty<'_>]) -> Result<Vec<u8>, Memory>
    ensures { IfOk result (λ block. block.items ≡ property_block_text (map as_property entries.now)) }
{
    let mut block = Vec::new(alloc);
    for entry in entries {
        push_property(&mut block, entry.name, entry.value)?;
    }
    push_block_end(&mut block)?;
    Ok(block)
}

/// The value of `Node-action` for a node that makes something; `replaces` says whether it replaces what is there.
fn making_word(replaces: bool) -> &'static [u8]
    ensures { result.now ≡ making_word replaces }
{
    if replaces { b"replace" } else { b"add" }
}

/// Appends a node that makes a directory with the properties of this block.
fn push_directory(
    out: &mut Vec<u8>,
    replaces: bool,
    path: &[u8],
    block: &[u8],
) -> Result<(), Memory>
    ensures { (entries : List Property) → block.now ≡ property_block_text entries
        → OnOk result (out.new.items ≡ out.old.items ++ node_bytes (WrittenNode.Directory replaces path.now entries)) }
{
    push_line(out, HeaderName::NodePath, path)?;
    push_line(out, HeaderName::NodeKind, b"dir")?;
    push_line(out, HeaderName::NodeAction, making_word(replaces))?;
    let size = block.len() as u64;
    push_header(out, HeaderName::PropContentLength.bytes(), size)?;
    push_header(out, HeaderName::ContentLength.bytes(), size)?;
    out.extend_from_slice(b"\n")?;
    Ok(out.extend_from_slice(block)?)
}

/// Appends the line of a digest, if there is one.
fn push_digest(out: &mut Vec<u8>, name: HeaderName, digest: Option<&[u8]>) -> Result<(), Memory>
    ensures { OnOk result (out.new.items
        ≡ out.old.items ++ lines_bytes (line_of_some (name_text name) (option_copied digest.entry))) }
{
    match digest {
        Some(value) => push_line(out, name, value),
        None => Ok(()),
    }
}

/// Appends the header lines of a file, up to the length of its text.
fn push_file_lines(
    out: &mut Vec<u8>,
    replaces: bool,
    path: &[u8],
    block_size: u64,
    text_size: u64,
) -> Result<(), Memory>
    ensures { OnOk result (out.new.items
        ≡ out.old.items ++ lines_bytes (file_lines replaces path.now block_size text_size)) }
{
    push_line(out, HeaderName::NodePath, path)?;
    push_line(out, HeaderName::NodeKind, b"file")?;
    push_line(out, HeaderName::NodeAction, making_word(replaces))?;
    push_header(out, HeaderName::PropContentLength.bytes(), block_size)?;
    Ok(push_header(out, HeaderName::TextContentLength.bytes(), text_size)?)
}

/// Appends a node that makes a file with the properties of this block and this text.
fn push_file(
    alloc: Global,
    out: &mut Vec<u8>,
    replaces: bool,
    path: &[u8],
    block: &[u8],
    text: &FileText<'_>,
) -> Result<(), Memory>
    ensures { (entries : List Property) → block.now ≡ property_block_text entries
        → let its = told_of_file text.now in
        OnOk result (out.new.items ≡ out.old.items ++ node_bytes (WrittenNode.File replaces path.now entries its.text its.md5 its.sha1)) }
{
    let block_size = block.len() as u64;
    let text_size = text.size() as u64;
    push_file_lines(out, replaces, path, block_size, text_size)?;
    push_digest(out, HeaderName::TextContentMd5, text.md5())?;
    push_digest(out, HeaderName::TextContentSha1, text.sha1())?;
    push_header(
        out,
        HeaderName::ContentLength.bytes(),
        block_size + text_size,
    )?;
    out.extend_from_slice(b"\n")?;
    out.extend_from_slice(block)?;
    text.write(alloc, out)?;
    Ok(())
}

impl<'t> NewNode<'t> {
    /// Whether `svnadmin load` reads the node as the caller means it. Its paths must be canonical. Its paths, its
    /// digests and the names of its properties may only have bytes that a header line or a name can have. Its
    /// revision, and the length of its properties and its text, must be less than 10^18. This function doesn't check
    /// whether the digests are those of the text.
    pub fn can_be_written(&self) -> bool
        ensures { result ≡ can_be_written (written_of self.now) }
    {
        match self {
            NewNode::Deletion { path } => is_plain_path(path),
            NewNode::Copy {
                revision,
                source,
                path,
                ..
            } => is_plain_path(path) && is_plain_path(source) && *revision < TOO_LONG,
            NewNode::Directory { path, entries, .. } => {
                is_plain_path(path) && are_entries_plain(entries)
            }
            NewNode::File {
                path,
                entries,
                text,
                ..
            } => {
                is_plain_path(path)
                    && is_content_plain(entries, text.size())
                    && is_plain_digest(text.md5())
                    && is_plain_digest(text.sha1())
            }
        }
    }

    /// Appends its bytes, up to the end of its properties or its text.
    pub fn write(&self, alloc: Global, out: &mut Vec<u8>) -> Result<(), Memory>
        ensures { OnOk result (out.new.items ≡ out.old.items ++ node_bytes (written_of self.now)) }
    {
        match self {
            NewNode::Deletion { path } => push_deletion(out, path),
            NewNode::Copy {
                kind,
                revision,
                source,
                path,
            } => push_copy(out, *kind, *revision, source, path),
            NewNode::Directory {
                replaces,
                path,
                entries,
            } => {
                let block = block_of(alloc, entries)?;
                push_directory(out, *replaces, path, &block)
            }
            NewNode::File {
                replaces,
                path,
                entries,
                text,
            } => {
                let block = block_of(alloc, entries)?;
                push_file(alloc, out, *replaces, path, &block, text)
            }
        }
    }

    /// The empty lines that follow it in a dump.
    pub(crate) fn end(&self) -> &'static [u8]
        ensures { result.now ≡ line_feeds (lfs_after (written_of self.now)) }
    {
        match self {
            NewNode::Deletion { .. } | NewNode::Copy { .. } => b"\n",
            NewNode::Directory { .. } | NewNode::File { .. } => b"\n\n",
        }
    }
}
