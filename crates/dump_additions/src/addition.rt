//! Finds what to write in place of copies that bring back excluded content, and before copies to a path where
//! something is.
ghost use Rattle.std.specs.Prelude.{◌≡◌, ◌<◌, ◌-◌, ◌++◌, ◌∷◌, [], List, IfOk, IsTrue, map, Some};
ghost use Rattle.std.specs.List.{list_all};
ghost use Rattle.dump_trees.specs.Changes.{is_copied};
ghost use Rattle.dump_trees.specs.Paths.{NodePath, names_of};
ghost use Rattle.dump_trees.specs.Siblings.{has_node_names};
ghost use Rattle.dump_trees.specs.steps.WritingOut.{copy_of};
ghost use Rattle.dump_history.specs.steps.WrittenNodes.{written_change};
ghost use Rattle.dump_index.specs.steps.Listed.{listed_of};
ghost use Rattle.dump_index.specs.declared.change.NodeMade.TheVariants.{CopyOf};
ghost use Rattle.dump_cut.specs.steps.NamedPaths.{has_named_paths};
ghost use Rattle.dump_cut.specs.steps.ExcludedPaths.{paths_of};
ghost use Rattle.dump_expansion.specs.steps.NewNodes.{written_of};
ghost use Rattle.dump_additions.specs.steps.Additions.{SaysKind};
ghost use Rattle.dump_additions.specs.steps.Parts.{ArePartsOf, kind_in, part_meant};
ghost use Rattle.dump_additions.specs.declared.parts.Form.TheVariants as forms;
ghost use Rattle.dump_additions.specs.steps.Nodes.{AddsNodes, AreAdditions, IsAdditionOr, IsClearingOr, IsDirectoryNode, IsNodeOrNoText, IsRootOr, IsRootText, IsSteadFor, IsSteadOr, given_found};

use crate::not_added::{NotAdded, Reason};
use crate::parts::{Form, Part, parts_of};
use dump_changes::{FileText, NoText, PropertyTable, TextTable, properties_at, text_at};
use dump_cut::{Excluded, source_of};
use dump_expansion::{NewNode, Stead};
use dump_index::{ChangeIndex, NodeChange, NodeKind, Setting, Source, joined};
use dump_rules::Memory;
use std::alloc::Global;

/// The node that copies a part of what is copied from this source to the path.
fn copy_node<'a>(
    alloc: Global,
    index: &ChangeIndex<'_>,
    path: &[u8],
    source: Source<'_>,
    rest: &[u8],
) -> Result<NewNode<'a>, Memory>
    requires path { IsTrue (has_node_names (names_of path.now)) }
    requires source { IsTrue (has_node_names (names_of source.path.now)) }
    requires rest { IsTrue (has_node_names (names_of rest.now)) }
    ensures change { IfOk result (λ node. written_change (written_of node) ≡ copy_of source.entry.revision
        (names_of source.entry.path.now ++ names_of rest.now) (names_of path.now ++ names_of rest.now)) }
    ensures kind { IfOk result (λ node. SaysKind (kind_in index.now source.entry.revision
        (names_of source.entry.path.now ++ names_of rest.now)) (written_of node)) }
{
    let there = joined(alloc, source.path, rest)?;
    let kind = index.kind_at(alloc, &there, index.end_of(source.revision))?;
    Ok(NewNode::Copy {
        kind: kind.unwrap_or(NodeKind::Directory),
        revision: source.revision,
        source: there,
        path: joined(alloc, path, rest)?,
    })
}

/// The node that makes a directory with the properties that it has at a rest of the source.
fn directory_node<'a>(
    alloc: Global,
    table: &PropertyTable<'a>,
    index: &ChangeIndex<'_>,
    path: &[u8],
    source: Source<'_>,
    rest: &[u8],
) -> Result<NewNode<'a>, Memory>
    requires path { IsTrue (has_node_names (names_of path.now)) }
    requires source { IsTrue (has_node_names (names_of source.path.now)) }
    requires rest { IsTrue (has_node_names (names_of rest.now)) }
    ensures { IfOk result (λ node. IsDirectoryNode table.now index.now source.entry.revision (names_of path.now)
        (names_of source.entry.path.now) (names_of rest.now) (written_of node)) }
{
    let there = joined(alloc, source.path, rest)?;
    let entries = properties_at(alloc, table, index, &there, index.end_of(source.revision))?;
    Ok(NewNode::Directory {
        replaces: false,
        path: joined(alloc, path, rest)?,
        entries,
    })
}

/// The node that makes a file as it is at a rest of the source. The error says why its text can't be made.
fn file_node<'a>(
    alloc: Global,
    table: &PropertyTable<'a>,
    texts: &TextTable<'a>,
    index: &ChangeIndex<'_>,
    path: &[u8],
    source: Source<'_>,
    rest: &[u8],
) -> Result<Result<NewNode<'a>, NoText>, Memory>
    requires path { IsTrue (has_node_names (names_of path.now)) }
    requires source { IsTrue (has_node_names (names_of source.path.now)) }
    requires rest { IsTrue (has_node_names (names_of rest.now)) }
    ensures { (excluded : List NodePath) → IfOk result (IsNodeOrNoText table.now texts.now index.now excluded
        source.entry.revision (names_of path.now) (names_of source.entry.path.now)
        (record { form = forms.File; rest = names_of rest.now })) }
{
    let there = joined(alloc, source.path, rest)?;
    let end = index.end_of(source.revision);
    let text = match text_at(alloc, texts, index, &there, end)? {
        Ok(text) => text,
        Err(no_text) => return Ok(Err(no_text)),
    };
    let entries = properties_at(alloc, table, index, &there, end)?;
    Ok(Ok(NewNode::File {
        replaces: false,
        path: joined(alloc, path, rest)?,
        entries,
        text,
    }))
}

/// The node that writes a part of what is copied. The error says why its text can't be made.
fn node_of<'a>(
    alloc: Global,
    table: &PropertyTable<'a>,
    texts: &TextTable<'a>,
    index: &ChangeIndex<'_>,
    path: &[u8],
    source: Source<'_>,
    part: &Part,
) -> Result<Result<NewNode<'a>, NoText>, Memory>
    requires path { IsTrue (has_node_names (names_of path.now)) }
    requires source { IsTrue (has_node_names (names_of source.path.now)) }
    requires part { IsTrue (has_node_names (names_of part.now.rest.items)) }
    ensures { (excluded : List NodePath) → IfOk result (IsNodeOrNoText table.now texts.now index.now excluded
        source.entry.revision (names_of path.now) (names_of source.entry.path.now) (part_meant part.now)) }
{
    match part.form {
        Form::Copy => Ok(Ok(copy_node(alloc, index, path, source, &part.rest)?)),
        Form::Directory => Ok(Ok(directory_node(alloc, table, index, path, source, &part.rest)?)),
        Form::File => file_node(alloc, table, texts, index, path, source, &part.rest),
    }
}

/// Appends the nodes that write these parts. If the text of one can't be made, returns why.
fn push_nodes<'a>(
    alloc: Global,
    table: &PropertyTable<'a>,
    texts: &TextTable<'a>,
    index: &ChangeIndex<'_>,
    path: &[u8],
    source: Source<'_>,
    parts: &[Part],
    nodes: &mut Vec<NewNode<'a>>,
) -> Result<Option<NoText>, Memory>
    requires path { IsTrue (has_node_names (names_of path.now)) }
    requires source { IsTrue (has_node_names (names_of source.path.now)) }
    requires parts { IsTrue (list_all (λ part. has_node_names (names_of part.rest.items)) parts.now) }
    ensures { (excluded : List NodePath) → IfOk result (AddsNodes table.now texts.now index.now excluded source.entry.revision
        (names_of path.now) (names_of source.entry.path.now) (map part_meant parts.now) (map written_of nodes.old.items)
        (map written_of nodes.new.items)) }
{
    for part in parts {
        match node_of(alloc, table, texts, index, path, source, part)? {
            Ok(node) => nodes.push(node)?,
            Err(no_text) => return Ok(Some(no_text)),
        }
    }
    Ok(None)
}

/// The text at the path of the last of the first `count` changes, after it, if it copies a file; `None` if it copies a
/// directory. The error says why there is none.
fn root_text<'a>(
    alloc: Global,
    texts: &TextTable<'a>,
    index: &ChangeIndex<'_>,
    count: usize,
    change: &NodeChange<'_>,
    form: Form,
) -> Result<Result<Option<FileText<'a>>, Reason>, Memory>
    requires named { IsTrue (has_named_paths (listed_of change.now)) }
    requires count { 0 < count }
    requires form { form ≡ forms.Copy → ⊥ }
    ensures { IfOk result (IsRootText texts.now index.now (count - 1) (listed_of change.now) form) }
{
    if let Form::File = form {
        return match text_at(alloc, texts, index, change.path, count)? {
            Ok(text) => Ok(Ok(Some(text))),
            Err(no_text) => Ok(Err(Reason::Text(no_text))),
        };
    }
    match change.text {
        Setting::Keeps => Ok(Ok(None)),
        _ => Ok(Err(Reason::NoLoad)),
    }
}

/// The node that makes the directory or file that the last of the first `count` changes copies, as it is after the
/// copy. The error says why there is none.
fn root_node<'a>(
    alloc: Global,
    table: &PropertyTable<'a>,
    texts: &TextTable<'a>,
    index: &ChangeIndex<'_>,
    count: usize,
    change: &NodeChange<'_>,
    form: Form,
) -> Result<Result<NewNode<'a>, Reason>, Memory>
    requires named { IsTrue (has_named_paths (listed_of change.now)) }
    requires count { 0 < count }
    requires form { form ≡ forms.Copy → ⊥ }
    ensures { (excluded : List NodePath) → IfOk result (IsRootOr table.now texts.now index.now excluded (count - 1)
        (listed_of change.now) form) }
{
    let text = match root_text(alloc, texts, index, count, change, form)? {
        Ok(text) => text,
        Err(reason) => return Ok(Err(reason)),
    };
    let replaces = index.kind_at(alloc, change.path, count - 1)?.is_some();
    let entries = properties_at(alloc, table, index, change.path, count)?;
    let path = Vec::from_slice(alloc, change.path)?;
    match text {
        Some(text) => Ok(Ok(NewNode::File {
            replaces,
            path,
            entries,
            text,
        })),
        None => Ok(Ok(NewNode::Directory {
            replaces,
            path,
            entries,
        })),
    }
}

/// These nodes in place of this change, or before it if `keeps` is true. The error says that one of them can't be
/// written.
fn stead_for<'a>(
    change: &NodeChange<'_>,
    nodes: Vec<NewNode<'a>>,
    keeps: bool,
) -> Result<Stead<'a>, Reason>
    ensures { IsSteadFor change.now.record_number (map written_of nodes.entry.items) keeps result }
{
    let stead = Stead {
        record_number: change.record_number,
        nodes,
        keeps,
    };
    if !stead.can_be_written() {
        return Err(Reason::NotWritable);
    }
    Ok(stead)
}

/// What is written in place of the last of the first `count` changes, which copies something in this form. `parts` are
/// the parts in it. The error says why nothing can be written.
fn stead_of<'a>(
    alloc: Global,
    table: &PropertyTable<'a>,
    texts: &TextTable<'a>,
    index: &ChangeIndex<'_>,
    count: usize,
    change: &NodeChange<'_>,
    source: Source<'_>,
    form: Form,
    inside: &[Part],
) -> Result<Result<Stead<'a>, Reason>, Memory>
    requires named { IsTrue (has_named_paths (listed_of change.now)) }
    requires count { 0 < count }
    requires copies { change.now.made ≡ Some (CopyOf source) }
    requires parts { IsTrue (list_all (λ part. has_node_names (names_of part.rest.items)) inside.now) }
    requires form { form ≡ forms.Copy → ⊥ }
    ensures { (excluded : List NodePath) →
        ArePartsOf index.now excluded source.entry.revision (names_of change.now.path.now) (names_of source.entry.path.now) []
        (record { form = form; rest = [] } ∷ map part_meant inside.now)
        → IfOk result (IsSteadOr table.now texts.now index.now excluded (count - 1) (listed_of change.now)) }
{
    let mut nodes = Vec::new(alloc);
    match root_node(alloc, table, texts, index, count, change, form)? {
        Ok(root) => nodes.push(root)?,
        Err(reason) => return Ok(Err(reason)),
    }
    let path = change.path;
    if let Some(no_text) = push_nodes(
        alloc, table, texts, index, path, source, inside, &mut nodes,
    )? {
        return Ok(Err(Reason::Text(no_text)));
    }
    Ok(stead_for(change, nodes, false))
}

/// What is written before the last of the first `count` changes, which is a copy. It is a node that deletes what
/// exists at its path, if something does and the change doesn't delete it itself. The error says why this can't be
/// written.
fn clearing_of<'a>(
    alloc: Global,
    index: &ChangeIndex<'_>,
    count: usize,
    change: &NodeChange<'_>,
) -> Result<Result<Option<Stead<'a>>, Reason>, Memory>
    requires index { IsTrue (list_all has_named_paths index.now) }
    requires named { IsTrue (has_named_paths (listed_of change.now)) }
    requires count { 0 < count }
    requires copies { IsTrue (is_copied (listed_of change.now).made) }
    ensures { IfOk result (IsClearingOr index.now (count - 1) (listed_of change.now)) }
{
    if change.deletes || index.kind_at(alloc, change.path, count - 1)?.is_none() {
        return Ok(Ok(None));
    }
    let path = Vec::from_slice(alloc, change.path)?;
    let mut nodes = Vec::new(alloc);
    nodes.push(NewNode::Deletion { path })?;
    match stead_for(change, nodes, true) {
        Ok(clearing) => Ok(Ok(Some(clearing))),
        Err(reason) => Ok(Err(reason)),
    }
}

/// What is written for the last of the first `count` changes, which is a copy: nodes in its place, if it brings back
/// excluded content; otherwise a deletion before it, if something is at its path. The error says why nothing can be
/// written.
fn addition_of<'a>(
    alloc: Global,
    table: &PropertyTable<'a>,
    texts: &TextTable<'a>,
    index: &ChangeIndex<'_>,
    excluded: &Excluded,
    count: usize,
    change: &NodeChange<'_>,
    source: Source<'_>,
) -> Result<Result<Option<Stead<'a>>, Reason>, Memory>
    requires index { IsTrue (list_all has_named_paths index.now) }
    requires named { IsTrue (has_named_paths (listed_of change.now)) }
    requires count { 0 < count }
    requires copies { change.now.made ≡ Some (CopyOf source) }
    ensures { IfOk result (IsAdditionOr table.now texts.now index.now (paths_of excluded.now) (count - 1) (listed_of change.now)) }
{
    let parts = parts_of(alloc, index, excluded, change.path, source)?;
    let [top, inside @ ..] = parts.as_slice() else {
        return Ok(Err(Reason::NoLoad));
    };
    let form = top.form;
    if let Form::Copy = form {
        return clearing_of(alloc, index, count, change);
    }
    match stead_of(
        alloc, table, texts, index, count, change, source, form, inside,
    )? {
        Ok(stead) => Ok(Ok(Some(stead))),
        Err(reason) => Ok(Err(reason)),
    }
}

/// What is written in place of each copy that brings back excluded content: the directory or file that it makes, with
/// the directories and files in it that come back, and copies of everything else. Before each other copy to a path
/// where something is, a node deletes this: `svnadmin load` rejects a copy over what the same revision added. The
/// error is the first copy for which nothing can be written, with the reason. Both tables and the index have to be of
/// one dump.
pub fn additions<'a>(
    alloc: Global,
    table: &PropertyTable<'a>,
    texts: &TextTable<'a>,
    index: &ChangeIndex<'_>,
    excluded: &Excluded,
) -> Result<Result<Vec<Stead<'a>>, NotAdded>, Memory>
    requires { IsTrue (list_all has_named_paths index.now) }
    ensures { IfOk result (λ found. AreAdditions table.now texts.now index.now (paths_of excluded.now) (given_found found)) }
{
    let mut steads = Vec::new(alloc);
    for (place, change) in index.changes().iter().enumerate() {
        let Some(source) = source_of(change) else {
            continue;
        };
        let count = place + 1;
        let found = match addition_of(
            alloc, table, texts, index, excluded, count, change, source,
        )? {
            Ok(found) => found,
            Err(reason) => return Ok(Err(NotAdded { place, reason })),
        };
        let Some(stead) = found else {
            continue;
        };
        steads.push(stead)?;
    }
    Ok(Ok(steads))
}
