//! The parts into which a copy is divided.
ghost use Rattle.std.specs.Prelude.{◌≡◌, ◌++◌, [], IfOk, IsTrue, OnOk, map};
ghost use Rattle.std.specs.List.{list_all};
ghost use Rattle.dump_trees.specs.Paths.{names_of};
ghost use Rattle.dump_trees.specs.Siblings.{has_node_names};
ghost use Rattle.dump_cut.specs.steps.NamedPaths.{has_named_paths};
ghost use Rattle.dump_cut.specs.steps.ExcludedPaths.{paths_of};
ghost use Rattle.dump_additions.specs.steps.Parts.{AddsInside, children_of, form_of, part_meant, pending, ArePartsOf, IsFormAt};

use dump_cut::{Excluded, Way, followed_rests};
use dump_index::{ChangeIndex, NodeKind, Source, joined};
use dump_rules::Memory;
use std::alloc::Global;

/// How a part of what a copy takes is written.
#[derive(Clone, Copy, Debug, PartialEq, Eq)]
pub enum Form {
    /// As a copy, with all that is in it.
    Copy,
    /// As a directory. The parts in it are written after it.
    Directory,
    File,
}

/// A part of what a copy takes: what exists at this rest of its source.
#[derive(Drop)]
pub struct Part {
    pub form: Form,
    /// The path below that of the copy, and below its source; empty if it is all that is copied.
    pub rest: Vec<u8>,
}

/// How to write what exists at this rest of the source; `None` if nothing exists there.
fn form_at(
    alloc: Global,
    index: &ChangeIndex<'_>,
    excluded: &Excluded,
    path: &[u8],
    source: Source<'_>,
    rest: &[u8],
) -> Result<Option<Form>, Memory>
    requires source { IsTrue (has_node_names (names_of source.path.now)) }
    requires rest { IsTrue (has_node_names (names_of rest.now)) }
    ensures { IfOk result (IsFormAt index.now (paths_of excluded.now) source.entry.revision (names_of path.now)
        (names_of source.entry.path.now) (names_of rest.now)) }
{
    let at = joined(alloc, path, rest)?;
    let there = joined(alloc, source.path, rest)?;
    let part = Source {
        revision: source.revision,
        path: &there,
    };
    let brought = followed_rests(alloc, index, excluded, Way::ToCopies, &at, part)?;
    if brought.is_empty() {
        return Ok(Some(Form::Copy));
    }
    let kind = index.kind_at(alloc, &there, index.end_of(source.revision))?;
    Ok(form_of(kind))
}

/// How to write a node of this kind that isn't copied.
fn form_of(kind: Option<NodeKind>) -> Option<Form>
    ensures { result ≡ form_of kind }
{
    match kind {
        Some(NodeKind::Directory) => Some(Form::Directory),
        Some(NodeKind::File) => Some(Form::File),
        None => None,
    }
}

/// Pushes these names on the stack, each joined to the rest, so that the first name is popped first.
fn push_joined(
    alloc: Global,
    rest: &[u8],
    names: &[&[u8]],
    left: &mut Vec<Vec<u8>>,
) -> Result<(), Memory>
    ensures { OnOk result (pending left.new.items ≡ children_of (names_of rest.now) (map (λ name. names_of name.now) names.now)
        ++ pending left.old.items) }
{
    for name in names.iter().rev() {
        left.push(joined(alloc, rest, name)?)?;
    }
    Ok(())
}

/// Pushes the rests of what is in the directory at this rest of the source, so that the first one is popped first.
fn push_inside(
    alloc: Global,
    index: &ChangeIndex<'_>,
    source: Source<'_>,
    rest: &[u8],
    left: &mut Vec<Vec<u8>>,
) -> Result<(), Memory>
    requires index { IsTrue (list_all has_named_paths index.now) }
    requires source { IsTrue (has_node_names (names_of source.path.now)) }
    requires rest { IsTrue (has_node_names (names_of rest.now)) }
    ensures { OnOk result (AddsInside index.now source.entry.revision (names_of source.entry.path.now) (names_of rest.now)
        (pending left.old.items) (pending left.new.items)) }
{
    let there = joined(alloc, source.path, rest)?;
    let names = index.children(alloc, &there, index.end_of(source.revision))?;
    push_joined(alloc, rest, &names, left)
}

/// The parts into which a copy of this source to the path is divided, from the top on. The names in each directory are
/// sorted by their bytes. A part is copied if no excluded content comes back with it.
pub fn parts_of(
    alloc: Global,
    index: &ChangeIndex<'_>,
    excluded: &Excluded,
    path: &[u8],
    source: Source<'_>,
) -> Result<Vec<Part>, Memory>
    requires index { IsTrue (list_all has_named_paths index.now) }
    requires source { IsTrue (has_node_names (names_of source.path.now)) }
    ensures named { IfOk result (λ parts. IsTrue (list_all (λ part. has_node_names (names_of part.rest.items)) parts.items)) }
    ensures parts { IfOk result (λ parts. ArePartsOf index.now (paths_of excluded.now) source.entry.revision (names_of path.now)
        (names_of source.entry.path.now) [] (map part_meant parts.items)) }
{
    let mut parts = Vec::new(alloc);
    let mut left = Vec::new(alloc);
    left.push(Vec::new(alloc))?;
    // no memory holds this many paths
    for _ in 0..u64::MAX {
        let Some(rest) = left.pop() else {
            return Ok(parts);
        };
        let Some(form) = form_at(alloc, index, excluded, path, source, &rest)? else {
            continue;
        };
        if let Form::Directory = form {
            push_inside(alloc, index, source, &rest, &mut left)?;
        }
        parts.push(Part { form, rest })?;
    }
    Err(Memory)
}
