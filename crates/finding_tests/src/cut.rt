//! What no contract says: each rejection with an example, prefixes in canonical form, copies of excluded paths, and
//! allocations that fail.
ghost use Rattle.std.specs.Prelude.{IfOk, IfSome, IsTrue};
ghost use Rattle.std.specs.List.{list_all};
ghost use Rattle.dump_cut.specs.steps.NamedPaths.{has_named_paths};

use dump_changes::{End, read_changes};
use dump_cut::{
    Addition, Deletes, Excluded, Memory, NoPart, PlacedRest, Rejected, Rejection, Way,
    all_followed, canonical_prefix, cut_differences, find_siblings, first_part, first_rejected,
    follow, later_part, merge_paths, no_part_after, revision_fates,
};
use dump_index::{ChangeIndex, first_out_of_order};
use dump_rules::{Empty, keeps};
use std::alloc::Global;
use std::test::Fail;

const HEAD: &str = "SVN-fs-dump-format-version: 3\n\nRevision-number: 0\n\nRevision-number: 1\n\n\
Node-path: d\nNode-kind: dir\nNode-action: add\n\n\n\
Node-path: d/f\nNode-kind: file\nNode-action: add\n\n\nRevision-number: 2\n\n";

/// The index of the changes of a dump; `None` if it can't be read.
pub(crate) fn index_of<'a>(alloc: Global, dump: &'a [u8]) -> Result<Option<ChangeIndex<'a>>, Memory>
    ensures { IfOk result (λ read. IfSome read (λ index. IsTrue (list_all has_named_paths index))) }
{
    let reading = read_changes(alloc, dump)?;
    if reading.end != End::Whole || first_out_of_order(&reading.changes).is_some() {
        return Ok(None);
    }
    let index = ChangeIndex::new(alloc, reading.changes)?;
    Ok(Some(index))
}

/// Why a load would reject a dump; `None` if it can't be read.
fn rejected(alloc: Global, dump: &[u8]) -> Result<Option<Option<Rejected>>, Memory> {
    match index_of(alloc, dump)? {
        Some(index) => Ok(Some(first_rejected(alloc, &index)?)),
        None => Ok(None),
    }
}

/// A dump with this node, in a revision after one that adds a directory `d` with a file `f`.
fn dump_with(alloc: Global, node: &str) -> Result<Vec<u8>, Memory> {
    let mut dump = Vec::from_slice(alloc, HEAD.as_bytes())?;
    dump.extend_from_slice(node.as_bytes())?;
    dump.extend_from_slice(b"\n\n")?;
    Ok(dump)
}

/// Whether the node is the first that a load would reject, for this reason; or it would reject none.
fn is_rejected(alloc: Global, node: &str, rejection: Option<Rejection>) -> Result<bool, Memory> {
    let dump = dump_with(alloc, node)?;
    let found = rejected(alloc, &dump)?;
    Ok(
        found
            == Some(rejection.map(|rejection| Rejected {
                place: 2,
                rejection,
            })),
    )
}

#[test]
fn nodes_that_a_load_takes(rt: HostRuntime) -> Result<(), Fail> {
    let alloc = rt.alloc();
    assert!(rt; is_rejected(alloc, "Node-path: d/f\nNode-action: delete\n", None)?);
    assert!(rt; is_rejected(alloc, "Node-path: e\nNode-action: change\n", None)?);
    let delta = "Node-path: e\nNode-action: change\nProp-delta: true\nProp-content-length: 10\n\
Content-length: 10\n\nPROPS-END\n";
    assert!(rt; is_rejected(alloc, delta, None)?);
    Ok(())
}

#[test]
fn nodes_that_are_rejected(rt: HostRuntime) -> Result<(), Fail> {
    let alloc = rt.alloc();
    let root = "Node-path: \nNode-action: delete\n";
    let gone = "Node-path: e\nNode-action: delete\n";
    let inside = "Node-path: d/f/e\nNode-kind: dir\nNode-action: add\n";
    let over = "Node-path: d/f\nNode-kind: file\nNode-action: add\n";
    assert!(rt; is_rejected(alloc, root, Some(Rejection::Root))?);
    assert!(rt; is_rejected(alloc, gone, Some(Rejection::NoPath))?);
    assert!(rt; is_rejected(alloc, inside, Some(Rejection::NoParent))?);
    assert!(rt; is_rejected(alloc, over, Some(Rejection::Exists))?);
    Ok(())
}

#[test]
fn copies_and_texts_that_are_rejected(rt: HostRuntime) -> Result<(), Fail> {
    let alloc = rt.alloc();
    let source = "Node-path: e\nNode-action: add\nNode-copyfrom-rev: 1\nNode-copyfrom-path: d/g\n";
    let text = "Node-path: d\nNode-action: change\nText-content-length: 1\nContent-length: 1\n\nx";
    assert!(rt; is_rejected(alloc, source, Some(Rejection::NoSource))?);
    assert!(rt; is_rejected(alloc, text, Some(Rejection::TextOnDirectory))?);
    Ok(())
}

#[test]
fn a_check_or_no_memory(rt: HostRuntime) {
    let node = "Node-path: e\nNode-action: add\nNode-copyfrom-rev: 1\nNode-copyfrom-path: d\n";
    let answer = is_rejected(rt.alloc(), node, None);
    assert!(rt; matches!(answer, Ok(true) | Err(Memory)));
}

fn is_read(alloc: Global, prefix: &str, wanted: &str) -> Result<bool, Memory> {
    let text = canonical_prefix(alloc, prefix.as_bytes())?;
    Ok(text.as_slice() == wanted.as_bytes())
}

#[test]
fn prefixes_are_made_canonical(rt: HostRuntime) -> Result<(), Fail> {
    let alloc = rt.alloc();
    assert!(rt; is_read(alloc, "./a", "a")? && is_read(alloc, "/a//b/./", "a/b")?);
    assert!(rt;
        is_read(alloc, ".", "")? && is_read(alloc, "/", "")? && is_read(alloc, "..", "..")?
    );
    Ok(())
}

#[test]
fn a_prefix_or_no_memory(rt: HostRuntime) {
    let answer = is_read(rt.alloc(), "a/b", "a/b");
    assert!(rt; matches!(answer, Ok(true) | Err(Memory)));
}

const COPY: &str = "Node-path: e\nNode-action: add\nNode-copyfrom-rev: 1\nNode-copyfrom-path: d\n";

/// Whether only the copy of `d` to `e` was found, with this rest; or nothing was found.
fn is_rest(found: &[PlacedRest<'_>], rest: Option<&[u8]>) -> bool {
    match (found, rest) {
        ([one], Some(rest)) => one.place == 2 && one.rest == rest,
        ([], None) => true,
        _ => false,
    }
}

/// Whether the copy of `d` to `e` brings back this rest, if these prefixes are excluded.
fn brings(alloc: Global, prefixes: &[&[u8]], rest: Option<&[u8]>) -> Result<bool, Memory> {
    let dump = dump_with(alloc, COPY)?;
    let Some(index) = index_of(alloc, &dump)? else {
        return Ok(false);
    };
    let excluded = Excluded::of(alloc, prefixes)?;
    let found = all_followed(alloc, &index, &excluded, Way::ToCopies)?;
    Ok(is_rest(&found, rest))
}

#[test]
fn copies_bring_excluded_paths_back(rt: HostRuntime) -> Result<(), Fail> {
    let alloc = rt.alloc();
    assert!(rt; brings(alloc, &[b"/d/f".as_slice()], Some(b"f"))?);
    assert!(rt; brings(alloc, &[b"d".as_slice()], Some(b""))?);
    assert!(rt; brings(alloc, &[b"e/f".as_slice()], None)?);
    assert!(rt; brings(alloc, &[b"d/f".as_slice(), b"e/./f"], None)?);
    assert!(rt; brings(alloc, &[b"d/g".as_slice()], None)?);
    Ok(())
}

#[test]
fn returns_or_no_memory(rt: HostRuntime) {
    let answer = brings(rt.alloc(), &[b"d/f".as_slice(), b"e"], None);
    assert!(rt; matches!(answer, Ok(true) | Err(Memory)));
}

#[test]
fn paths_are_covered_from_above(rt: HostRuntime) -> Result<(), Fail> {
    let alloc = rt.alloc();
    let excluded = Excluded::of(alloc, &[b"d/f".as_slice(), b"//d/", b"ab/."])?;
    assert!(rt; excluded.covers(b"d") && excluded.covers(b"d/f") && excluded.covers(b"ab/c"));
    assert!(rt; !excluded.covers(b"abc") && !excluded.covers(b"a") && !excluded.covers(b""));
    let root = Excluded::of(alloc, &[b"/".as_slice(), b"a"])?;
    assert!(rt; root.covers(b"") && root.covers(b"b/c"));
    Ok(())
}

#[test]
fn no_path_covers_nothing(rt: HostRuntime) -> Result<(), Fail> {
    let mut excluded = Excluded::new(rt.alloc());
    assert!(rt; !excluded.covers(b"") && !excluded.covers(b"a"));
    assert!(rt; excluded.add(rt.alloc(), b"a/b")? && excluded.add(rt.alloc(), b"a")?);
    assert!(rt; !excluded.add(rt.alloc(), b"a/c")? && excluded.covers(b"a/c"));
    Ok(())
}

/// Whether exactly this path was added.
fn is_added(additions: &[Addition], path: &[u8]) -> bool {
    match additions {
        [one] => one.place == 2 && one.path.as_slice() == path,
        _ => false,
    }
}

/// Whether the copy of `d` to `e` is followed from this prefix to the path, and then no copy is.
fn follows(alloc: Global, prefix: &[u8], way: Way, path: &[u8]) -> Result<bool, Memory> {
    let dump = dump_with(alloc, COPY)?;
    let Some(index) = index_of(alloc, &dump)? else {
        return Ok(false);
    };
    let mut excluded = Excluded::of(alloc, &[prefix])?;
    let additions = follow(alloc, &index, &mut excluded, way)?;
    let left = all_followed(alloc, &index, &excluded, way)?;
    Ok(is_added(&additions, path) && excluded.covers(path) && left.is_empty())
}

#[test]
fn copies_are_followed(rt: HostRuntime) -> Result<(), Fail> {
    let alloc = rt.alloc();
    assert!(rt; follows(alloc, b"d/f", Way::ToCopies, b"e/f")?);
    assert!(rt; follows(alloc, b"e/f", Way::ToSources, b"d/f")?);
    Ok(())
}

#[test]
fn paths_or_no_memory(rt: HostRuntime) {
    let answer = follows(rt.alloc(), b"d", Way::ToCopies, b"e");
    assert!(rt; matches!(answer, Ok(true) | Err(Memory)));
}

/// Whether `excluded` is excluded and `left` is kept, if this prefix is included and `e` is a copy of `d`.
fn leaves(alloc: Global, prefix: &[u8], excluded: &[u8], left: &[u8]) -> Result<bool, Memory> {
    let dump = dump_with(alloc, COPY)?;
    let Some(index) = index_of(alloc, &dump)? else {
        return Ok(false);
    };
    let included = Excluded::of(alloc, &[prefix])?;
    let siblings = find_siblings(alloc, &index, &included)?;
    Ok(siblings.covers(excluded) && !siblings.covers(left))
}

#[test]
fn siblings_are_excluded(rt: HostRuntime) -> Result<(), Fail> {
    let alloc = rt.alloc();
    assert!(rt; leaves(alloc, b"d/f", b"e", b"d/f")?);
    assert!(rt; leaves(alloc, b"e/g", b"e/f", b"e")?);
    assert!(rt; leaves(alloc, b"e/g", b"d", b"")?);
    Ok(())
}

#[test]
fn siblings_or_no_memory(rt: HostRuntime) {
    let answer = leaves(rt.alloc(), b"e/g", b"e/f", b"e");
    assert!(rt; matches!(answer, Ok(true) | Err(Memory)));
}

/// Two nodes with mergeinfo. One path is in both, with slashes at its ends in the first, and a line has no colon.
const MERGED: &str = "SVN-fs-dump-format-version: 2\n\nRevision-number: 0\n\n\
Node-path: d\nProp-content-length: 48\nContent-length: 48\n\n\
K 13\nsvn:mergeinfo\nV 13\n//a/b/:1\n/c:2\nPROPS-END\n\n\n\
Node-path: d\nProp-content-length: 42\nContent-length: 42\n\n\
K 13\nsvn:mergeinfo\nV 8\n/a/b:3\nd\nPROPS-END\n\n";

/// Whether mergeinfo in `MERGED` names these paths.
fn names_paths(alloc: Global, paths: &[&[u8]]) -> Result<bool, Memory> {
    let found = merge_paths(alloc, MERGED.as_bytes())?;
    let mut wanted = paths.iter();
    for path in &found {
        if wanted.next() != Some(&path.as_slice()) {
            return Ok(false);
        }
    }
    Ok(wanted.next().is_none())
}

#[test]
fn paths_that_mergeinfo_names(rt: HostRuntime) -> Result<(), Fail> {
    assert!(rt; names_paths(rt.alloc(), &[b"a/b".as_slice(), b"c"])?);
    Ok(())
}

#[test]
fn named_paths_or_no_memory(rt: HostRuntime) {
    let answer = names_paths(rt.alloc(), &[b"a/b".as_slice(), b"c"]);
    assert!(rt; matches!(answer, Ok(true) | Err(Memory)));
}

#[test]
fn the_filter_excludes_the_paths(rt: HostRuntime) -> Result<(), Fail> {
    let excluded = Excluded::of(rt.alloc(), &[b"d/f".as_slice(), b"./e"])?;
    let options = excluded.filter_options(rt.alloc(), false)?;
    assert!(rt; !keeps(&options, b"d/f/g") && !keeps(&options, b"e") && keeps(&options, b"d"));
    assert!(rt; options.preserve() && options.skip_missing() && !options.renumber());
    let dropping = excluded.filter_options(rt.alloc(), true)?;
    assert!(rt; dropping.empty() == Empty::DropEmptied && dropping.renumber());
    Ok(())
}

/// Whether these deletes follow the copy of `d` to `e`, if this prefix is excluded.
fn deletes(alloc: Global, prefix: &[u8], nodes: &str) -> Result<bool, Memory> {
    let dump = dump_with(alloc, COPY)?;
    let Some(index) = index_of(alloc, &dump)? else {
        return Ok(false);
    };
    let excluded = Excluded::of(alloc, &[prefix])?;
    let Ok(deletes) = Deletes::find(alloc, &index, &excluded)? else {
        return Ok(false);
    };
    let Ok(piece) = deletes.write_behind(alloc, &dump) else {
        return Err(Memory);
    };
    let mut text = Vec::new(alloc);
    for chunk in piece.chunks() {
        text.extend_from_slice(chunk.bytes())?;
    }
    let wanted = dump_with(alloc, nodes)?;
    Ok(text.as_slice() == wanted.as_slice() && deletes.behind().len() == 3)
}

const DELETE: &str =
    "Node-path: e\nNode-action: add\nNode-copyfrom-rev: 1\nNode-copyfrom-path: d\n\n\
\nNode-path: e/f\nNode-action: delete\n";

#[test]
fn copies_are_followed_by_deletes(rt: HostRuntime) -> Result<(), Fail> {
    let alloc = rt.alloc();
    assert!(rt; deletes(alloc, b"e/f", DELETE)?);
    assert!(rt; deletes(alloc, b"e/g", COPY)?);
    Ok(())
}

#[test]
fn deletes_or_no_memory(rt: HostRuntime) {
    let answer = deletes(rt.alloc(), b"e/f", DELETE);
    assert!(rt; matches!(answer, Ok(true) | Err(Memory)));
}

/// Whether exactly revision 2, which copies `d` to `e`, is dropped if this prefix is excluded.
fn drops(alloc: Global, prefix: &[u8]) -> Result<bool, Memory> {
    let dump = dump_with(alloc, COPY)?;
    let excluded = Excluded::of(alloc, &[prefix])?;
    let options = excluded.filter_options(alloc, true)?;
    let fates = revision_fates(alloc, &dump, &options)?;
    match fates.as_slice() {
        [_, first, second] => Ok(first.stays && second.number == 2 && !second.stays),
        _ => Ok(false),
    }
}

#[test]
fn a_revision_without_its_nodes_is_dropped(rt: HostRuntime) -> Result<(), Fail> {
    assert!(rt; drops(rt.alloc(), b"e")?);
    assert!(rt; !drops(rt.alloc(), b"e/f")?);
    Ok(())
}

#[test]
fn fates_or_no_memory(rt: HostRuntime) {
    let answer = drops(rt.alloc(), b"e");
    assert!(rt; matches!(answer, Ok(true) | Err(Memory)));
}

/// Whether the part of a dump after a revision has these two slices.
fn is_part(dump: &[u8], number: u64, head: &str, revisions: &str) -> bool {
    let part = later_part(dump, number);
    part.head == head.as_bytes() && part.revisions == revisions.as_bytes()
}

#[test]
fn parts_of_a_dump(rt: HostRuntime) {
    let dump = HEAD.as_bytes();
    let head = "SVN-fs-dump-format-version: 3\n\n";
    assert!(rt;
        first_part(dump, 0) == b"SVN-fs-dump-format-version: 3\n\nRevision-number: 0\n\n".as_slice()
    );
    assert!(rt; first_part(dump, 2) == dump);
    assert!(rt; is_part(dump, 1, head, "Revision-number: 2\n\n"));
    assert!(rt; is_part(dump, 2, head, ""));
    assert!(rt; is_part(head.as_bytes(), 0, head, ""));
    assert!(rt; no_part_after(dump, 2).is_none());
    assert!(rt; no_part_after(dump, 3) == Some(NoPart::NoRevision));
    assert!(rt; no_part_after(head.as_bytes(), 0) == Some(NoPart::NotNumbered));
}

/// A change of `d` that sets mergeinfo of `g`.
const MERGE: &str =
    "Node-path: d\nNode-action: change\nProp-content-length: 38\nContent-length: 38\n\n\
K 13\nsvn:mergeinfo\nV 4\n/g:1\nPROPS-END\n";

/// Whether the cuts that exclude these two prefixes, of a dump with this node, differ at these paths.
fn differ(
    alloc: Global,
    node: &str,
    prefixes: (&[u8], &[u8]),
    paths: &[&[u8]],
) -> Result<bool, Memory> {
    let dump = dump_with(alloc, node)?;
    let Some(index) = index_of(alloc, &dump)? else {
        return Ok(false);
    };
    let one = Excluded::of(alloc, &[prefixes.0])?;
    let other = Excluded::of(alloc, &[prefixes.1])?;
    let found = cut_differences(alloc, &dump, &index, &one, &other)?;
    Ok(
        found.len() == paths.len()
            && found
                .iter()
                .zip(paths)
                .all(|(path, wanted)| path.as_slice() == *wanted),
    )
}

#[test]
fn cuts_differ_at_what_exists_or_is_named(rt: HostRuntime) -> Result<(), Fail> {
    let alloc = rt.alloc();
    assert!(rt; differ(alloc, COPY, (b"e/f", b"d/f"), &[b"e/f".as_slice(), b"d/f"])?);
    assert!(rt; differ(alloc, COPY, (b"d/f", b"d"), &[b"d".as_slice()])?);
    assert!(rt; differ(alloc, COPY, (b"g", b"h"), &[])?);
    assert!(rt; differ(alloc, MERGE, (b"g", b"h"), &[b"g".as_slice()])?);
    Ok(())
}

#[test]
fn differences_or_no_memory(rt: HostRuntime) {
    let answer = differ(rt.alloc(), MERGE, (b"g", b"d"), &[b"d".as_slice(), b"g"]);
    assert!(rt; matches!(answer, Ok(true) | Err(Memory)));
}
