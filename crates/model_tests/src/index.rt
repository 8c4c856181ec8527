//! Tests of what no contract says: an example history with a question at each path, and allocations that fail.
use dump_index::{
    ChangeIndex, Memory, NodeChange, NodeKind, NodeMade, Part, Setting, Source, ends_in_slash,
    first_out_of_order,
};
use std::alloc::Global;
use std::process::Abort;
use std::test::Fail;

const DIRECTORY: Option<NodeMade<'static>> = Some(NodeMade::Directory);

const FILE: Option<NodeMade<'static>> = Some(NodeMade::File);

fn change<'a>(revision: u64, path: &'a [u8], made: Option<NodeMade<'a>>) -> NodeChange<'a> {
    NodeChange {
        path,
        deletes: false,
        made,
        props: Setting::Keeps,
        text: Setting::Keeps,
        revision,
        record_number: 0,
    }
}

fn copy<'a>(revision: u64, path: &'a [u8], source: Source<'a>) -> NodeChange<'a> {
    change(revision, path, Some(NodeMade::CopyOf(source)))
}

fn with_text<'a>(change: NodeChange<'a>, text: Setting) -> NodeChange<'a> {
    NodeChange { text, ..change }
}

fn deleted<'a>(revision: u64, path: &'a [u8]) -> NodeChange<'a> {
    let change = change(revision, path, None);
    NodeChange {
        deletes: true,
        ..change
    }
}

/// Revision 1 has `trunk` with a file, and revision 2 a branch of it. Then the file is edited in both, and revision 5
/// deletes the one in `trunk`.
fn history(alloc: Global) -> Result<Vec<NodeChange<'static>>, Memory> {
    let trunk = Source {
        revision: 1,
        path: b"trunk",
    };
    let mut changes = Vec::new(alloc);
    changes.push(change(1, b"trunk", DIRECTORY))?;
    changes.push(with_text(change(1, b"trunk/a", FILE), Setting::Replaces))?;
    changes.push(copy(2, b"b", trunk))?;
    changes.push(with_text(change(3, b"trunk/a", None), Setting::Edits))?;
    changes.push(with_text(change(4, b"b/a", None), Setting::Edits))?;
    changes.push(deleted(5, b"trunk/a"))?;
    Ok(changes)
}

fn kind_is(
    alloc: Global,
    index: &ChangeIndex<'_>,
    path: &[u8],
    count: usize,
    kind: Option<NodeKind>,
) -> bool {
    if ends_in_slash(path) {
        return false;
    }
    match index.kind_at(alloc, path, count) {
        Ok(found) => found == kind,
        Err(_) => false,
    }
}

fn texts_are(
    alloc: Global,
    index: &ChangeIndex<'_>,
    path: &[u8],
    count: usize,
    places: &[usize],
) -> bool {
    if ends_in_slash(path) {
        return false;
    }
    match index.settings_at(alloc, Part::Text, path, count) {
        Ok(found) => found.as_slice() == places,
        Err(_) => false,
    }
}

fn names_are(
    alloc: Global,
    index: &ChangeIndex<'_>,
    path: &[u8],
    count: usize,
    names: &[&[u8]],
) -> bool {
    if ends_in_slash(path) {
        return false;
    }
    match index.children(alloc, path, count) {
        Ok(found) => found.as_slice() == names,
        Err(_) => false,
    }
}

fn ever_are(alloc: Global, index: &ChangeIndex<'_>, path: &[u8], names: &[&[u8]]) -> bool {
    if ends_in_slash(path) {
        return false;
    }
    match index.names_ever(alloc, path) {
        Ok(found) => found.as_slice() == names,
        Err(_) => false,
    }
}

fn exists_is(alloc: Global, index: &ChangeIndex<'_>, path: &[u8], expected: bool) -> bool {
    if ends_in_slash(path) {
        return false;
    }
    match index.exists_ever(alloc, path) {
        Ok(found) => found == expected,
        Err(_) => false,
    }
}

fn assert_found(rt: &impl Abort, alloc: Global, index: &ChangeIndex<'_>) {
    assert!(rt; kind_is(alloc, index, b"", 0, Some(NodeKind::Directory)));
    assert!(rt; kind_is(alloc, index, b"trunk", 0, None));
    assert!(rt; kind_is(alloc, index, b"trunk/a", 5, Some(NodeKind::File)));
    assert!(rt; kind_is(alloc, index, b"trunk/a", 6, None));
    assert!(rt; kind_is(alloc, index, b"b", 6, Some(NodeKind::Directory)));
    assert!(rt; kind_is(alloc, index, b"b/a", 6, Some(NodeKind::File)));
    assert!(rt; kind_is(alloc, index, b"b/a/c", 6, None));
    assert!(rt; texts_are(alloc, index, b"trunk/a", 4, &[1, 3]));
    assert!(rt; texts_are(alloc, index, b"b/a", 3, &[1]));
    assert!(rt; texts_are(alloc, index, b"b/a", 6, &[1, 4]));
    assert!(rt; index.latest_touching(b"b/a", 4) == Some(2));
    assert!(rt; index.latest_touching(b"b/a", 2) == None);
    assert!(rt; index.latest_touching(b"trunk/a", 6) == Some(5));
}

#[test]
fn history_is_found(rt: HostRuntime) -> Result<(), Fail> {
    let alloc = rt.alloc();
    let changes = history(alloc)?;
    if first_out_of_order(&changes).is_none() {
        let index = ChangeIndex::new(alloc, changes)?;
        assert_found(&rt, alloc, &index);
        return Ok(());
    }
    assert!(rt; false, "the changes are in order");
    Ok(())
}

/// Revision 1 has `d` with a directory and two files, and revision 2 a copy of `d`. Revision 3 deletes the directory
/// in the copy and makes a file there.
fn nested(alloc: Global) -> Result<Vec<NodeChange<'static>>, Memory> {
    let source = Source {
        revision: 1,
        path: b"d",
    };
    let mut changes = Vec::new(alloc);
    changes.push(change(1, b"d", DIRECTORY))?;
    changes.push(change(1, b"d/s", DIRECTORY))?;
    changes.push(change(1, b"d/s/x", FILE))?;
    changes.push(change(1, b"d/s/y", FILE))?;
    changes.push(change(1, b"d/s.txt", FILE))?;
    changes.push(change(1, b"d/t", FILE))?;
    changes.push(copy(2, b"e", source))?;
    changes.push(deleted(3, b"e/s"))?;
    changes.push(change(3, b"e/u", FILE))?;
    Ok(changes)
}

fn assert_listed(rt: &impl Abort, alloc: Global, index: &ChangeIndex<'_>) {
    assert!(rt; names_are(alloc, index, b"", 9, &[b"d", b"e"]));
    assert!(rt; names_are(alloc, index, b"", 0, &[]));
    assert!(rt; names_are(alloc, index, b"d", 9, &[b"s", b"s.txt", b"t"]));
    assert!(rt; names_are(alloc, index, b"d", 3, &[b"s"]));
    assert!(rt; names_are(alloc, index, b"d/s", 9, &[b"x", b"y"]));
    assert!(rt; names_are(alloc, index, b"e", 7, &[b"s", b"s.txt", b"t"]));
    assert!(rt; names_are(alloc, index, b"e/s", 7, &[b"x", b"y"]));
    assert!(rt; names_are(alloc, index, b"e", 9, &[b"s.txt", b"t", b"u"]));
    assert!(rt; names_are(alloc, index, b"e/s", 9, &[]));
    assert!(rt; names_are(alloc, index, b"d/t", 9, &[]));
    assert!(rt; ever_are(alloc, index, b"", &[b"d", b"e"]));
    assert!(rt; ever_are(alloc, index, b"e", &[b"s", b"s.txt", b"t", b"u"]));
    assert!(rt; ever_are(alloc, index, b"e/s", &[b"x", b"y"]));
}

#[test]
fn directories_are_listed(rt: HostRuntime) -> Result<(), Fail> {
    let alloc = rt.alloc();
    let changes = nested(alloc)?;
    if first_out_of_order(&changes).is_none() {
        let index = ChangeIndex::new(alloc, changes)?;
        assert_listed(&rt, alloc, &index);
        return Ok(());
    }
    assert!(rt; false, "the changes are in order");
    Ok(())
}

/// Whether, after all changes, this kind exists at the path of the first change, if what that change leaves there is
/// known. The first change is a copy.
fn first_leaves(alloc: Global, index: &ChangeIndex<'_>, kind: NodeKind) -> Result<bool, Memory> {
    let Some(first) = index.get(0) else {
        return Ok(false);
    };
    let Some(NodeMade::CopyOf(source)) = first.made else {
        return Ok(false);
    };
    if source.revision >= first.revision {
        return Ok(false);
    }
    if ends_in_slash(first.path) || ends_in_slash(source.path) {
        return Ok(false);
    }
    let here = index.kind_at(alloc, first.path, 0)?;
    let there = index.kind_at(alloc, source.path, index.end_of(source.revision))?;
    let known = [index.kind_behind(0, here, there)];
    let found = index.kind_known(alloc, first.path, index.len(), &known)?;
    Ok(found == Some(kind))
}

/// The history has a copy of the root and a file in it.
#[test]
fn what_is_known_is_found(rt: HostRuntime) -> Result<(), Fail> {
    let alloc = rt.alloc();
    let root = Source {
        revision: 0,
        path: b"",
    };
    let mut changes = Vec::new(alloc);
    changes.push(copy(1, b"b", root))?;
    changes.push(change(1, b"b/a", FILE))?;
    if first_out_of_order(&changes).is_none() {
        let index = ChangeIndex::new(alloc, changes)?;
        let leaves = first_leaves(alloc, &index, NodeKind::Directory)?;
        assert!(rt; leaves);
        return Ok(());
    }
    assert!(rt; false, "the changes are in order");
    Ok(())
}

/// Revision 1 has a directory with two files. Revision 2 copies the directory and deletes a file of the copy. Revision
/// 3 deletes a file of the first directory.
fn copied_and_deleted(alloc: Global) -> Result<Vec<NodeChange<'static>>, Memory> {
    let source = Source {
        revision: 1,
        path: b"d",
    };
    let mut changes = Vec::new(alloc);
    changes.push(change(1, b"d", DIRECTORY))?;
    changes.push(change(1, b"d/x", FILE))?;
    changes.push(change(1, b"d/y", FILE))?;
    changes.push(copy(2, b"e", source))?;
    changes.push(deleted(2, b"e/x"))?;
    changes.push(deleted(3, b"d/y"))?;
    Ok(changes)
}

fn assert_existing(rt: &impl Abort, alloc: Global, index: &ChangeIndex<'_>) {
    assert!(rt; exists_is(alloc, index, b"", true));
    // it exists at the end
    assert!(rt; exists_is(alloc, index, b"d/x", true));
    assert!(rt; exists_is(alloc, index, b"e/y", true));
    // a later revision deletes it
    assert!(rt; exists_is(alloc, index, b"d/y", true));
    // one revision copies and deletes it
    assert!(rt; exists_is(alloc, index, b"e/x", true));
    // it exists at no time
    assert!(rt; exists_is(alloc, index, b"e/z", false));
    assert!(rt; exists_is(alloc, index, b"d/x/z", false));
    assert!(rt; exists_is(alloc, index, b"f", false));
}

#[test]
fn what_ever_exists_is_found(rt: HostRuntime) -> Result<(), Fail> {
    let alloc = rt.alloc();
    let changes = copied_and_deleted(alloc)?;
    if first_out_of_order(&changes).is_none() {
        let index = ChangeIndex::new(alloc, changes)?;
        assert_existing(&rt, alloc, &index);
        let first = index.up_to(alloc, 1)?;
        assert!(rt; first.len() == 3);
        assert!(rt; exists_is(alloc, &first, b"d/y", true));
        assert!(rt; exists_is(alloc, &first, b"e/x", false));
        return Ok(());
    }
    assert!(rt; false, "the changes are in order");
    Ok(())
}

fn finds_ever_or_lacks_memory(alloc: Global, index: &ChangeIndex<'_>) -> bool {
    let names: &[&[u8]] = &[b"s", b"s.txt", b"t", b"u"];
    match index.names_ever(alloc, b"e") {
        Ok(found) => found.as_slice() == names,
        Err(refused) => refused == Memory,
    }
}

fn lists_or_lacks_memory(alloc: Global, index: &ChangeIndex<'_>) -> bool {
    let names: &[&[u8]] = &[b"s.txt", b"t", b"u"];
    match index.children(alloc, b"e", 9) {
        Ok(found) => found.as_slice() == names,
        Err(refused) => refused == Memory,
    }
}

fn exists_or_lacks_memory(alloc: Global, index: &ChangeIndex<'_>) -> bool {
    // it exists in the copy, until it is deleted there
    match index.exists_ever(alloc, b"e/s") {
        Ok(found) => found,
        Err(refused) => refused == Memory,
    }
}

fn has_first_or_lacks_memory(alloc: Global, index: &ChangeIndex<'_>) -> bool {
    match index.up_to(alloc, 1) {
        Ok(first) => first.len() < index.len(),
        Err(refused) => refused == Memory,
    }
}

/// The test runner repeats this with each allocation failing in turn. The directory is listed, or memory ran out.
#[test]
fn a_directory_or_no_memory(rt: HostRuntime) {
    let alloc = rt.alloc();
    let Ok(changes) = nested(alloc) else {
        return;
    };
    if first_out_of_order(&changes).is_some() {
        return;
    }
    let Ok(index) = ChangeIndex::new(alloc, changes) else {
        return;
    };
    assert!(rt; lists_or_lacks_memory(alloc, &index));
    assert!(rt; finds_ever_or_lacks_memory(alloc, &index));
    assert!(rt; exists_or_lacks_memory(alloc, &index));
    assert!(rt; has_first_or_lacks_memory(alloc, &index));
}

#[test]
fn copies_of_later_revisions_are_out_of_order(rt: HostRuntime) {
    let own = Source {
        revision: 2,
        path: b"trunk",
    };
    let slash = Source {
        revision: 1,
        path: b"trunk/",
    };
    assert!(rt; first_out_of_order(&[copy(2, b"b", own)]) == Some(0));
    assert!(rt; first_out_of_order(&[copy(2, b"b", slash)]) == Some(0));
    assert!(rt; first_out_of_order(&[deleted(2, b"b"), deleted(1, b"b")]) == Some(1));
    assert!(rt; first_out_of_order(&[change(2, b"b/", DIRECTORY)]) == Some(0));
    assert!(rt; first_out_of_order(&[deleted(2, b"b"), copy(3, b"b", own)]).is_none());
}
