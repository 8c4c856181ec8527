//! What no contract says: worked dumps, and allocations that fail.
use dump_changes::{
    End, Memory, NodeProperty, NodeText, PropertyTable, Reading, TextTable, copies_from_gap,
    properties_at, read_changes, with_loaded_source,
};
use dump_index::{
    ChangeIndex, NodeChange, NodeKind, NodeMade, Setting, Source, ends_in_slash, first_out_of_order,
};
use dump_text::FaultKind;
use std::alloc::Global;
use std::process::Abort;
use std::test::Fail;

/// Revision 1 has trunk with a file; revision 2 has a copy of it and deletes the file in the copy.
const BRANCHED: &[u8] = b"SVN-fs-dump-format-version: 2\n\n\
Revision-number: 0\n\n\
Revision-number: 1\n\n\
Node-path: /trunk\nNode-kind: dir\nNode-action: add\n\n\n\
Node-path: trunk/f\nNode-kind: file\nNode-action: add\nText-content-length: 2\nContent-length: 2\n\nx\n\n\n\
Revision-number: 2\n\n\
Node-path: b\nNode-kind: dir\nNode-action: add\nNode-copyfrom-rev: 1\nNode-copyfrom-path: trunk\n\n\n\
Node-path: b/f\nNode-action: delete\n\n\n";

fn change<'a>(
    path: &'a [u8],
    made: Option<NodeMade<'a>>,
    revision: u64,
    record_number: u64,
) -> NodeChange<'a> {
    NodeChange {
        path,
        deletes: false,
        made,
        props: Setting::Keeps,
        text: Setting::Keeps,
        revision,
        record_number,
    }
}

fn branched() -> [NodeChange<'static>; 4] {
    let trunk = Source {
        revision: 1,
        path: b"trunk",
    };
    [
        change(b"trunk", Some(NodeMade::Directory), 1, 3),
        NodeChange {
            text: Setting::Replaces,
            ..change(b"trunk/f", Some(NodeMade::File), 1, 4)
        },
        change(b"b", Some(NodeMade::CopyOf(trunk)), 2, 6),
        NodeChange {
            deletes: true,
            ..change(b"b/f", None, 2, 7)
        },
    ]
}

fn reads(reading: &Reading<'_>, changes: &[NodeChange<'_>]) -> bool {
    reading.end == End::Whole && reading.numbered && reading.changes.as_slice() == changes
}

#[test]
fn changes_are_read(rt: HostRuntime) -> Result<(), Fail> {
    let reading = read_changes(rt.alloc(), BRANCHED)?;
    assert!(rt; reads(&reading, &branched()));
    Ok(())
}

fn assert_indexed(
    rt: &impl Abort,
    alloc: Global,
    changes: Vec<NodeChange<'_>>,
) -> Result<(), Memory> {
    if first_out_of_order(&changes).is_some() {
        assert!(rt; false, "the changes are in order");
        return Ok(());
    }
    let index = ChangeIndex::new(alloc, changes)?;
    let wanted: &[&[u8]] = &[b"f"];
    let names = index.children(alloc, b"trunk", 4)?;
    assert!(rt; names.as_slice() == wanted);
    let names = index.children(alloc, b"b", 4)?;
    assert!(rt; names.is_empty());
    let kind = index.kind_at(alloc, b"b", 4)?;
    assert!(rt; kind == Some(NodeKind::Directory));
    Ok(())
}

#[test]
fn a_dump_is_indexed(rt: HostRuntime) -> Result<(), Fail> {
    let alloc = rt.alloc();
    let reading = read_changes(alloc, BRANCHED)?;
    assert_indexed(&rt, alloc, reading.changes)?;
    Ok(())
}

const NO_ACTION: &[u8] = b"SVN-fs-dump-format-version: 2\n\n\
Revision-number: 0\n\n\
Revision-number: 1\n\n\
Node-path: a\nNode-kind: dir\n\n\n";

const LEFT_OUT: &[u8] = b"SVN-fs-dump-format-version: 2\n\n\
Revision-number: 0\n\n\
Revision-number: 2\n\n";

const IN_FIRST: &[u8] = b"SVN-fs-dump-format-version: 2\n\n\
Revision-number: 0\n\n\
Node-path: a\nNode-kind: dir\nNode-action: add\n\n\n";

const FALLEN: &[u8] = b"SVN-fs-dump-format-version: 2\n\n\
Revision-number: 0\n\n\
Revision-number: 2\n\n\
Revision-number: 2\n\n";

/// How the reading of a dump ends.
fn end_of(alloc: Global, dump: &[u8]) -> Result<End, Memory> {
    let reading = read_changes(alloc, dump)?;
    Ok(reading.end)
}

#[test]
fn what_makes_no_change_is_told(rt: HostRuntime) -> Result<(), Fail> {
    let alloc = rt.alloc();
    assert!(rt; end_of(alloc, NO_ACTION)? == End::NoChange(3));
    assert!(rt; end_of(alloc, LEFT_OUT)? == End::Whole);
    assert!(rt; end_of(alloc, FALLEN)? == End::OutOfOrder(3));
    assert!(rt; end_of(alloc, IN_FIRST)? == End::OutOfOrder(2));
    assert!(rt; end_of(alloc, BRANCHED)? == End::Whole);
    Ok(())
}

#[test]
fn other_ends_are_told(rt: HostRuntime) -> Result<(), Fail> {
    let none = read_changes(rt.alloc(), b"SVN-fs-dump-format-version: 2\n\n")?;
    assert!(rt; none.changes.is_empty() && none.end == End::Whole);
    let broken = read_changes(rt.alloc(), b"SVN-fs-dump-format-version: 2\n\nx")?;
    let place = End::Broken {
        kind: FaultKind::HeaderCut,
        place: 31,
    };
    assert!(rt; broken.end == place);
    Ok(())
}

/// The number of the revision from which a load takes a copy, if revision 9 copies from this one.
fn taken(numbers: &[u64], number: u64) -> Option<u64> {
    let source = Source {
        revision: number,
        path: b"trunk",
    };
    let copy = change(b"b", Some(NodeMade::CopyOf(source)), 9, 20);
    match with_loaded_source(numbers, &copy)?.made {
        Some(NodeMade::CopyOf(source)) => Some(source.revision),
        _ => None,
    }
}

/// Checked against `svnadmin load` of Subversion 1.14: it loads 2, 5, 6 and 9 as revisions 2 to 5.
#[test]
fn sources_are_those_that_a_load_takes(rt: HostRuntime) {
    let gaps: &[u64] = &[0, 1, 2, 5, 6, 9];
    assert!(rt; taken(gaps, 5) == Some(5));
    assert!(rt; taken(gaps, 3) == Some(2));
    assert!(rt; taken(gaps, 4) == Some(2));
    assert!(rt; taken(gaps, 8) == Some(6));
    assert!(rt; taken(gaps, 7) == Some(5));
    assert!(rt; taken(gaps, 9) == None);
    let later: &[u64] = &[7, 8, 9];
    assert!(rt; taken(later, 8) == Some(8));
    assert!(rt; taken(later, 6) == Some(0));
    assert!(rt; taken(later, 5) == None);
}

fn has_numbers(reading: &Reading<'_>, numbers: &[u64]) -> bool {
    reading.numbers.as_slice() == numbers
}

#[test]
fn numbers_are_read(rt: HostRuntime) -> Result<(), Fail> {
    let reading = read_changes(rt.alloc(), LEFT_OUT)?;
    assert!(rt; has_numbers(&reading, &[0, 2]));
    assert!(rt; !reading.numbered);
    Ok(())
}

#[test]
fn copies_from_a_gap_are_found(rt: HostRuntime) {
    let changes = branched();
    assert!(rt; !copies_from_gap(&[0, 1, 2], &changes[2]));
    assert!(rt; copies_from_gap(&[0, 2], &changes[2]));
    assert!(rt; !copies_from_gap(&[0, 2], &changes[3]));
}

/// Run with each allocation failing in turn: the call returns the changes, or the error for memory.
#[test]
fn changes_or_no_memory(rt: HostRuntime) {
    let answered = match read_changes(rt.alloc(), BRANCHED) {
        Ok(reading) => reads(&reading, &branched()),
        Err(refused) => refused == Memory,
    };
    assert!(rt; answered);
}

/// In r1 trunk has a and b. In r2 it loses a and gets another b, and in r4 it has c alone. In r3 a copy of trunk in r1
/// has another a.
const SET: &[u8] = b"SVN-fs-dump-format-version: 3\n\n\
Revision-number: 0\n\n\
Revision-number: 1\n\n\
Node-path: trunk\nNode-kind: dir\nNode-action: add\nProp-content-length: 34\nContent-length: 34\n\n\
K 1\na\nV 1\n1\nK 1\nb\nV 1\n2\nPROPS-END\n\n\n\
Revision-number: 2\n\n\
Node-path: trunk\nNode-kind: dir\nNode-action: change\nProp-delta: true\nProp-content-length: 28\nContent-length: 28\n\n\
K 1\nb\nV 1\n3\nD 1\na\nPROPS-END\n\n\n\
Revision-number: 3\n\n\
Node-path: copy\nNode-kind: dir\nNode-action: add\nNode-copyfrom-rev: 1\nNode-copyfrom-path: trunk\n\
Prop-delta: true\nProp-content-length: 22\nContent-length: 22\n\n\
K 1\na\nV 1\n5\nPROPS-END\n\n\n\
Revision-number: 4\n\n\
Node-path: trunk\nNode-kind: dir\nNode-action: change\nProp-content-length: 22\nContent-length: 22\n\n\
K 1\nc\nV 1\n4\nPROPS-END\n\n\n";

#[test]
fn blocks_are_found(rt: HostRuntime) -> Result<(), Fail> {
    let table = PropertyTable::of(rt.alloc(), SET)?;
    let none = b"".as_slice();
    let set = b"K 1\na\nV 1\n5\nPROPS-END\n".as_slice();
    assert!(rt; table.block(0) == Some(none));
    assert!(rt; table.block(7) == Some(set));
    assert!(rt; table.block(10) == None);
    Ok(())
}

fn property<'a>(name: &'a [u8], value: &'a [u8]) -> NodeProperty<'a> {
    NodeProperty { name, value }
}

fn found<'a>(
    alloc: Global,
    dump: &'a [u8],
    path: &[u8],
    count: usize,
) -> Result<Vec<NodeProperty<'a>>, Memory> {
    let table = PropertyTable::of(alloc, dump)?;
    let reading = read_changes(alloc, dump)?;
    if ends_in_slash(path) || first_out_of_order(&reading.changes).is_some() {
        return Ok(Vec::new(alloc));
    }
    let index = ChangeIndex::new(alloc, reading.changes)?;
    properties_at(alloc, &table, &index, path, count)
}

fn are_found(alloc: Global, path: &[u8], count: usize, wanted: &[NodeProperty<'_>]) -> bool {
    match found(alloc, SET, path, count) {
        Ok(props) => props.as_slice() == wanted,
        Err(_) => false,
    }
}

#[test]
fn properties_of_the_past_are_found(rt: HostRuntime) {
    let alloc = rt.alloc();
    let first = [property(b"a", b"1"), property(b"b", b"2")];
    assert!(rt; are_found(alloc, b"trunk", 1, &first));
    assert!(rt; are_found(alloc, b"trunk", 3, &[property(b"b", b"3")]));
    let copied = [property(b"b", b"2"), property(b"a", b"5")];
    assert!(rt; are_found(alloc, b"copy", 4, &copied));
    assert!(rt; are_found(alloc, b"trunk", 4, &[property(b"c", b"4")]));
}

/// Run with each allocation failing in turn: the call returns the properties, or the error for memory.
#[test]
fn properties_or_no_memory(rt: HostRuntime) {
    let wanted: &[NodeProperty<'_>] = &[property(b"b", b"3")];
    let answered = match found(rt.alloc(), SET, b"trunk", 2) {
        Ok(props) => props.as_slice() == wanted,
        Err(refused) => refused == Memory,
    };
    assert!(rt; answered);
}

/// f gets a text in r1, and another one with its digests in r2. g has no text.
const TEXTS: &[u8] = b"SVN-fs-dump-format-version: 3\n\n\
Revision-number: 0\n\n\
Revision-number: 1\n\n\
Node-path: f\nNode-kind: file\nNode-action: add\nText-content-length: 2\nContent-length: 2\n\nx\n\n\n\
Node-path: g\nNode-kind: file\nNode-action: add\n\n\n\
Revision-number: 2\n\n\
Node-path: f\nNode-kind: file\nNode-action: change\nText-content-length: 6\n\
Text-content-md5: b1946ac92492d2347c6235b4d2611184\n\
Text-content-sha1: f572d396fae9206628714fb2ce00f72e94f2258f\nContent-length: 6\n\nhello\n\n\n";

const HELLO: NodeText<'static> = NodeText {
    text: b"hello\n",
    md5: Some(b"b1946ac92492d2347c6235b4d2611184"),
    sha1: Some(b"f572d396fae9206628714fb2ce00f72e94f2258f"),
};

fn text(bytes: &[u8]) -> NodeText<'_> {
    NodeText {
        text: bytes,
        md5: None,
        sha1: None,
    }
}

#[test]
fn texts_are_found(rt: HostRuntime) -> Result<(), Fail> {
    let table = TextTable::of(rt.alloc(), TEXTS)?;
    assert!(rt; table.text(3) == Some(text(b"x\n")));
    assert!(rt; table.text(6) == Some(HELLO));
    assert!(rt; table.text(4) == Some(text(b"")));
    assert!(rt; table.text(7) == None);
    Ok(())
}
