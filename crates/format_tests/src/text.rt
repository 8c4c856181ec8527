//! What no contract says: worked examples, and one call of each function.
use dump_text::laws::{blocks_are_read_as_written, properties_are_read_as_written};
use dump_text::{
    Block, FaultKind, HeaderName, Headers, Props, find, is_shortest, number, push_block_end,
    push_deletion, push_header, push_property, spell,
};
use std::alloc::{AllocError, Global};
use std::test::Fail;

const VERSION: &[u8] = b"SVN-fs-dump-format-version: 2\n\n";

const UUID: &[u8] = b"UUID: 7bf7a5ef-cabf-0310-b7d4-93df341afa7e\n\n";

#[test]
fn one_to_eighteen_digits_are_a_number(rt: HostRuntime) {
    let rows = [
        (b"0".as_slice(), Some(0)),
        (b"007", Some(7)),
        (b"999999999999999999", Some(999_999_999_999_999_999)),
        (b"", None),
        (b"+1", None),
        (b"1234567890123456789", None),
    ];
    for (text, value) in rows {
        assert!(rt; number(text) == value, "{text:?}");
    }
}

#[test]
fn numbers_are_spelled_without_leading_zeros(rt: HostRuntime) {
    let rows = [(0, b"0".as_slice()), (u64::MAX, b"18446744073709551615")];
    for (value, text) in rows {
        assert!(rt; spell(value).bytes() == text, "{value}");
    }
}

#[test]
fn a_leading_zero_is_no_shortest_spelling(rt: HostRuntime) {
    let rows = [(b"0".as_slice(), true), (b"70", true), (b"07", false)];
    for (text, shortest) in rows {
        assert!(rt; is_shortest(text) == shortest);
    }
}

#[test]
fn a_block_is_cut_where_it_stands(rt: HostRuntime) -> Result<(), Fail> {
    let version = Block::cut(VERSION, 0)?;
    assert_eq!(rt; version.dump(), VERSION);
    assert_eq!(rt; (version.place(), version.after()), (0, 31));

    let uuid = Block::cut(UUID, 0)?;
    assert_eq!(rt; uuid.after(), 44);
    let value = b"7bf7a5ef-cabf-0310-b7d4-93df341afa7e".as_slice();
    assert_eq!(rt; uuid.get(b"UUID"), Some(value));
    assert_eq!(rt; uuid.get(b"uuid"), None);
    Ok(())
}

/// The name, the value and the whole text of a line.
type LineRow<'a> = (&'a [u8], &'a [u8], &'a [u8]);

/// Whether these are the lines of a block.
fn are_lines(block: &Block<'_>, rows: [LineRow<'_>; 3]) -> bool {
    let mut lines = block.lines();
    for (name, value, whole) in rows {
        match lines.next() {
            Some(line) if line.name == name && line.value == value && line.whole == whole => {}
            _ => return false,
        }
    }
    lines.next().is_none()
}

#[test]
fn lines_are_given_in_their_order(rt: HostRuntime) -> Result<(), Fail> {
    let text = b"behind\nNote: a: b\nUUID: \nNote:  c\n\nbehind: it\n\n";
    let block = Block::cut(text, 7)?;
    assert!(rt; block.place() == 7 && block.after() == 35);
    let first = Some(b"a: b".as_slice());
    assert!(rt; block.get(b"Note") == first, "the first of two");
    let rows = [
        (
            b"Note".as_slice(),
            b"a: b".as_slice(),
            b"Note: a: b".as_slice(),
        ),
        (b"UUID", b"", b"UUID: "),
        (b"Note", b" c", b"Note:  c"),
    ];
    assert!(rt; are_lines(&block, rows));
    Ok(())
}

/// Whether a known name has this value, whichever function is called to look it up.
fn has_value(headers: &Headers<'_>, name: HeaderName, value: Option<&[u8]>) -> bool {
    headers.value(name) == value
        && headers.has(name) == value.is_some()
        && headers.block().get(name.bytes()) == value
}

/// Whether the place of a known name gives this value, or there is no place if there is no value.
fn is_placed(headers: &Headers<'_>, name: HeaderName, value: Option<&[u8]>) -> bool {
    let place = headers.place_of(name);
    place.is_there() == value.is_some() && headers.block().value_at(place) == value
}

#[test]
fn values_of_known_names_are_found(rt: HostRuntime) -> Result<(), Fail> {
    let text = b"Node-path: a: b\nNote: c\nNode-kind: \nProp-delta: true\n\nbehind: it\n\n";
    let headers = Headers::read(text, 0)?;
    assert!(rt; headers.block().after() == 54);
    let rows = [
        (HeaderName::NodePath, Some(b"a: b".as_slice())),
        (HeaderName::NodeKind, Some(b"")),
        (HeaderName::PropDelta, Some(b"true")),
        (HeaderName::TextDelta, None),
        (HeaderName::NodeAction, None),
    ];
    for (name, value) in rows {
        assert!(rt; has_value(&headers, name, value), "{name:?}");
    }
    Ok(())
}

#[test]
fn values_stand_at_their_places(rt: HostRuntime) -> Result<(), Fail> {
    let headers = Headers::read(b"Node-path: a: b\nNode-kind: \n\n", 0)?;
    let path = Some(b"a: b".as_slice());
    let are_placed = is_placed(&headers, HeaderName::NodePath, path)
        && is_placed(&headers, HeaderName::NodeKind, Some(b""))
        && is_placed(&headers, HeaderName::TextDelta, None);
    assert!(rt; are_placed);
    Ok(())
}

#[test]
fn no_block_is_cut_short_or_malformed(rt: HostRuntime) {
    let rows = [
        (VERSION, 31, FaultKind::HeaderCut),
        (VERSION, 32, FaultKind::HeaderCut),
        (b"", 0, FaultKind::HeaderCut),
        (b"\n\n", 0, FaultKind::Header),
        (b"Node-path: a\nNode-path: b\n\n", 0, FaultKind::Header),
        (
            b"Node-path: a\nNote: b\nNode-path: \n\n",
            0,
            FaultKind::Header,
        ),
        (b"Node-path:a\n\n", 0, FaultKind::Header),
        (b"Node-path\n\n", 0, FaultKind::Header),
        (b"Node-path\n", 0, FaultKind::HeaderCut),
    ];
    for (dump, place, kind) in rows {
        assert!(rt;
            Block::cut(dump, place).err() == Some(kind),
            "{dump:?} at {place}"
        );
    }
}

#[test]
fn a_property_block_without_entries_is_read(rt: HostRuntime) -> Result<(), Fail> {
    for (block, spelled) in [(b"".as_slice(), false), (b"PROPS-END\n", true)] {
        let props = Props::read(block).ok_or("a block is refused")?;
        let has_none = props.entries().next().is_none() && props.get(b"a").is_none();
        assert!(rt; has_none && props.spelled() == spelled, "{block:?}");
    }
    Ok(())
}

#[test]
fn a_byte_is_found_where_it_stands_first(rt: HostRuntime) {
    assert!(rt; find(b':', b"a: b: c") == Some(1));
    assert!(rt; find(b':', b"a").is_none());
}

/// An entry's name, its value, and whether it deletes the property.
type EntryRow<'a> = (&'a [u8], &'a [u8], bool);

/// Whether these are the entries of a block.
fn are_entries(props: &Props<'_>, rows: &[EntryRow<'_>]) -> bool {
    let mut entries = props.entries();
    for row in rows {
        match entries.next() {
            Some(entry) if (entry.name, entry.value, entry.gone) == *row => {}
            _ => return false,
        }
    }
    entries.next().is_none()
}

#[test]
fn leading_zeros_of_lengths_are_read(rt: HostRuntime) -> Result<(), Fail> {
    let props = Props::read(b"K 01\na\nV 0\n\nPROPS-END\n").ok_or("zeros are refused")?;
    let rows = [(b"a".as_slice(), b"".as_slice(), false)];
    assert!(rt; are_entries(&props, &rows) && !props.spelled());
    Ok(())
}

#[test]
fn values_hold_any_bytes_and_names_stand_twice(rt: HostRuntime) -> Result<(), Fail> {
    let inner = b"\nK 1\nb\nV 1\nc\nPROPS-END\n\n".as_slice();
    let block =
        b"K 1\na\nV 24\n\nK 1\nb\nV 1\nc\nPROPS-END\n\n\nK 1\na\nV 1\n2\nPROPS-END\n".as_slice();
    let props = Props::read(block).ok_or("the block is refused")?;
    assert!(rt; props.get(b"a") == Some(inner), "the first of two");
    assert!(rt; props.get(b"b").is_none(), "a name inside a value");
    let rows = [(b"a".as_slice(), inner, false), (b"a", b"2", false)];
    assert!(rt; are_entries(&props, &rows) && props.spelled());
    Ok(())
}

#[test]
fn no_property_block_is_cut_short_or_malformed(rt: HostRuntime) {
    let rows = [
        b"PROPS-END".as_slice(),
        b"PROPS-ENDX",
        b"PROPS-END\n\n",
        b"K 1\na\nV 1\nb\n",
        b"K 1\na\nPROPS-END\n",
        b"K 1\na\nV 2\nb\nPROPS-END\n",
        b"K 0000000000000000001\na\nV 0\n\nPROPS-END\n",
        b"D 2\na\nPROPS-END\n",
        b"D 1\na\nV 0\n\nPROPS-END\n",
        b"d 1\na\nPROPS-END\n",
    ];
    for block in rows {
        let read = Props::read(block).is_some() || Props::read_with_deletes(block).is_some();
        assert!(rt; !read, "{block:?}");
    }
}

#[test]
fn deleted_properties_are_read_where_they_may_stand(rt: HostRuntime) -> Result<(), Fail> {
    let block = b"D 1\na\nK 1\na\nV 1\nb\nD 1\nc\nPROPS-END\n".as_slice();
    assert!(rt; Props::read(block).is_none(), "without deletes");
    let props = Props::read_with_deletes(block).ok_or("deletes are refused")?;
    let first = Some(b"b".as_slice());
    assert!(rt; props.get(b"a") == first, "the first that isn't deleted");
    assert!(rt; props.get(b"c").is_none(), "a deleted one");
    let rows = [
        (b"a".as_slice(), b"".as_slice(), true),
        (b"a", b"b", false),
        (b"c", b"", true),
    ];
    assert!(rt; are_entries(&props, &rows) && props.spelled());
    Ok(())
}

#[test]
fn deletions_have_one_spelling(rt: HostRuntime) -> Result<(), Fail> {
    for (block, spelled) in [
        (b"D 1\na\nPROPS-END\n".as_slice(), true),
        (b"D 01\na\nPROPS-END\n", false),
        (b"PROPS-END\n", true),
        (b"", false),
    ] {
        let props = Props::read_with_deletes(block).ok_or("the block is refused")?;
        assert!(rt; props.spelled() == spelled, "{block:?}");
    }
    Ok(())
}

#[test]
fn faults_have_numbers_and_names(rt: HostRuntime) {
    let rows = [
        (FaultKind::HeaderCut, 1, "HeaderCut"),
        (FaultKind::Header, 2, "Header"),
        (FaultKind::Kind, 3, "Kind"),
        (FaultKind::Version, 4, "Version"),
        (FaultKind::Number, 5, "Number"),
        (FaultKind::Lengths, 6, "Lengths"),
        (FaultKind::ContentCut, 7, "ContentCut"),
        (FaultKind::Order, 8, "Order"),
        (FaultKind::Props, 9, "Props"),
        (FaultKind::Md5, 10, "Md5"),
        (FaultKind::Sha1, 11, "Sha1"),
        (FaultKind::CopySource, 12, "CopySource"),
        (FaultKind::CopyRevision, 13, "CopyRevision"),
        (FaultKind::MergeInfo, 14, "MergeInfo"),
        (FaultKind::MergeSource, 15, "MergeSource"),
        (FaultKind::MergeRange, 16, "MergeRange"),
    ];
    for (kind, code, name) in rows {
        assert!(rt; kind.code() == code && kind.name() == name);
    }
}

/// A line, and a block of one property.
fn written(alloc: Global) -> Result<Vec<u8>, AllocError> {
    let mut out = Vec::new(alloc);
    push_header(&mut out, HeaderName::NodeCopyfromRev.bytes(), 7)?;
    push_property(&mut out, b"svn:log", b"a\n")?;
    push_deletion(&mut out, b"svn:mergeinfo")?;
    push_block_end(&mut out)?;
    Ok(out)
}

#[test]
fn lines_and_properties_are_written(rt: HostRuntime) -> Result<(), Fail> {
    blocks_are_read_as_written();
    properties_are_read_as_written();
    let out = written(rt.alloc())?;
    let wanted =
        b"Node-copyfrom-rev: 7\nK 7\nsvn:log\nV 2\na\n\nD 13\nsvn:mergeinfo\nPROPS-END\n".as_slice();
    assert!(rt; out.as_slice() == wanted);
    Ok(())
}

#[test]
fn written_or_no_memory(rt: HostRuntime) {
    if let Ok(out) = written(rt.alloc()) {
        assert!(rt; out.len() == 69);
    }
}
