//! What no contract says: worked examples, and one call of each function.
use dump_records::laws::{each_dump_has_one_list, no_record_begins_another};
use dump_records::{Cut, Cutter, Record, RecordKind, RecordPart};
use dump_text::FaultKind;
use std::alloc::Global;
use std::test::Fail;

const VERSION: &[u8] = b"SVN-fs-dump-format-version: 2\n\n";

const VERSION_THREE: &[u8] = b"SVN-fs-dump-format-version: 3\n\n";

const UUID: &[u8] = b"UUID: 7bf7a5ef-cabf-0310-b7d4-93df341afa7e\n\n";

/// A revision with one LF after it.
const REVISION: &[u8] =
    b"Revision-number: 0\nProp-content-length: 56\nContent-length: 56\n\nK 8\nsvn:date\nV 27\n2024-01-02T03:04:05.000000Z\nPROPS-END\n\n";

/// A revision with a header that has a meaning only in a node.
const COPYING_REVISION: &[u8] =
    b"Revision-number: 4\nNode-copyfrom-path: other/f\nProp-content-length: 10\nContent-length: 10\n\nPROPS-END\n";

const NODE: &[u8] =
    b"Node-path: trunk/f\nNode-kind: file\nNode-action: add\nNode-copyfrom-rev: 3\nNode-copyfrom-path: other/f\nText-content-length: 3\nContent-length: 3\n\nabc";

/// The result of a call of `next`.
#[derive(Clone, Copy, Debug, PartialEq, Eq)]
enum Seen {
    Item(u64),
    Finished,
    Fault(FaultKind, usize),
}

fn seen_in(cut: Cut<'_>) -> Seen {
    match cut {
        Cut::Item(record) => Seen::Item(record.number()),
        Cut::Finished => Seen::Finished,
        Cut::Fault { kind, place } => Seen::Fault(kind, place),
    }
}

fn joined(alloc: Global, parts: &[&[u8]]) -> Result<Vec<u8>, Fail> {
    let mut whole = Vec::new(alloc);
    for part in parts {
        whole.extend_from_slice(part)?;
    }
    Ok(whole)
}

fn next_record<'a>(cutter: &mut Cutter<'a>) -> Result<Record<'a>, Fail> {
    match cutter.next() {
        Cut::Item(record) => Ok(record),
        _ => Err("no record".into()),
    }
}

/// Whether this many records are cut, and each later call then gives the same end.
fn ends_behind(dump: &[u8], count: u64, end: Seen) -> bool {
    let mut cutter = Cutter::new(dump);
    for number in 0..count {
        if seen_in(cutter.next()) != Seen::Item(number) {
            return false;
        }
    }
    seen_in(cutter.next()) == end && seen_in(cutter.next()) == end
}

/// A version, a UUID and a revision, of 195 bytes.
const ALL: &[u8] = b"SVN-fs-dump-format-version: 2\n\n\
UUID: 7bf7a5ef-cabf-0310-b7d4-93df341afa7e\n\n\
Revision-number: 0\nProp-content-length: 56\nContent-length: 56\n\n\
K 8\nsvn:date\nV 27\n2024-01-02T03:04:05.000000Z\nPROPS-END\n\n";

#[test]
fn the_end_is_told_again(rt: HostRuntime) -> Result<(), Fail> {
    let whole = ALL.get(..194).ok_or("too short")?;
    let short = ALL.get(..193).ok_or("too short")?;
    let cut = ALL.get(..80).ok_or("too short")?;
    let rows = [
        (VERSION, 1, Seen::Finished),
        (b"", 0, Seen::Fault(FaultKind::HeaderCut, 0)),
        (b"\n\n\n", 0, Seen::Fault(FaultKind::HeaderCut, 3)),
        (ALL, 3, Seen::Finished),
        (whole, 3, Seen::Finished),
        (short, 2, Seen::Fault(FaultKind::ContentCut, 75)),
        (cut, 2, Seen::Fault(FaultKind::HeaderCut, 75)),
    ];
    for (dump, count, end) in rows {
        assert!(rt; ends_behind(dump, count, end), "{dump:?}");
    }
    Ok(())
}

#[test]
fn the_first_record_is_a_version_record(rt: HostRuntime) {
    for dump in [UUID, REVISION] {
        assert!(rt;
            ends_behind(dump, 0, Seen::Fault(FaultKind::Version, 0)),
            "{dump:?}"
        );
    }
}

/// Whether `bytes_from` returns `bytes`, `bytes_from_with` returns `with` for one LF after the record, and two LFs
/// aren't there.
fn is_lent(record: &Record<'_>, part: RecordPart, bytes: &[u8], with: &[u8]) -> bool {
    record.bytes_from(part) == bytes
        && record.bytes_from_with(part, b"\n") == Some(with)
        && record.bytes_from_with(part, b"\n\n").is_none()
}

#[test]
fn the_bytes_from_a_part_are_lent_with_what_stands_behind(rt: HostRuntime) -> Result<(), Fail> {
    let alone =
        b"Revision-number: 0\nProp-content-length: 10\nContent-length: 10\n\nPROPS-END\n".as_slice();
    let followed =
        b"Revision-number: 0\nProp-content-length: 10\nContent-length: 10\n\nPROPS-END\n\n".as_slice();
    let mut cutter = Cutter::new(
        b"SVN-fs-dump-format-version: 2\n\nRevision-number: 0\nProp-content-length: 10\nContent-length: 10\n\nPROPS-END\n\n",
    );
    assert!(rt; next_record(&mut cutter)?.bytes_from(RecordPart::Block) == VERSION);
    let revision = next_record(&mut cutter)?;
    for (part, bytes, with) in [
        (RecordPart::Block, alone, followed),
        (RecordPart::Properties, b"PROPS-END\n", b"PROPS-END\n\n"),
        (RecordPart::Text, b"", b"\n"),
    ] {
        assert!(rt; is_lent(&revision, part, bytes, with));
    }
    Ok(())
}

#[test]
fn no_version_but_two_and_three_is_read(rt: HostRuntime) {
    for dump in [
        b"SVN-fs-dump-format-version: 2\n\nSVN-fs-dump-format-version: 4\n\n".as_slice(),
        b"SVN-fs-dump-format-version: 3\n\nSVN-fs-dump-format-version: 4\n\n",
    ] {
        assert!(rt;
            ends_behind(dump, 1, Seen::Fault(FaultKind::Version, 31)),
            "{dump:?}"
        );
    }
    for dump in [
        b"SVN-fs-dump-format-version: 4\n\n".as_slice(),
        b"SVN-fs-dump-format-version: 1\n\n",
        b"SVN-fs-dump-format-version: x\n\n",
    ] {
        assert!(rt;
            ends_behind(dump, 0, Seen::Fault(FaultKind::Version, 0)),
            "{dump:?}"
        );
    }
}

/// Whether these versions are in force for the records of a dump.
fn are_in_force(dump: &[u8], versions: [u64; 8]) -> bool {
    let mut cutter = Cutter::new(dump);
    for version in versions {
        match cutter.next() {
            Cut::Item(record) if record.version() == version => {}
            _ => return false,
        }
    }
    seen_in(cutter.next()) == Seen::Finished
}

#[test]
fn the_last_version_up_to_a_record_is_in_force(rt: HostRuntime) -> Result<(), Fail> {
    let parts = [
        VERSION,
        UUID,
        NODE,
        VERSION_THREE,
        COPYING_REVISION,
        NODE,
        VERSION,
        NODE,
    ];
    let dump = joined(rt.alloc(), &parts)?;
    assert!(rt; are_in_force(&dump, [2, 2, 2, 3, 3, 3, 2, 2]));
    Ok(())
}

/// Whether the text and the properties of the second record are deltas.
fn deltas_behind(alloc: Global, version: &[u8], lines: &[u8]) -> Result<(bool, bool), Fail> {
    let dump = joined(alloc, &[version, lines, b"\n"])?;
    let mut cutter = Cutter::new(&dump);
    next_record(&mut cutter)?;
    let record = next_record(&mut cutter)?;
    Ok((record.text_delta(), record.prop_delta()))
}

const BOTH_DELTAS: &[u8] = b"Node-path: f\nText-delta: true\nProp-delta: true\n";

const DELTAS: [(&[u8], &[u8], (bool, bool)); 7] = [
    (VERSION_THREE, BOTH_DELTAS, (true, true)),
    (VERSION, BOTH_DELTAS, (false, false)),
    (
        VERSION_THREE,
        b"Node-path: f\nText-delta: true\n",
        (true, false),
    ),
    (
        VERSION_THREE,
        b"Node-path: f\nProp-delta: true\n",
        (false, true),
    ),
    (
        VERSION_THREE,
        b"Node-path: f\nText-delta: True\nProp-delta: false\n",
        (false, false),
    ),
    (VERSION_THREE, b"Node-path: f\n", (false, false)),
    (
        VERSION_THREE,
        b"Revision-number: 1\nText-delta: true\nProp-delta: true\n",
        (false, false),
    ),
];

#[test]
fn only_a_node_under_version_three_has_a_delta(rt: HostRuntime) -> Result<(), Fail> {
    let alloc = rt.alloc();
    for (version, lines, deltas) in &DELTAS {
        assert!(rt;
            deltas_behind(alloc, version, lines)? == *deltas,
            "{version:?} {lines:?}"
        );
    }
    Ok(())
}

/// Whether the second record is a node, and whether it may have a delta.
fn nodes_behind(alloc: Global, version: &[u8], lines: &[u8]) -> Result<(bool, bool), Fail> {
    let dump = joined(alloc, &[version, lines, b"\n"])?;
    let mut cutter = Cutter::new(&dump);
    next_record(&mut cutter)?;
    let record = next_record(&mut cutter)?;
    Ok((record.is_node(), record.may_have_delta()))
}

#[test]
fn only_a_node_under_version_three_may_have_a_delta(rt: HostRuntime) -> Result<(), Fail> {
    let node = b"Node-path: f\n".as_slice();
    let rows = [
        (VERSION_THREE, node, (true, true)),
        (VERSION, node, (true, false)),
        (VERSION_THREE, b"Revision-number: 1\n", (false, false)),
    ];
    for (version, lines, wanted) in rows {
        assert!(rt; nodes_behind(rt.alloc(), version, lines)? == wanted);
    }
    Ok(())
}

const BROKEN_BLOCKS: [(&[u8], FaultKind); 7] = [
    (
        b"SVN-fs-dump-format-version: 2\n\nUUID: a\nNode-path: f\n\n",
        FaultKind::Kind,
    ),
    (
        b"SVN-fs-dump-format-version: 2\n\nNode-path: f\nNode-copyfrom-rev: 0\n\n",
        FaultKind::Kind,
    ),
    (
        b"SVN-fs-dump-format-version: 2\n\nNode-path: f\nText-content-length: 999999999999999999\nContent-length: 999999999999999999\n\n",
        FaultKind::ContentCut,
    ),
    (
        b"SVN-fs-dump-format-version: 2\n\nNode-path: f\nContent-length: 999999999999999999\n\n",
        FaultKind::Lengths,
    ),
    (
        b"SVN-fs-dump-format-version: 2\n\nNode-path: f\nContent-length: 9999999999999999999\n\n",
        FaultKind::Number,
    ),
    (
        b"SVN-fs-dump-format-version: 2\n\nNode-path: f\nProp-content-length: 999999999999999999\nText-content-length: 999999999999999999\n\n",
        FaultKind::ContentCut,
    ),
    (
        b"SVN-fs-dump-format-version: 2\n\nNode-path: f\nProp-content-length: 999999999999999999\nText-content-length: 999999999999999999\nContent-length: 1999999999999999998\n\n",
        FaultKind::Number,
    ),
];

#[test]
fn header_lines_that_break_a_rule_are_a_fault(rt: HostRuntime) {
    for (dump, kind) in &BROKEN_BLOCKS {
        assert!(rt; ends_behind(dump, 1, Seen::Fault(*kind, 31)), "{dump:?}");
    }
}

/// Whether a record has this kind, number, place and end.
fn is_placed(item: &Record<'_>, kind: RecordKind, places: (u64, usize, usize)) -> bool {
    item.kind() == kind && (item.number(), item.place(), item.after()) == places
}

fn has_no_copy(revision: &Record<'_>) -> bool {
    revision.path().is_none()
        && revision.copy_path().is_none()
        && revision.copy_revision().is_none()
}

fn has_only_properties(revision: &Record<'_>) -> bool {
    let props = b"PROPS-END\n".as_slice();
    revision.has_props()
        && !revision.has_text()
        && revision.props() == Some(props)
        && revision.text().is_none()
        && revision.property_bytes() == props
        && revision.text_bytes().is_empty()
}

fn is_copied_node(node: &Record<'_>) -> bool {
    node.path() == Some(b"trunk/f".as_slice())
        && node.copy_path() == Some(b"other/f".as_slice())
        && node.copy_revision() == Some(3)
        && node.revision().is_none()
}

fn has_only_text(node: &Record<'_>) -> bool {
    let text = b"abc".as_slice();
    !node.has_props()
        && node.has_text()
        && node.props().is_none()
        && node.text() == Some(text)
        && node.property_bytes().is_empty()
        && node.text_bytes() == text
}

fn has_block(node: &Record<'_>) -> bool {
    let block = node.block();
    (block.place(), block.after()) == (176, 319)
        && block.get(b"Node-kind") == Some(b"file".as_slice())
}

/// A version, a UUID, a revision with a header that has a meaning only in a node, and a node.
const FOUR: &[u8] = b"SVN-fs-dump-format-version: 2\n\n\
UUID: 7bf7a5ef-cabf-0310-b7d4-93df341afa7e\n\n\
Revision-number: 4\nNode-copyfrom-path: other/f\nProp-content-length: 10\nContent-length: 10\n\nPROPS-END\n\
Node-path: trunk/f\nNode-kind: file\nNode-action: add\nNode-copyfrom-rev: 3\nNode-copyfrom-path: other/f\n\
Text-content-length: 3\nContent-length: 3\n\nabc";

#[test]
fn records_are_read(rt: HostRuntime) -> Result<(), Fail> {
    let mut cutter = Cutter::new(FOUR);
    let version = next_record(&mut cutter)?;
    let uuid = next_record(&mut cutter)?;
    let revision = next_record(&mut cutter)?;
    let node = next_record(&mut cutter)?;
    assert!(rt; seen_in(cutter.next()) == Seen::Finished);
    assert!(rt; is_placed(&version, RecordKind::Version, (0, 0, 31)));
    assert!(rt; is_placed(&uuid, RecordKind::Uuid, (1, 31, 75)));
    assert!(rt; is_placed(&revision, RecordKind::Revision, (2, 75, 176)));
    assert!(rt; revision.revision() == Some(4) && has_no_copy(&revision));
    assert!(rt; has_only_properties(&revision));
    assert!(rt; is_placed(&node, RecordKind::Node, (3, 176, 322)) && has_block(&node));
    assert!(rt; is_copied_node(&node) && has_only_text(&node));
    Ok(())
}

#[test]
fn what_the_lines_of_a_node_say_is_read(rt: HostRuntime) -> Result<(), Fail> {
    let mut cutter = Cutter::new(
        b"SVN-fs-dump-format-version: 2\n\nNode-path: f\nNode-kind: file\nText-content-md5: 900150983cd24fb0d6963f7d28e17f72\nText-content-sha1: a9993e364706816aba3e25717850c26c9cd0d89d\n\nNode-path: d\nNode-kind: dir\n\n",
    );
    next_record(&mut cutter)?;
    let md5 = b"900150983cd24fb0d6963f7d28e17f72".as_slice();
    let sha1 = b"a9993e364706816aba3e25717850c26c9cd0d89d".as_slice();
    let file = next_record(&mut cutter)?;
    assert!(rt; file.is_file() && file.md5() == Some(md5) && file.sha1() == Some(sha1));
    let folder = next_record(&mut cutter)?;
    assert!(rt; !folder.is_file() && folder.md5().is_none() && folder.sha1().is_none());
    Ok(())
}

/// Whether the filter would write the block of the record after the version record unchanged.
fn is_written(alloc: Global, lines: &[u8], content: &[u8]) -> Result<bool, Fail> {
    let dump = joined(alloc, &[VERSION, lines, b"\n", content])?;
    let mut cutter = Cutter::new(&dump);
    next_record(&mut cutter)?;
    Ok(next_record(&mut cutter)?.is_written())
}

const BLOCKS: [(&[u8], &[u8], bool); 8] = [
    (
        b"Node-path: f\nText-content-length: 3\nContent-length: 3\n",
        b"abc",
        true,
    ),
    (b"Node-path: f\nContent-length: 0\n", b"", true),
    (
        b"Node-path: f\nText-content-length: 03\nContent-length: 3\n",
        b"abc",
        false,
    ),
    (
        b"Node-path: f\nText-content-length: 3\nContent-length: 03\n",
        b"abc",
        false,
    ),
    (b"Node-path: f\nText-content-length: 3\n", b"abc", false),
    (b"Node-path: f\nText-content-length: 00\n", b"", false),
    (
        b"Node-path: f\nNode-copyfrom-rev: 01\nNode-copyfrom-path: g\n",
        b"",
        false,
    ),
    (b"Revision-number: 01\n", b"", false),
];

#[test]
fn a_block_is_written_as_it_stands(rt: HostRuntime) -> Result<(), Fail> {
    let alloc = rt.alloc();
    for (lines, content, written) in &BLOCKS {
        assert!(rt; is_written(alloc, lines, content)? == *written);
    }
    Ok(())
}

#[test]
fn the_laws_can_be_called() {
    no_record_begins_another();
    each_dump_has_one_list();
}
