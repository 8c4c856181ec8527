//! One call of each function: on a node that copies, on one that replaces a file, and on paths that aren't canonical.
ghost use Rattle.std.specs.Prelude.{IsTrue};
ghost use Rattle.dump_records.specs.steps.RecordViews.{record_item};
ghost use Rattle.dump_digest.specs.RecordParts.{is_node};

use dump_digest::properties_of;
use dump_nodes::{
    Action, action_of, copy_path_of, copy_revision_of, has_undefined_delta, is_canonical, is_copy,
    is_whole_file, kind_of, loads_as_written, makes_copy, path_of,
};
use dump_records::{Cut, Cutter, Record, RecordKind};
use dump_rules::bare_path;
use std::test::Fail;

const COPY: &[u8] = b"SVN-fs-dump-format-version: 2\n\n\
Node-path: b\nNode-kind: dir\nNode-action: add\nNode-copyfrom-rev: 1\nNode-copyfrom-path: a\n\n\n";

const A: &[u8] = b"a";

const B: &[u8] = b"b";

const FILE_KIND: &[u8] = b"file";

const FILE: &[u8] = b"SVN-fs-dump-format-version: 2\n\n\
Node-path: /a//f\nNode-kind: file\nNode-action: replace\nText-content-length: 1\nContent-length: 1\n\nx\n\n";

/// The second record of a dump.
fn second(dump: &[u8]) -> Option<Record<'_>> {
    let mut cutter = Cutter::new(dump);
    let _ = cutter.next();
    match cutter.next() {
        Cut::Item(item) => Some(item),
        _ => None,
    }
}

/// Whether the node copies `a` of revision 1 to `b`.
fn is_copied(item: &Record<'_>) -> bool
    requires { IsTrue (is_node (record_item item.now)) }
{
    let action = action_of(item);
    let path = bare_path(path_of(item));
    let source = bare_path(copy_path_of(item));
    action.makes() && !action.deletes() && path == B && source == A && copy_revision_of(item) == 1
}

/// Whether the node replaces a file, with its whole text, at a path that isn't canonical.
fn is_replaced(item: &Record<'_>) -> bool
    requires { IsTrue (is_node (record_item item.now)) }
{
    let plain = loads_as_written(item, &properties_of(item));
    action_of(item) == Action::Replace
        && kind_of(item) == FILE_KIND
        && is_whole_file(item)
        && !plain
}

#[test]
fn copies_are_read(rt: HostRuntime) -> Result<(), Fail> {
    let item = second(COPY).ok_or("no record")?;
    let read = match item.kind() {
        RecordKind::Node => is_copied(&item) && makes_copy(&item) && !has_undefined_delta(&item),
        _ => false,
    };
    assert!(rt; read);
    Ok(())
}

#[test]
fn files_are_read(rt: HostRuntime) -> Result<(), Fail> {
    let item = second(FILE).ok_or("no record")?;
    let read = match item.kind() {
        RecordKind::Node => is_replaced(&item) && !is_copy(&item),
        _ => false,
    };
    assert!(rt; read);
    Ok(())
}

#[test]
fn names_between_single_slashes_are_canonical(rt: HostRuntime) {
    assert!(rt; is_canonical(b"/a/b") && !is_canonical(b"a/./b") && !is_canonical(b"a/"));
}
