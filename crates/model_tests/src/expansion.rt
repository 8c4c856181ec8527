//! What no contract says: expanded dumps, compared with what the format says about them, and allocations that fail.
use dump_expansion::{
    FileText, Memory, NewNode, NodeKind, NodeProperty, NodeText, Stead, can_all_be_written,
    expanded,
};
use std::alloc::Global;
use std::test::Fail;

const HEAD: &str = "SVN-fs-dump-format-version: 2\n\nRevision-number: 0\n\nRevision-number: 1\n\n\
Node-path: a\nNode-kind: dir\nNode-action: add\n\n\n\
Node-path: a/f\nNode-kind: file\nNode-action: add\n\n\nRevision-number: 2\n\n";

const COPY: &str = "Node-path: b\nNode-kind: dir\nNode-action: add\nNode-copyfrom-rev: 1\n\
Node-copyfrom-path: a\n\n\n";

/// The number of the record that is the copy.
const COPY_NUMBER: u64 = 6;

const TAIL: &str = "Revision-number: 3\n\n";

const DELETION: &str = "Node-path: b\nNode-action: delete\n\n\n";

const DIRECTORY_AND_COPY: &str = "Node-path: b\nNode-kind: dir\nNode-action: add\n\
Prop-content-length: 33\nContent-length: 33\n\n\
K 10\nsvn:ignore\nV 2\nx\n\nPROPS-END\n\n\n\
Node-path: b/f\nNode-kind: file\nNode-action: add\n\
Node-copyfrom-rev: 1\nNode-copyfrom-path: a/f\n\n\n";

/// The digests of `hello` and a line feed.
const MD5: &[u8] = b"b1946ac92492d2347c6235b4d2611184";

const SHA1: &[u8] = b"f572d396fae9206628714fb2ce00f72e94f2258f";

const FILES: &str = "Node-path: b\nNode-kind: file\nNode-action: add\n\
Prop-content-length: 36\nText-content-length: 6\n\
Text-content-md5: b1946ac92492d2347c6235b4d2611184\n\
Text-content-sha1: f572d396fae9206628714fb2ce00f72e94f2258f\n\
Content-length: 42\n\n\
K 14\nsvn:executable\nV 1\n*\nPROPS-END\nhello\n\n\n\
Node-path: b\nNode-kind: file\nNode-action: replace\n\
Prop-content-length: 36\nText-content-length: 6\nContent-length: 42\n\n\
K 14\nsvn:executable\nV 1\n*\nPROPS-END\nhello\n\n\n";

/// The dump with these nodes in revision 2.
fn dump_with(alloc: Global, nodes: &str) -> Result<Vec<u8>, Memory> {
    let mut dump = Vec::from_slice(alloc, HEAD.as_bytes())?;
    dump.extend_from_slice(nodes.as_bytes())?;
    dump.extend_from_slice(TAIL.as_bytes())?;
    Ok(dump)
}

/// A deletion of this path.
fn deletion(alloc: Global, path: &[u8]) -> Result<NewNode<'static>, Memory> {
    let path = Vec::from_slice(alloc, path)?;
    Ok(NewNode::Deletion { path })
}

/// The directory `b`, with a property of this name.
fn directory(alloc: Global, name: &'static [u8]) -> Result<NewNode<'static>, Memory> {
    let path = Vec::from_slice(alloc, b"b")?;
    let entries = Vec::from_slice(
        alloc,
        &[NodeProperty {
            name,
            value: b"x\n",
        }],
    )?;
    Ok(NewNode::Directory {
        replaces: false,
        path,
        entries,
    })
}

/// A copy of `a/f`, as it is in this revision, to `b/f`.
fn copy(alloc: Global, revision: u64) -> Result<NewNode<'static>, Memory> {
    let source = Vec::from_slice(alloc, b"a/f")?;
    let path = Vec::from_slice(alloc, b"b/f")?;
    Ok(NewNode::Copy {
        kind: NodeKind::File,
        revision,
        source,
        path,
    })
}

/// The executable file `b` with a line of text, and with digests of it if they are given.
fn file(
    alloc: Global,
    replaces: bool,
    md5: Option<&'static [u8]>,
    sha1: Option<&'static [u8]>,
) -> Result<NewNode<'static>, Memory> {
    let path = Vec::from_slice(alloc, b"b")?;
    let entries = Vec::from_slice(
        alloc,
        &[NodeProperty {
            name: b"svn:executable",
            value: b"*",
        }],
    )?;
    let own = NodeText {
        text: b"hello\n",
        md5,
        sha1,
    };
    Ok(NewNode::File {
        replaces,
        path,
        entries,
        text: FileText::whole(alloc, own),
    })
}

/// Whether revision 2 of the dump has the nodes `wanted`, if these nodes replace the copy.
fn replaces(alloc: Global, nodes: Vec<NewNode<'static>>, wanted: &str) -> Result<bool, Memory> {
    let dump = dump_with(alloc, COPY)?;
    let mut steads = Vec::new(alloc);
    steads.push(Stead {
        record_number: COPY_NUMBER,
        nodes,
        keeps: false,
    })?;
    if !can_all_be_written(&steads) {
        return Ok(false);
    }
    let text = expanded(alloc, &dump, &steads)?;
    let wanted = dump_with(alloc, wanted)?;
    Ok(text.as_slice() == wanted.as_slice())
}

/// Whether the copy is replaced by a directory and a copy of its content.
fn replaces_by_directory(alloc: Global) -> Result<bool, Memory> {
    let mut nodes = Vec::new(alloc);
    nodes.push(directory(alloc, b"svn:ignore")?)?;
    nodes.push(copy(alloc, 1)?)?;
    replaces(alloc, nodes, DIRECTORY_AND_COPY)
}

/// Whether the copy is replaced by a file with digests, and that by one without.
fn replaces_by_files(alloc: Global) -> Result<bool, Memory> {
    let mut nodes = Vec::new(alloc);
    nodes.push(file(alloc, false, Some(MD5), Some(SHA1))?)?;
    nodes.push(file(alloc, true, None, None)?)?;
    replaces(alloc, nodes, FILES)
}

#[test]
fn a_copy_is_replaced(rt: HostRuntime) -> Result<(), Fail> {
    assert!(rt; replaces_by_directory(rt.alloc())?);
    Ok(())
}

#[test]
fn replaced_or_no_memory(rt: HostRuntime) {
    let answer = replaces_by_directory(rt.alloc());
    assert!(rt; matches!(answer, Ok(true) | Err(Memory)));
}

#[test]
fn files_are_written_with_their_text(rt: HostRuntime) -> Result<(), Fail> {
    assert!(rt; replaces_by_files(rt.alloc())?);
    Ok(())
}

/// Whether revision 2 of the dump has the nodes `wanted`, if a deletion of `b` is put before this record.
fn precedes(alloc: Global, record_number: u64, wanted: &str) -> Result<bool, Memory> {
    let dump = dump_with(alloc, COPY)?;
    let mut nodes = Vec::new(alloc);
    nodes.push(deletion(alloc, b"b")?)?;
    let mut steads = Vec::new(alloc);
    steads.push(Stead {
        record_number,
        nodes,
        keeps: true,
    })?;
    if !can_all_be_written(&steads) {
        return Ok(false);
    }
    let text = expanded(alloc, &dump, &steads)?;
    let wanted = dump_with(alloc, wanted)?;
    Ok(text.as_slice() == wanted.as_slice())
}

const DELETED_FIRST: &str = "Node-path: b\nNode-action: delete\n\n\n\
Node-path: b\nNode-kind: dir\nNode-action: add\nNode-copyfrom-rev: 1\nNode-copyfrom-path: a\n\n\n";

#[test]
fn a_node_is_kept_after_others(rt: HostRuntime) -> Result<(), Fail> {
    let alloc = rt.alloc();
    assert!(rt; precedes(alloc, COPY_NUMBER, DELETED_FIRST)?);
    assert!(rt; precedes(alloc, COPY_NUMBER - 1, COPY)?);
    assert!(rt; precedes(alloc, COPY_NUMBER + 2, COPY)?);
    Ok(())
}

/// Whether a deletion of this path can be written.
fn can_delete(alloc: Global, path: &[u8]) -> Result<bool, Memory> {
    Ok(deletion(alloc, path)?.can_be_written())
}

#[test]
fn nodes_that_cannot_be_written(rt: HostRuntime) -> Result<(), Fail> {
    let alloc = rt.alloc();
    assert!(rt; can_delete(alloc, b"a/b")? && !can_delete(alloc, b"a/./b")?);
    assert!(rt; !can_delete(alloc, b"a\nb")? && !can_delete(alloc, b"a\0b")?);
    assert!(rt; !copy(alloc, 1_000_000_000_000_000_000)?.can_be_written());
    assert!(rt; !directory(alloc, b"a\0")?.can_be_written());
    assert!(rt; file(alloc, false, Some(MD5), None)?.can_be_written());
    assert!(rt; !file(alloc, false, Some(b"a\nb"), None)?.can_be_written());
    assert!(rt; !file(alloc, false, None, Some(b"a\0"))?.can_be_written());
    Ok(())
}

/// The bytes of the deletion of `b`, to the end of its lines.
fn bytes_of_deletion(alloc: Global) -> Result<Vec<u8>, Memory> {
    let mut out = Vec::new(alloc);
    deletion(alloc, b"b")?.write(alloc, &mut out)?;
    out.extend_from_slice(b"\n")?;
    Ok(out)
}

#[test]
fn a_node_is_written(rt: HostRuntime) -> Result<(), Fail> {
    let out = bytes_of_deletion(rt.alloc())?;
    assert!(rt; out.as_slice() == DELETION.as_bytes());
    Ok(())
}
