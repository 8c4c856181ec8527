//! The records of which the tests make their dumps.

pub(crate) const VERSION: &[u8] = b"SVN-fs-dump-format-version: 2\n\n";

pub(crate) const VERSION_3: &[u8] = b"SVN-fs-dump-format-version: 3\n\n";

pub(crate) const UUID: &[u8] = b"UUID: 7bf7a5ef-cabf-0310-b7d4-93df341afa7e\n\n";

pub(crate) const REVISION_0: &[u8] =
    b"Revision-number: 0\nProp-content-length: 56\nContent-length: 56\n\nK 8\nsvn:date\nV 27\n2024-01-02T03:04:05.000000Z\nPROPS-END\n\n";

pub(crate) const REVISION_1: &[u8] =
    b"Revision-number: 1\nProp-content-length: 56\nContent-length: 56\n\nK 8\nsvn:date\nV 27\n2024-01-02T03:04:05.000000Z\nPROPS-END\n\n";

pub(crate) const REVISION_2: &[u8] =
    b"Revision-number: 2\nProp-content-length: 56\nContent-length: 56\n\nK 8\nsvn:date\nV 27\n2024-01-02T03:04:05.000000Z\nPROPS-END\n\n";

pub(crate) const REVISION_3: &[u8] =
    b"Revision-number: 3\nProp-content-length: 56\nContent-length: 56\n\nK 8\nsvn:date\nV 27\n2024-01-02T03:04:05.000000Z\nPROPS-END\n\n";

pub(crate) const REVISION_5: &[u8] =
    b"Revision-number: 5\nProp-content-length: 56\nContent-length: 56\n\nK 8\nsvn:date\nV 27\n2024-01-02T03:04:05.000000Z\nPROPS-END\n\n";

pub(crate) const REVISION_6: &[u8] =
    b"Revision-number: 6\nProp-content-length: 56\nContent-length: 56\n\nK 8\nsvn:date\nV 27\n2024-01-02T03:04:05.000000Z\nPROPS-END\n\n";

/// Numbers with leading zeros, and no `Content-length`.
pub(crate) const SPELLED_REVISION_7: &[u8] =
    b"Revision-number: 007\nProp-content-length: 056\n\nK 8\nsvn:date\nV 27\n2024-01-02T03:04:05.000000Z\nPROPS-END\n\n";

pub(crate) const REVISION_7: &[u8] =
    b"Revision-number: 7\nProp-content-length: 56\nContent-length: 56\n\nK 8\nsvn:date\nV 27\n2024-01-02T03:04:05.000000Z\nPROPS-END\n\n";

pub(crate) const REVISION_9: &[u8] =
    b"Revision-number: 9\nProp-content-length: 56\nContent-length: 56\n\nK 8\nsvn:date\nV 27\n2024-01-02T03:04:05.000000Z\nPROPS-END\n\n";

pub(crate) const PADDING_1: &[u8] =
    b"Revision-number: 1\nProp-content-length: 112\nContent-length: 112\n\nK 8\nsvn:date\nV 27\n2024-01-02T03:04:05.000000Z\nK 7\nsvn:log\nV 38\nThis is an empty revision for padding.\nPROPS-END\n\n";

/// Its ten bytes of properties aren't a property block.
pub(crate) const BROKEN_REVISION_1: &[u8] =
    b"Revision-number: 1\nProp-content-length: 10\nContent-length: 10\n\nPROPS-ENDX\n";

pub(crate) const TRUNK: &[u8] =
    b"Node-path: trunk\nNode-kind: dir\nNode-action: add\nProp-content-length: 10\nContent-length: 10\n\nPROPS-END\n\n\n";

pub(crate) const TRUNK_A: &[u8] =
    b"Node-path: trunk/a\nNode-kind: dir\nNode-action: add\nProp-content-length: 10\nContent-length: 10\n\nPROPS-END\n\n\n";

pub(crate) const TRUNK_2: &[u8] =
    b"Node-path: trunk2\nNode-kind: dir\nNode-action: add\nProp-content-length: 10\nContent-length: 10\n\nPROPS-END\n\n\n";

pub(crate) const OTHER: &[u8] =
    b"Node-path: other\nNode-kind: dir\nNode-action: add\nProp-content-length: 10\nContent-length: 10\n\nPROPS-END\n\n\n";

pub(crate) const X: &[u8] =
    b"Node-path: x\nNode-kind: dir\nNode-action: add\nProp-content-length: 10\nContent-length: 10\n\nPROPS-END\n\n\n";

/// A property whose length has a leading zero, and how the filter writes it.
pub(crate) const SPELLED_TRUNK: &[u8] =
    b"Node-path: trunk\nNode-kind: dir\nNode-action: add\nProp-content-length: 22\nContent-length: 22\n\nK 01\na\nV 0\n\nPROPS-END\n\n\n";

pub(crate) const RESPELLED_TRUNK: &[u8] =
    b"Node-path: trunk\nNode-kind: dir\nNode-action: add\nProp-content-length: 21\nContent-length: 21\n\nK 1\na\nV 0\n\nPROPS-END\n\n\n";

/// The same, with a deleted property.
pub(crate) const SPELLED_DELETION: &[u8] =
    b"Node-path: trunk\nNode-kind: dir\nNode-action: change\nProp-delta: true\nProp-content-length: 29\nContent-length: 29\n\nK 01\na\nV 0\n\nD 01\nb\nPROPS-END\n\n\n";

pub(crate) const RESPELLED_DELETION: &[u8] =
    b"Node-path: trunk\nNode-kind: dir\nNode-action: change\nProp-delta: true\nProp-content-length: 27\nContent-length: 27\n\nK 1\na\nV 0\n\nD 1\nb\nPROPS-END\n\n\n";

/// Copies of a directory; each name says of which directory and of which revision.
pub(crate) const TAG_OF_TRUNK_2: &[u8] =
    b"Node-path: trunk/tag\nNode-kind: dir\nNode-action: add\nNode-copyfrom-rev: 2\nNode-copyfrom-path: trunk\n\n\n\n";

pub(crate) const TAG_OF_TRUNK_5: &[u8] =
    b"Node-path: trunk/tag\nNode-kind: dir\nNode-action: add\nNode-copyfrom-rev: 5\nNode-copyfrom-path: trunk\n\n\n\n";

pub(crate) const TAG_OF_TRUNK_7: &[u8] =
    b"Node-path: trunk/tag\nNode-kind: dir\nNode-action: add\nNode-copyfrom-rev: 7\nNode-copyfrom-path: trunk\n\n\n\n";

pub(crate) const TAG_OF_OTHER_0: &[u8] =
    b"Node-path: trunk/tag\nNode-kind: dir\nNode-action: add\nNode-copyfrom-rev: 0\nNode-copyfrom-path: other\n\n\n\n";

/// The directory with its mergeinfo, before and after the filter.
pub(crate) const TRUNK_MERGED_1_TO_7: &[u8] =
    b"Node-path: trunk\nNode-kind: dir\nNode-action: change\nProp-content-length: 49\nContent-length: 49\n\nK 13\nsvn:mergeinfo\nV 14\n/trunk:1-5,6-7\nPROPS-END\n\n\n";

pub(crate) const TRUNK_MERGED_1: &[u8] =
    b"Node-path: trunk\nNode-kind: dir\nNode-action: change\nProp-content-length: 42\nContent-length: 42\n\nK 13\nsvn:mergeinfo\nV 8\n/trunk:1\nPROPS-END\n\n\n";
