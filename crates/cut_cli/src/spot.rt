//! The place of a record in a dump, with its revision.
use dump_index::Source;
use dump_records::{Cut, Cutter, Record, RecordKind};
use dump_rules::bare_path;

/// A record of a dump, or the place after the last one.
#[derive(Clone, Copy)]
pub struct Spot<'a> {
    /// The number of the record, from 0.
    pub number: u64,
    /// The byte of the dump at which it begins.
    pub byte: usize,
    /// The number of the last revision record before it.
    pub last: Option<u64>,
    /// The number of the revision to which a node at this place belongs.
    pub group: Option<u64>,
    pub record: Option<Record<'a>>,
}

impl<'a> Spot<'a> {
    /// The number of the revision that the record is, or to which it belongs.
    pub fn revision(&self) -> Option<u64> {
        let record = self.record?;
        match record.kind() {
            RecordKind::Revision => record.revision(),
            _ => self.group,
        }
    }

    /// The path of a node, without a leading slash.
    pub fn path(&self) -> Option<&'a [u8]> {
        match self.record?.path() {
            Some(path) => Some(bare_path(path)),
            None => None,
        }
    }

    /// The source from which a node is copied.
    pub fn source(&self) -> Option<Source<'a>> {
        let record = self.record?;
        match (record.copy_path(), record.copy_revision()) {
            (Some(path), Some(revision)) => Some(Source {
                revision,
                path: bare_path(path),
            }),
            _ => None,
        }
    }

    /// The place after the record.
    fn next(&self, record: Record<'a>) -> Spot<'a> {
        Spot {
            number: record.number().saturating_add(1),
            byte: record.after(),
            last: match record.kind() {
                RecordKind::Revision => record.revision(),
                _ => self.last,
            },
            group: match record.kind() {
                RecordKind::Revision => record.revision(),
                RecordKind::Node => self.group,
                _ => None,
            },
            record: None,
        }
    }
}

/// The record with this number, or the place after the last record.
pub fn spot_of<'a>(dump: &'a [u8], number: u64) -> Spot<'a> {
    let mut cutter = Cutter::new(dump);
    let mut spot = Spot {
        number: 0,
        byte: 0,
        last: None,
        group: None,
        record: None,
    };
    // no dump has more records than bytes
    for _ in 0..=dump.len() {
        let Cut::Item(record) = cutter.next() else {
            break;
        };
        spot.byte = record.place();
        spot.record = Some(record);
        if record.number() >= number {
            break;
        }
        spot = spot.next(record);
    }
    spot
}

/// The number of the dump's first revision.
pub fn first_revision(dump: &[u8]) -> Option<u64> {
    let mut cutter = Cutter::new(dump);
    // no dump has more records than bytes
    for _ in 0..=dump.len() {
        let Cut::Item(record) = cutter.next() else {
            return None;
        };
        if let RecordKind::Revision = record.kind() {
            return record.revision();
        }
    }
    None
}
