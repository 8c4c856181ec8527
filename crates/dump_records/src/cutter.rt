//! Cuts a dump into its records.
ghost use Rattle.std.specs.Prelude.{◌≡◌, IfOk, IfErr, drop};
ghost use Rattle.dump_records.specs.RecordText.{IsCutFault};
ghost use Rattle.dump_records.specs.steps.Standing.{IsGap, FollowsRecords};
ghost use Rattle.dump_records.specs.steps.RecordViews.{IsNextRecord};

use crate::header::read_header;
use crate::record::Record;
use dump_text::{FaultKind, Headers};
use std::marker::Model;

/// What a call of [`Cutter::next`] returns: the next record, or how the list of records ends.
#[derive(Clone, Copy)]
pub enum Cut<'a> {
    Item(Record<'a>),
    /// The last record ends at the end of the dump, up to line feeds.
    Finished,
    /// No record is at this byte of the dump, because of this fault.
    Fault { kind: FaultKind, place: usize },
}

/// Returns the records of a dump in their order. After the end it returns the same end at each call.
#[derive(Drop)]
pub struct Cutter<'a> {
    dump: &'a [u8],
    number: u64,
    place: usize,
    /// The format version in force after the records that were returned.
    version: u8,
}

impl<'a> Model for Cutter<'a> {
    ghost use Rattle.dump_records.specs.steps.CutterState.{CutterState, IsCutUpTo};

    ghost Value = { CutterState };

    ghost view = { λ c. record { dump = c.dump.now; number = c.number } };

    ghost invariant = { λ c. IsCutUpTo c.dump.now c.number c.place c.version };
}

impl<'a> Cutter<'a> {
    ghost use Rattle.std.specs.Prelude.{◌≡◌};
    ghost use Rattle.dump_records.specs.steps.RecordViews.{CutStep};

    /// A cutter at the front of the dump.
    pub fn new(dump: &'a [u8]) -> Cutter<'a>
        ensures { result ≡ record { dump = dump.now; number = 0 } }
    {
        Cutter {
            dump,
            number: 0,
            place: 0,
            version: 0,
        }
    }

    /// The next record, or how the list of records ends.
    pub fn next(&mut self) -> Cut<'a>
        ensures { CutStep self.old result self.new }
    {
        let place = self.place + count_line_feeds(&self.dump[self.place..]);
        if place == self.dump.len() && self.number > 0 {
            return Cut::Finished;
        }
        match record_at(self.dump, place, self.number, self.version) {
            Ok(record) => {
                self.place = record.after;
                self.version = record.header.version;
                self.number += 1;
                Cut::Item(record)
            }
            Err(kind) => Cut::Fault { kind, place },
        }
    }
}

/// The number of LFs at the front of a text.
fn count_line_feeds(text: &[u8]) -> usize
    ensures { IsGap text.now result }
{
    for (i, byte) in text.iter().enumerate() {
        if *byte != b'\n' {
            return i;
        }
    }
    text.len()
}

/// Reads the record with this number at a place of the dump; `version` was in force before it. The error is the first
/// fault that holds there.
fn record_at(dump: &[u8], place: usize, number: u64, version: u8) -> Result<Record<'_>, FaultKind>
    requires { FollowsRecords dump.now number place version }
    ensures next { IfOk result (IsNextRecord dump.now number) }
    ensures fault { IfErr result (IsCutFault number (drop place dump.now)) }
{
    let headers = Headers::read(dump, place)?;
    let found = read_header(&headers, number, version)?;
    let lengths = found.1;
    let block = headers.block();
    let left = dump.len() - block.after();
    if (left as u64) < lengths.props + lengths.text {
        return Err(FaultKind::ContentCut);
    }
    let text_from = block.after() + lengths.props as usize;
    Ok(Record {
        block,
        number,
        header: found.0,
        text_from,
        after: text_from + lengths.text as usize,
    })
}
