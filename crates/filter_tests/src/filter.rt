//! What no contract says: worked dumps, a filter that stays closed after a fault, and allocations that fail. This file
//! has what the tests share.
ghost use Rattle.std.specs.Prelude.{◌≡◌, OnOk};
ghost use Rattle.dump_filter.specs.steps.FilterState.{first_state, count_up_to, IsOfSameDump};

mod blocks;
mod dumps;
mod faults;
mod memory;

use dump_digest::Done;
use dump_filter::laws::{keeps_its_own_text, written_only_grows};
use dump_filter::{Filter, Report, StepFault};
use dump_records::{Cut, Cutter};
use dump_rules::{Empty, Memory, Options, Side};
use dump_text::FaultKind;
use dump_writer::{Chunk, Piece};
use std::alloc::{AllocError, Global};

/// The options of the filter.
#[derive(Clone, Copy)]
struct Asked<'a> {
    side: Side,
    prefix: &'a [u8],
    empty: Empty,
    renumber: bool,
    preserve: bool,
}

/// A dump with a record that the filter rejects because of this fault, and what the filter writes before: its length
/// after each record, and all of it.
#[derive(Clone, Copy)]
struct Refused<'a> {
    asked: Asked<'a>,
    dump: &'a [&'a [u8]],
    kind: FaultKind,
    lengths: &'a [usize],
    written: &'a [&'a [u8]],
}

/// What was written, its length after each piece, and how many chunks were owned and not borrowed. Memory for all this
/// is reserved at the start, so that later only an allocation of the filter can fail.
#[derive(Drop)]
struct Written {
    text: Vec<u8>,
    lengths: Vec<usize>,
    made: u64,
    // Whether the filter expected each record, and stayed closed after a fault.
    sound: bool,
}

impl Written {
    fn new(alloc: Global) -> Result<Written, AllocError> {
        let text = Vec::with_capacity(alloc, 1000)?;
        let lengths = Vec::with_capacity(alloc, 12)?;
        Ok(Written {
            text,
            lengths,
            made: 0,
            sound: true,
        })
    }

    fn add(&mut self, piece: &Piece<'_>) -> Result<(), AllocError> {
        for chunk in piece.chunks() {
            self.text.extend_from_slice(chunk.bytes())?;
            if let Chunk::Own(_) = chunk {
                self.made = self.made.saturating_add(1);
            }
        }
        self.lengths.push(self.text.len())?;
        Ok(())
    }

    fn note(&mut self, holds: bool) {
        if !holds {
            self.sound = false;
        }
    }

    /// Whether exactly these parts were written.
    fn is_of(&self, parts: &[&[u8]]) -> bool {
        let mut text = self.text.as_slice();
        for part in parts {
            match text.strip_prefix(*part) {
                Some(rest) => text = rest,
                None => return false,
            }
        }
        text.is_empty()
    }

    /// Whether these parts begin with what was written.
    fn begins(&self, parts: &[&[u8]]) -> bool {
        let mut text = self.text.as_slice();
        for part in parts {
            match text.strip_prefix(*part) {
                Some(rest) => text = rest,
                None => return part.starts_with(text),
            }
        }
        text.is_empty()
    }
}

fn joined(alloc: Global, parts: &[&[u8]]) -> Result<Vec<u8>, AllocError> {
    let mut whole = Vec::with_capacity(alloc, 1000)?;
    for part in parts {
        whole.extend_from_slice(part)?;
    }
    Ok(whole)
}

/// Options that keep the nodes under a prefix, and nothing else.
fn include(prefix: &[u8]) -> Asked<'_> {
    Asked {
        side: Side::Include,
        prefix,
        empty: Empty::Pad,
        renumber: false,
        preserve: false,
    }
}

/// The same, but emptied revisions keep their properties.
fn preserve(prefix: &[u8]) -> Asked<'_> {
    Asked {
        preserve: true,
        ..include(prefix)
    }
}

/// The same, but emptied revisions are dropped and the others get new numbers.
fn renumber(prefix: &[u8]) -> Asked<'_> {
    Asked {
        empty: Empty::DropEmptied,
        renumber: true,
        ..include(prefix)
    }
}

fn options(alloc: Global, asked: &Asked<'_>) -> Result<Options, Memory> {
    let prefixes = [asked.prefix];
    let options = match asked.side {
        Side::Include => Options::include(alloc, &prefixes)?,
        Side::Exclude => Options::exclude(alloc, &prefixes)?,
    };
    Ok(
        options
            .with_empty(asked.empty)
            .with_renumber(asked.renumber)
            .with_preserve(asked.preserve),
    )
}

/// The counts of kept and dropped revisions, and of kept and dropped nodes.
fn report(counts: (u64, u64, u64, u64)) -> Report {
    Report {
        revisions_kept: counts.0,
        revisions_dropped: counts.1,
        nodes_kept: counts.2,
        nodes_dropped: counts.3,
        texts_checked: 0,
    }
}

/// Passes the next record through the filter, and writes its piece. The error is `None` if no record is left, and
/// otherwise the fault that closed the filter.
fn pass<'a>(
    alloc: Global,
    cutter: &mut Cutter<'a>,
    filter: &mut Filter<'a, 'a>,
    options: &'a Options,
    out: &mut Written,
) -> Result<(), Option<StepFault>>
    requires options { filter.old.settings ≡ options.now }
    requires dump { IsOfSameDump filter.old cutter.old.dump }
    requires number { cutter.old.number ≡ count_up_to filter.old.last }
    ensures options { OnOk result (filter.new.settings ≡ options.now) }
    ensures dump { OnOk result (IsOfSameDump filter.new cutter.new.dump) }
    ensures number { OnOk result (cutter.new.number ≡ count_up_to filter.new.last) }
{
    let Cut::Item(record) = cutter.next() else {
        return Err(None);
    };
    out.note(filter.expected() == record.number());
    let done = Done::of(record, options);
    match filter.step(alloc, done) {
        Ok(piece) => {
            let added = out.add(&piece).is_ok();
            out.note(added);
            Ok(())
        }
        Err(fault) => {
            out.note(filter.expected() == record.number());
            let again = filter.step(alloc, Done::of(record, options)).err();
            out.note(again == Some(StepFault::Closed));
            Err(Some(fault))
        }
    }
}

/// Passes the first records through the filter, at most eleven.
fn pass_all<'a>(
    alloc: Global,
    dump: &'a [u8],
    filter: &mut Filter<'a, 'a>,
    options: &'a Options,
    out: &mut Written,
) -> Result<(), Option<StepFault>>
    requires { filter.old ≡ first_state options.now }
{
    let mut cutter = Cutter::new(dump);
    for _ in 0..11u32 {
        pass(alloc, &mut cutter, filter, options, out)?;
    }
    Ok(())
}

/// Passes a dump through a filter, up to its end or its first fault.
fn run<'a>(
    alloc: Global,
    dump: &'a [u8],
    options: &'a Options,
    out: &mut Written,
) -> Result<Report, StepFault> {
    let mut filter = Filter::new(alloc, options);
    if let Err(Some(fault)) = pass_all(alloc, dump, &mut filter, options, out) {
        let end = filter.finish(alloc).err();
        out.note(end == Some(StepFault::Closed));
        return Err(fault);
    }
    let (piece, report) = filter.finish(alloc)?;
    let added = out.add(&piece).is_ok();
    out.note(added);
    Ok(report)
}

/// What the filter returns for a dump, and what it writes; `None` if an allocation fails before it begins.
fn outcome(
    alloc: Global,
    asked: &Asked<'_>,
    dump: &[&[u8]],
) -> Option<(Result<Report, StepFault>, Written)> {
    let dump = joined(alloc, dump).ok()?;
    let options = options(alloc, asked).ok()?;
    let mut out = Written::new(alloc).ok()?;
    let answer = run(alloc, &dump, &options, &mut out);
    Some((answer, out))
}

/// Whether the filter rejects a record of this dump as described.
fn is_refused(alloc: Global, refused: &Refused<'_>) -> bool {
    match outcome(alloc, &refused.asked, refused.dump) {
        Some((answer, out)) => {
            answer == Err(StepFault::Rule(refused.kind))
                && out.sound
                && out.lengths.as_slice() == refused.lengths
                && out.is_of(refused.written)
        }
        None => false,
    }
}

#[test]
fn the_laws_can_be_called() {
    written_only_grows();
    keeps_its_own_text();
}
