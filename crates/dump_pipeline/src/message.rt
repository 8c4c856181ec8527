//! The messages between a run's threads, and what the type of each says.
//!
//! A contract of a queue doesn't say where an entry comes from. So the type of a message says that it belongs to this
//! run: a job is an item of this dump, and a checked item has its verdict under these options. No message has a number
//! in addition to a record, which has its own.
ghost use Rattle.std.specs.Prelude.{◌≡◌, ◌+◌, ◌<◌, ◌≤◌, ◌^◌, ℕ, List, length, Ok, Err};
ghost use Rattle.std.specs.Result.{ForOk, ForErr};
ghost use Rattle.dump_records.specs.steps.CutRecords.{EndsAfter};
ghost use Rattle.dump_records.specs.steps.RecordViews.{record_dump, record_number};
ghost use Rattle.dump_digest.specs.steps.DoneViews.{done_record, done_settings};
ghost use Rattle.dump_rules.specs.Settings.{Settings};
ghost use Rattle.dump_pipeline.specs.steps.Endings.{ending_of};

use crate::gate::Gate;
use dump_digest::Done;
use dump_lanes::Credit;
use dump_records::Record;
use dump_rules::Options;
use dump_text::FaultKind;
use dump_writer::Piece;
use std::marker::{Brand, PhantomData};
use std::snapshot::Snapshot;

/// The dump and the options of a run, to which all of its messages belong.
pub trait Run {
    /// The dump.
    ghost dump: { List ℕ };

    /// The options.
    ghost settings: { Settings };
}

impl Run for Brand {
    ghost use Rattle.std.specs.Prelude.{[]};
    ghost use Rattle.dump_rules.specs.PlainSettings.{plain_settings};
    ghost use Rattle.dump_rules.specs.declared.options.Side.{Side as Sides};

    ghost dump = { [] };

    ghost settings = { plain_settings Sides.Include [] };
}

/// How the list of records ends: the fault and its place, or `None` if it ends with the dump.
pub type Last = Option<(FaultKind, usize)>;

/// The last item of a run: how the list of records ends, after this many of them.
#[derive(Clone, Copy)]
pub struct LastWord {
    pub number: u64,
    pub end: Last,
}

/// An item of this run on its way to a worker: a record, or the last item after all records.
#[derive(Drop)]
pub struct Job<'a, D: Run> {
    pub what: Result<Record<'a>, LastWord>,
    pub credit: Credit,
    of: PhantomData<D>,
    pub ghost item: { ForOk what (λ r. record_dump r ≡ D.dump) },
    pub ghost last: { ForErr what (λ word. ∥ EndsAfter D.dump word.number (ending_of word.end) ∥₁) },
    pub ghost counted: { ForErr what (λ word. word.number + 1 < 2 ^ 64) },
}

/// The same item on its way to the sequencer, with its record checked.
#[derive(Drop)]
pub struct Checked<'a, D: Run> {
    pub what: Result<Done<'a>, LastWord>,
    pub credit: Credit,
    of: PhantomData<D>,
    pub ghost item: { ForOk what (λ d. (record_dump (done_record d) ≡ D.dump) × (done_settings d ≡ D.settings)) },
    pub ghost last: { ForErr what (λ word. ∥ EndsAfter D.dump word.number (ending_of word.end) ∥₁) },
    pub ghost counted: { ForErr what (λ word. word.number + 1 < 2 ^ 64) },
}

/// What is written for an item, on its way to the writer. Only its type says its number.
#[derive(Drop)]
pub struct NumberedPiece<'a> {
    pub number: Snapshot<u64>,
    pub piece: Piece<'a>,
    pub credit: Credit,
}

impl<'a, D: Run> Job<'a, D> {
    ghost use Rattle.dump_pipeline.specs.steps.Messages.{job_number};

    /// The job of a record.
    pub fn item(item: Record<'a>, credit: Credit) -> Job<'a, D>
        requires { record_dump item ≡ D.dump }
        ensures { job_number result ≡ record_number item.entry }
    {
        Job {
            what: Ok(item),
            credit,
            of: PhantomData,
        }
    }

    /// The job of the last item, after this many records.
    pub fn last(number: u64, end: Last, credit: Credit) -> Job<'a, D>
        requires ends { ∥ EndsAfter D.dump number (ending_of end) ∥₁ }
        requires few { number + 1 < 2 ^ 64 }
        ensures { job_number result ≡ number }
    {
        Job {
            what: Err(LastWord { number, end }),
            credit,
            of: PhantomData,
        }
    }
}

impl<'a, D: Run> Checked<'a, D> {
    ghost use Rattle.dump_pipeline.specs.steps.Messages.{checked_number, job_number};

    /// Its number in the dump, from 0.
    pub fn number(&self) -> u64
        ensures number { result ≡ checked_number self.now }
        ensures counted { result + 1 < 2 ^ 64 }
    {
        match &self.what {
            Ok(done) => done.item().number(),
            Err(last) => last.number,
        }
    }

    /// Calls the gate, and then checks the record of a job. The last item needs no check.
    pub fn of<G: Gate>(job: Job<'a, D>, options: &'a Options, gate: &G) -> Checked<'a, D>
        requires { options.now ≡ D.settings }
        ensures { checked_number result ≡ job_number job.entry }
    {
        let Job { what, credit, of } = job;
        let what = match what {
            Ok(record) => {
                gate.pass(record.number());
                Ok(Done::of(record, options))
            }
            Err(last) => Err(last),
        };
        Checked { what, credit, of }
    }
}
