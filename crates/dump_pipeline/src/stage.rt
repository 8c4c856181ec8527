//! The state of the sequencer.
ghost use Rattle.std.specs.Prelude.{◌≡◌};
ghost use Rattle.dump_pipeline.specs.steps.Parts.{end_answer, stage_end};

use crate::answer::{Answer, Failure};
use dump_filter::{Filter, Report};
use dump_text::FaultKind;

/// How the sequencer ended.
#[derive(Clone, Copy)]
pub enum End {
    /// It took the last item, and the dump has no fault.
    Clean(Report),
    /// The first record with a fault.
    Fault {
        kind: FaultKind,
        number: u64,
        place: usize,
    },
    /// An allocation failed.
    Memory,
}

impl End {
    /// The answer of a run whose sequencer ended in this way, if the sink took all of its bytes.
    pub fn answer(self, written: u64) -> Answer
        ensures { result ≡ end_answer self written }
    {
        match self {
            End::Clean(report) => Answer::Clean(report),
            End::Fault {
                kind,
                number,
                place,
            } => Answer::Fault {
                kind,
                number,
                place,
            },
            End::Memory => Answer::Failed {
                failure: Failure::Memory,
                written,
            },
        }
    }
}

/// The state of the sequencer.
#[derive(Drop)]
pub enum Stage<'o, 'a> {
    Going(Filter<'o, 'a>),
    Ended(End),
}

impl<'o, 'a> Stage<'o, 'a> {
    /// How it ended, if it did.
    pub fn end(self) -> Option<End>
        ensures { result ≡ stage_end self.entry }
    {
        match self {
            Stage::Going(_) => None,
            Stage::Ended(end) => Some(end),
        }
    }
}
