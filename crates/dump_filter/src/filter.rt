//! The filter takes the records of a dump one after another, and returns what is written for each.
use crate::decide::decide;
use crate::state::{Report, State};
use dump_digest::Done;
use dump_rules::Options;
use dump_text::FaultKind;
use dump_writer::Piece;
use std::alloc::Global;
use std::marker::Model;

/// Why a step returns no piece.
#[derive(Clone, Copy, Debug, PartialEq, Eq)]
pub enum StepFault {
    /// The record has this fault.
    Rule(FaultKind),
    /// An allocation failed.
    Memory,
    /// An earlier step failed.
    Closed,
}

/// Filters the records of a dump, one after another. It holds back a revision until a node of it is kept or its group
/// ends.
#[derive(Drop)]
pub struct Filter<'o, 'a> {
    options: &'o Options,
    state: State<'a>,
    active: bool,
}

impl<'o, 'a> Model for Filter<'o, 'a> {
    ghost use Rattle.std.specs.Prelude.{◌≡◌, true, option_map};
    ghost use Rattle.dump_records.specs.steps.RecordViews.{record_dump, record_number};
    ghost use Rattle.dump_filter.specs.steps.FilterState.{FilterState};
    ghost use Rattle.dump_filter.specs.steps.State.{view_state};
    ghost use Rattle.dump_filter.specs.steps.Knowledge.{KnowsAccepted};

    ghost Value = { FilterState };

    ghost view = { λ f. record {
      settings = f.options.now;
      last = option_map (λ r. record { dump = record_dump r; number = record_number r }) f.state.last;
      active = f.active;
    } };

    ghost invariant = { λ f. f.active ≡ true → KnowsAccepted f.options.now f.state.last (view_state f.state) };
}

impl<'o, 'a> Filter<'o, 'a> {
    ghost use Rattle.std.specs.Prelude.{◌≡◌, ◌↔◌, ◌⊎◌, ◌<◌, ◌+◌, ◌^◌, List, Some, IfOk, IfErr, OnOk, OnErr, IsTrue, IsFalse, false};
    ghost use Rattle.dump_text.specs.declared.fault.FaultKind.{FaultKind as Kind};
    ghost use Rattle.dump_records.specs.RecordText.{DumpRecord};
    ghost use Rattle.dump_records.specs.steps.RecordViews.{record_dump, record_number, record_item};
    ghost use Rattle.dump_digest.specs.steps.DoneViews.{done_record, done_settings};
    ghost use Rattle.dump_filter.specs.steps.FilterState.{first_state, count_up_to, IsOfSameDump, AreAccepted, Accepts, Refuses, Finishes};
    ghost use Rattle.dump_filter.specs.Counts.{report_of};

    /// A filter that has accepted no record. It allocates nothing.
    pub fn new(alloc: Global, options: &'o Options) -> Filter<'o, 'a>
        ensures { result ≡ first_state options.now }
    {
        Filter {
            options,
            state: State::new(alloc),
            active: true,
        }
    }

    /// The number that the next record must have.
    pub fn expected(&self) -> u64
        ensures { result ≡ count_up_to self.now.last }
    {
        match &self.state.last {
            Some(last) => last.number() + 1,
            None => 0,
        }
    }

    /// Takes the next record, and returns what is written for it. If the record has a fault, this is reported even if
    /// memory runs out too. After a failure each call returns `Closed`.
    pub fn step(&mut self, alloc: Global, done: Done<'a>) -> Result<Piece<'a>, StepFault>
        requires options { done_settings done ≡ self.old.settings }
        requires dump { IsOfSameDump self.old (record_dump (done_record done)) }
        requires number { record_number (done_record done) ≡ count_up_to self.old.last }
        ensures piece { IfOk result (λ piece. Accepts self.old (record_item (done_record done.entry)) piece) }
        ensures accepted { OnOk result (self.new ≡ record self.old {
          last = Some (record {
            dump = record_dump (done_record done.entry);
            number = record_number (done_record done.entry);
          });
        }) }
        ensures closed { (result ≡ Err StepFault.Closed) ↔ IsFalse self.old.active }
        ensures rule { (kind : Kind) → (result ≡ Err (StepFault.Rule kind))
            ↔ (IsTrue self.old.active × Refuses self.old (record_item (done_record done.entry)) kind) }
        ensures err { OnErr result (self.new ≡ record self.old { active = false }) }
    {
        if !self.active {
            return Err(StepFault::Closed);
        }
        let fate = match decide(self.options, &self.state, &done) {
            Ok(fate) => fate,
            Err(kind) => {
                self.active = false;
                return Err(StepFault::Rule(kind));
            }
        };
        let Ok(piece) = self.state.advance(alloc, self.options, done, fate) else {
            self.active = false;
            return Err(StepFault::Memory);
        };
        Ok(piece)
    }

    /// Ends the dump: returns the last piece that is written, and the counts.
    pub fn finish(self, alloc: Global) -> Result<(Piece<'a>, Report), StepFault>
        ensures piece { IfOk result (λ end. Finishes self.entry end.0) }
        ensures report { IfOk result (λ end. (records : List DumpRecord) → AreAccepted self.entry records
            → end.1 ≡ report_of self.entry.settings records) }
        ensures closed { (result ≡ Err StepFault.Closed) ↔ IsFalse self.entry.active }
        ensures no_rule { IfErr result (λ e. (e ≡ StepFault.Closed) ⊎ (e ≡ StepFault.Memory)) }
    {
        if !self.active {
            return Err(StepFault::Closed);
        }
        let mut state = self.state;
        let Ok(piece) = state.end_group(alloc, self.options) else {
            return Err(StepFault::Memory);
        };
        Ok((piece, state.report))
    }
}
