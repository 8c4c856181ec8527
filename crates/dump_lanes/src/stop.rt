//! The stop word and its seats.
ghost use Rattle.std.specs.Prelude.{◌≡◌, ◌<◌, ◌%◌, [], true, IfOk, IsTrue};
ghost use Rattle.dump_lanes.specs.steps.StopSeats.{Seat as SeatMarks, first_seat, half_seat, joined_seat, SeesOnlyRaised};
ghost use Rattle.atomic_table.specs.Seated.{TableId};

use crate::ends::Memory;
use atomic_table::{Seat, Table};
use std::alloc::Global;
use std::marker::Model;

mod protocol;

use protocol::{Checks, Halves, Looks, Marks, Raises, UpWhereRaised};

/// A word that tells threads to stop. They raise and read it from seats, one for each thread.
#[derive(Drop)]
pub struct StopWord {
    table: Table<(), Marks, (), UpWhereRaised, Global>,
    ghost one_word: { table.shared.table_id.words ≡ 1 },
}

impl Model for StopWord {
    ghost Value = { TableId };

    ghost view = { λ w. w.table.shared.table_id };
}

/// A seat from which one thread raises the stop word and reads it.
#[derive(Drop)]
pub struct StopSeat {
    seat: Seat<(), Marks>,
}

impl Model for StopSeat {
    ghost Value = { SeatMarks };

    ghost view = { λ s. record {
      word = s.seat.table_id;
      raised = s.seat.me.0.raised;
      seen = s.seat.me.0.seen;
      share = s.seat.me.0.share;
    } };

    ghost invariant = { λ s. (0 < s.seat.me.0.share) × (s.seat.me.1 ≡ []) };
}

impl StopWord {
    /// Makes a word that is not raised, and its first seat.
    pub fn new(alloc: Global) -> Result<(StopWord, StopSeat), Memory>
        ensures { IfOk result (λ made. made.1 ≡ first_seat made.0) }
    {
        let (table, seat) = Table::of_words(alloc, &[0], &())?;
        Ok((StopWord { table }, StopSeat { seat }))
    }

    /// Makes two seats of one, for two threads.
    pub fn split(&self, seat: StopSeat) -> (StopSeat, StopSeat)
        requires this_word { seat.word ≡ self.now }
        requires even { seat.share % 2 ≡ 0 }
        ensures left { result.0 ≡ half_seat seat }
        ensures right { result.1 ≡ half_seat seat }
    {
        let StopSeat { mut seat } = seat;
        let other = self.table.shared.split_seat::<Halves>(&mut seat);
        (StopSeat { seat }, StopSeat { seat: other })
    }

    /// Makes one seat of two, after their threads have ended.
    pub fn join(&self, left: StopSeat, right: StopSeat) -> StopSeat
        requires left { left.word ≡ self.now }
        requires right { right.word ≡ self.now }
        ensures joined { result ≡ joined_seat left right }
        ensures whole { SeesOnlyRaised result }
    {
        let StopSeat { mut seat } = left;
        let StopSeat { seat: other } = right;
        self.table.shared.join_seat::<Halves>(&mut seat, other);
        self.table.shared.load::<Checks>(&mut seat, 0);
        StopSeat { seat }
    }

    /// Raises the word. Nothing clears it.
    pub fn raise(&self, seat: &mut StopSeat)
        requires { seat.old.word ≡ self.now }
        ensures { seat.new ≡ record seat.old { raised = true } }
    {
        self.table.shared.store::<Raises>(&mut seat.seat, 0, 1);
    }

    /// Whether the word is raised. A seat that raised it sees this; no contract says how soon another seat does.
    pub fn look(&self, seat: &mut StopSeat) -> bool
        requires { seat.old.word ≡ self.now }
        ensures seen { seat.new ≡ record seat.old { seen = result } }
        ensures own { IsTrue seat.old.raised → IsTrue result }
        ensures before { IsTrue seat.old.seen → IsTrue result }
        ensures whole { SeesOnlyRaised seat.new }
    {
        self.table.shared.load::<Looks>(&mut seat.seat, 0) == 1
    }
}
