//! Credits, and how the cutter draws them.
ghost use Rattle.std.specs.Prelude.{◌≡◌, true, []};
ghost use Rattle.crossbeam_queue.specs.Passes.{view, IsSamePass, IsPassOf};
ghost use Rattle.dump_lanes.specs.steps.CreditQueue.{first_purse};
ghost use Rattle.dump_lanes.specs.steps.CreditViews.{HasDrawn, is_stop};
ghost use Rattle.dump_lanes.specs.steps.StopSeats.{SeesOnlyRaised};

use super::bell::{Bells, Patience};
use super::credits::{AddsFirst, CreditQueue, Draws, Purse, Token};
use super::waiting::push;
use crate::stop::{StopSeat, StopWord};
use crossbeam_queue::Pass;
use std::snapshot::Snapshot;
use std::sync::Wait;
use std::time::Duration;

/// How many milliseconds the cutter sleeps before it reads the stop word again, since no bell rings for the stop.
const LOOK_AGAIN: u64 = 2;

/// A place in the window, for one item. Only `JobPort::draw` makes one, and `CreditPort::back` takes it back.
#[derive(Drop)]
pub struct Credit {
    drawn_by: Snapshot<Pass<Token, Purse>>,
}

/// The result of a draw.
#[derive(Drop)]
pub enum Drawn {
    Credit(Credit),

    /// The stop was seen, and no credit was drawn.
    Stop,
}

/// Puts the credits that are there at the beginning.
pub fn put_first<R: Wait>(
    rt: &R,
    queue: &CreditQueue,
    bells: &Bells,
    pass: &mut Pass<Token, Purse>,
    count: usize,
)
    requires pass { IsPassOf queue.now pass.old }
    requires first { view pass.old ≡ first_purse 0 }
    ensures pass { IsSamePass pass.old pass.new }
    ensures put { view pass.new ≡ first_purse count }
{
    for _ in 0..count {
        push::<AddsFirst, _, _, _, R>(rt, queue, bells, pass, Token);
    }
}

/// Draws a credit, unless it sees the stop first.
pub fn draw_from<R: Wait>(
    rt: &R,
    queue: &CreditQueue,
    bells: &Bells,
    pass: &mut Pass<Token, Purse>,
    word: &StopWord,
    seat: &mut StopSeat,
) -> Drawn
    requires pass { IsPassOf queue.now pass.old }
    requires draws { (view pass.old).draws ≡ true }
    requires this_word { seat.old.word ≡ word.now }
    ensures pass { IsSamePass pass.old pass.new }
    ensures drawn { HasDrawn pass.old result pass.new }
    ensures seen { seat.new ≡ record seat.old { seen = is_stop result } }
    ensures whole { SeesOnlyRaised seat.new }
{
    let mut patience = Patience::new();
    for _ in rt.forever() {
        if word.look(seat) {
            return Drawn::Stop;
        }
        match queue.pop_as::<Draws, R>(rt, pass) {
            Some(_) => {
                bells.takes.ring();
                return Drawn::Credit(Credit {
                    drawn_by: Snapshot::of(pass),
                });
            }
            None => {
                let most = Some(Duration::from_millis(LOOK_AGAIN));
                bells.puts.wait(rt, &mut patience, most);
            }
        }
    }
    unreachable!()
}
