//! The protocol of the queue of credits, from the writer back to the cutter.
//!
//! 1. The queue holds a token for each free credit; at first as many are put as the window is wide.
//! 2. There is one history of steps. Each step belongs to one event of the pool, and moves one credit. The history
//!    leads from the credits that were put at first to those that are free.
//! 3. The cutter's pass knows exactly the draws in the history, and the writer's pass exactly the credits that it gave
//!    back.
//! 4. So the credits that were there at first or came back are those that were drawn or are free.
//! 5. When the two passes are joined, they know all steps: no more credits were drawn than were there at first and
//!    came back.
use crate::steps::Step;
use crossbeam_queue::RuledArrayQueue;
use crossbeam_queue::protocol::{Join, Lesson, Outcome, Protocol, Split};
use std::collections::LinkedList;

/// The queue of credits.
pub type CreditQueue = RuledArrayQueue<Token, Purse, CreditShares>;

/// A free credit.
#[derive(Drop)]
pub struct Token;

/// What a pass may do and which steps it knows. It is only used as a type; the program makes no value of it.
pub struct Purse {
    pub draws: bool,
    pub gives: bool,
    pub first: u64,
    pub drawn: u64,
    pub back: u64,
    pub steps: LinkedList<Step<()>>,
}

/// The rule: each step on the queue belongs to the event that its pass stores.
pub struct CreditShares;

impl Protocol<Token, Purse> for CreditShares {
    ghost use Rattle.dump_lanes.specs.steps.CreditQueue.{first_purse, IsCreditQueue};

    ghost holds = { IsCreditQueue };

    ghost first = { first_purse 0 };
}

/// The first pass is split into two: the left one draws, and the right one gives back.
pub struct CreditRoles;

impl Split<Purse> for CreditRoles {
    ghost use Rattle.dump_lanes.specs.steps.CreditQueue.{cutter_purse, writer_purse};

    ghost left = { cutter_purse };

    ghost right = { writer_purse };
}

impl Join<Purse> for CreditRoles {
    ghost use Rattle.dump_lanes.specs.steps.CreditQueue.{joined_purse, spent_purse};

    ghost both = { joined_purse };

    ghost spent = { spent_purse };
}

/// Adds a credit at the beginning, which is no event.
pub struct AddsFirst;

impl Outcome<Token, Purse> for AddsFirst {
    ghost use Rattle.std.specs.Prelude.{◌≡◌};
    ghost use Rattle.dump_lanes.specs.steps.CreditQueue.{after_first};

    ghost then = { λ v x w. w ≡ after_first v };
}

impl Lesson<Token, Purse> for AddsFirst {
    ghost fact = { λ v items. Unit {0} };
}

/// Draws a credit. The event is `Draw`.
pub struct Draws;

impl Outcome<Token, Purse> for Draws {
    ghost use Rattle.std.specs.Prelude.{◌≡◌};
    ghost use Rattle.dump_lanes.specs.steps.CreditQueue.{after_draw};

    ghost then = { λ v x w. w ≡ after_draw v };
}

impl Lesson<Token, Purse> for Draws {
    ghost fact = { λ v items. Unit {0} };
}

/// Gives a credit back. The event is `Give`.
pub struct Gives;

impl Outcome<Token, Purse> for Gives {
    ghost use Rattle.std.specs.Prelude.{◌≡◌};
    ghost use Rattle.dump_lanes.specs.steps.CreditQueue.{after_back};

    ghost then = { λ v x w. w ≡ after_back v };
}

impl Lesson<Token, Purse> for Gives {
    ghost fact = { λ v items. Unit {0} };
}

/// What a pass that both draws and gives back finds out.
pub struct AllCredits;

impl Lesson<Token, Purse> for AllCredits {
    ghost use Rattle.std.specs.Prelude.{◌≤◌, ◌+◌, length};
    ghost use Rattle.dump_lanes.specs.steps.CreditQueue.{KnowsSteps};

    ghost fact = { λ v items. (v.drawn ≤ v.first + v.back) × KnowsSteps v (length items) };
}
