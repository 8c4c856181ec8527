//! The protocol of the stop word, over a table of one word.
//!
//! 1. The word is 0 at first. It is 1 once a seat has raised it, and then stays 1.
//! 2. Each seat stores whether it raised the word, and whether it saw the word raised.
//! 3. The word is 1 exactly if some seat stores that it raised it. A seat stores that it saw the word raised only if
//!    the word is 1.
//! 4. There is one history of steps. Each step belongs to one event of the pool: a raise, or a look with its result.
//!    The history leads to the present value of the word, and consists of exactly the steps that the seats made.
//! 5. Each seat has a share, and the shares add up to 4. A split halves a share, and a join adds two.
//! 6. A seat with the whole share has the marks of all seats. So if it stores that the word was seen raised, it stores
//!    that the word was raised.
use atomic_table::{Join, Play, Split, TableRule};
use std::collections::LinkedList;

/// A step on the word. It is only used as a type; the program makes no value of it.
pub enum WordStep {
    Raise,
    Look(bool),
}

/// What a seat stores about the word. It is only used as a type; the program makes no value of it.
pub struct Marks {
    pub share: u64,
    pub raised: bool,
    pub seen: bool,
    pub steps: LinkedList<WordStep>,
}

/// The rule: the word is raised exactly if some seat raised it, and each step belongs to an event.
pub struct UpWhereRaised;

impl TableRule<(), Marks, ()> for UpWhereRaised {
    ghost use Rattle.std.specs.Prelude.{false, []};
    ghost use Rattle.dump_lanes.specs.steps.StopMarks.{marks, IsStop};

    ghost holds = { λ _. IsStop };

    ghost first = { λ _. marks 4 false false [] };
}

/// A seat raises the word. The event is `SequencerRaises` or `WriterRaises`.
pub struct Raises;

impl Play<(), Marks> for Raises {
    ghost use Rattle.std.specs.Prelude.{◌≡◌};
    ghost use Rattle.dump_lanes.specs.steps.StopMarks.{after_raise};

    ghost then = { λ step old n new. new ≡ (after_raise old.0, old.1) };
}

/// A seat reads the word, and stores whether it is raised. The event is `Look`.
pub struct Looks;

impl Play<(), Marks> for Looks {
    ghost use Rattle.dump_lanes.specs.steps.StopMarks.{HasLooked};

    ghost then = { λ step old n new. HasLooked old n new };
}

/// A seat finds out what its share says about its marks and steps. It stores nothing.
pub struct Checks;

impl Play<(), Marks> for Checks {
    ghost use Rattle.dump_lanes.specs.steps.StopMarks.{HasChecked};

    ghost then = { λ step old n new. HasChecked old new };
}

/// A seat is split into two, each with half the share.
pub struct Halves;

impl Split<Marks> for Halves {
    ghost use Rattle.dump_lanes.specs.steps.StopMarks.{left_half, right_half};

    ghost left = { left_half };

    ghost right = { right_half };
}

impl Join<Marks> for Halves {
    ghost use Rattle.dump_lanes.specs.steps.StopMarks.{joined_marks, spent};

    ghost both = { joined_marks };

    ghost spent = { spent };
}
