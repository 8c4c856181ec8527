//! The steps of a pool's threads on what they share, as their passes store them. They are only used as types; the
//! program makes no values of them.

/// The event of a step.
pub enum Move {
    Cut,
    CutMark,
    Take(u64),
    Put(u64),
    Arrive,
    Draw,
    Give,
    Release,
    Write,
}

/// A step: its event, and the entry that it puts or takes.
pub struct Step<E> {
    pub event: Move,
    pub entry: E,
}
