//! Why a delta is not applied.
ghost use Rattle.std.specs.Prelude.{◌≡◌};
ghost use Rattle.svndiff.specs.declared.error.NotApplied.TheVariants as errors;

use std::alloc::AllocError;

/// What is wrong with a delta.
#[derive(Clone, Copy, Debug, PartialEq, Eq)]
pub enum Defect {
    /// It doesn't begin as svndiff does.
    Header,
    /// It is compressed: svndiff of version 1 or 2, which neither `svnadmin dump` nor `svnrdump dump` writes.
    Compressed,
    /// A number of a window's head goes on at the end of the delta, or after ten bytes.
    Number,
    /// A window states an offset from 2^63 on, or a view of more than 100 KB.
    Large,
    /// A window states more instructions and new data than follow.
    Cut,
    /// A source view slides back, or goes on after the end of the old text.
    View,
    /// An instruction can't be read.
    Instruction,
    /// An instruction appends nothing, or too much, or copies from where nothing is.
    Copy,
    /// The instructions make a target that is too short, or leave new data unused.
    Target,
}

/// Why a delta is not applied.
#[derive(Clone, Copy, Debug, PartialEq, Eq)]
pub enum NotApplied {
    /// The delta is wrong at this byte of it. For a window's own defects this is its first byte.
    Broken { defect: Defect, place: usize },
    /// An allocation failed.
    Memory,
}

impl From<AllocError> for NotApplied {
    ghost from_gives = { λ _ r. r ≡ errors.Memory };

    fn from(_error: AllocError) -> NotApplied {
        NotApplied::Memory
    }
}
