//! The result of a run.
use dump_filter::Report;
use dump_text::FaultKind;

/// Why a run stopped before its end.
#[derive(Clone, Copy, Debug, PartialEq, Eq)]
pub enum Failure {
    /// The sink failed.
    Sink,
    /// An allocation failed.
    Memory,
    /// A thread wasn't started.
    Threads,
}

/// The result of a run.
#[derive(Clone, Copy, Debug, PartialEq, Eq)]
pub enum Answer {
    /// The dump has no fault.
    Clean(Report),
    /// The first record with a fault: its number, and the byte of the dump at which it begins.
    Fault {
        kind: FaultKind,
        number: u64,
        place: usize,
    },
    /// The run was stopped after it had written this many bytes. The count doesn't go above `u64::MAX`.
    Failed {
        failure: Failure,
        written: u64,
    },
}
