//! A hook that the workers call; tests use it to delay or count records.

/// A hook that a worker calls before it checks the record with this number.
pub trait Gate: Sync {
    /// Returns as soon as the worker may check the record.
    fn pass(&self, number: u64);
}

/// The gate that does nothing.
#[derive(Clone, Copy, Debug, PartialEq, Eq)]
pub struct FreeGate;

impl Gate for FreeGate {
    fn pass(&self, _number: u64) {}
}
