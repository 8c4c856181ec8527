//! Types that take bytes, and how they may fail.
ghost use Rattle.std.specs.Prelude.{◌≡◌, ◌≤◌, ◌<◌, [], ℕ, List, take, length, Option, None, IfOk, OnErr};
ghost use Rattle.std.specs.Io.KnownBytes.{Appends, Keeps};
ghost use Rattle.dump_writer.specs.steps.SinkCalls.{CountsFailure, Loan};

/// The sink failed, and took none of the bytes.
#[derive(Clone, Copy, Debug, PartialEq, Eq)]
pub struct SinkDown;

/// A piece wasn't written completely.
#[derive(Clone, Copy, Debug, PartialEq, Eq)]
pub struct SinkFault {
    /// How many of its first bytes the sink took; the count doesn't go above `u64::MAX`.
    pub written: u64,
}

/// A type that takes bytes.
pub trait Sink {
    /// The bytes that it has taken, if the type knows them; a pipe doesn't.
    ghost taken: { Self → Option (List ℕ) };

    /// How often it has failed; the count doesn't go above `u64::MAX`.
    ghost failure_count: { Self → ℕ };

    /// The borrowed writer to which it writes, and what this held at first, if there is one. Neither changes.
    ghost through: { Self → Option Loan } = { λ _. None };

    /// Takes the first of the bytes, at least one if there are any.
    fn accept(&mut self, bytes: &[u8]) -> Result<usize, SinkDown>
        ensures most { IfOk result (λ n. n ≤ length bytes.now) }
        ensures some { IfOk result (λ n. 0 < length bytes.now → 0 < n) }
        ensures empty { bytes.now ≡ [] → result ≡ Ok 0 }
        ensures taken { IfOk result (λ n.
            Appends (taken self.old) (taken self.new) (take n bytes.now)) }
        ensures no_failure { IfOk result (λ _. failure_count self.new ≡ failure_count self.old) }
        ensures untaken { OnErr result (Keeps (taken self.old) (taken self.new)) }
        ensures counted { OnErr result
            (CountsFailure (failure_count self.old) (failure_count self.new)) }
        ensures through { through self.new ≡ through self.old };

    /// How often it has failed.
    fn failures(&self) -> u64
        ensures { result ≡ failure_count self.now };
}
