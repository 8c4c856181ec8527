//! A sink in memory, which fails where a test asks for it.
ghost use Rattle.std.specs.Prelude.{◌≡◌, ◌≤◌, ◌<◌, [], take, length, IfOk, OnErr, Some, true, if◌then◌else◌};
ghost use Rattle.std.specs.Io.KnownBytes.{Appends, Keeps};
ghost use Rattle.dump_writer.specs.steps.SinkCalls.{CountsFailure};
ghost use Rattle.dump_writer.specs.steps.SinkStates.{MemoryStep, before_trouble, trouble_after};

use crate::sink::{Sink, SinkDown};
use std::alloc::Global;
use std::marker::Model;

/// Where a sink in memory fails: nowhere, or after it has taken a number of bytes, once or at each call.
#[derive(Clone, Copy, Debug, PartialEq, Eq)]
pub enum Trouble {
    /// Nowhere.
    Never,
    /// Once, after it has taken this many bytes.
    Once(u64),
    /// At each call after it has taken this many bytes.
    From(u64),
}

impl Trouble {
    /// How many of the next `count` bytes a sink takes before it fails, if it has taken `taken` bytes.
    fn before(self, taken: usize, count: usize) -> usize
        ensures { result ≡ before_trouble self taken count }
    {
        match self {
            Trouble::Never => count,
            Trouble::Once(total) | Trouble::From(total) => {
                let left = total.saturating_sub(taken as u64);
                (count as u64).min(left) as usize
            }
        }
    }

    /// The trouble that remains after it has occurred.
    fn after(self) -> Trouble
        ensures { result ≡ trouble_after self true }
    {
        match self {
            Trouble::Never | Trouble::Once(_) => Trouble::Never,
            Trouble::From(total) => Trouble::From(total),
        }
    }
}

/// A sink that keeps what it takes.
#[derive(Drop)]
pub struct MemorySink {
    bytes: Vec<u8>,
    most: usize,
    trouble: Trouble,
    failures: u64,
}

impl Model for MemorySink {
    ghost use Rattle.dump_writer.specs.steps.SinkStates.{MemoryState};

    ghost Value = { MemoryState };

    ghost view = { λ m. record {
      taken = m.bytes.items;
      most = m.most;
      trouble = m.trouble;
      failures = m.failures;
    } };
}

impl MemorySink {
    /// An empty sink that takes at most `most` bytes in a call, and fails as `trouble` says. It allocates nothing.
    pub fn new(alloc: Global, most: usize, trouble: Trouble) -> MemorySink
        requires { 1 ≤ most }
        ensures { result ≡ record { taken = []; most = most; trouble = trouble; failures = 0 } }
    {
        MemorySink {
            bytes: Vec::new(alloc),
            most,
            trouble,
            failures: 0,
        }
    }

    /// The bytes that it has taken.
    pub fn taken(&self) -> &[u8]
        ensures { result.now ≡ self.entry.now.taken }
    {
        self.bytes.as_slice()
    }
}

impl Sink for MemorySink {
    ghost taken = { λ m. Some m.taken };

    ghost failure_count = { λ m. m.failures };

    fn accept(&mut self, bytes: &[u8]) -> Result<usize, SinkDown>
        ensures most { IfOk result (λ n. n ≤ length bytes.now) }
        ensures some { IfOk result (λ n. 0 < length bytes.now → 0 < n) }
        ensures empty { bytes.now ≡ [] → result ≡ Ok 0 }
        ensures taken { IfOk result (λ n.
            Appends (Some self.old.taken) (Some self.new.taken) (take n bytes.now)) }
        ensures no_failure { IfOk result (λ _. self.new.failures ≡ self.old.failures) }
        ensures untaken { OnErr result (Keeps (Some self.old.taken) (Some self.new.taken)) }
        ensures counted { OnErr result (CountsFailure self.old.failures self.new.failures) }
        ensures step { MemoryStep self.old bytes.now result self.new }
    {
        if bytes.is_empty() {
            return Ok(0);
        }
        let count = bytes.len().min(self.most);
        let share = self.trouble.before(self.bytes.len(), count);
        if share == 0 {
            self.trouble = self.trouble.after();
            self.failures = self.failures.saturating_add(1);
            return Err(SinkDown);
        }
        match self.bytes.extend_from_slice(&bytes[..share]) {
            Ok(()) => Ok(share),
            Err(_) => {
                self.failures = self.failures.saturating_add(1);
                Err(SinkDown)
            }
        }
    }

    fn failures(&self) -> u64 {
        self.failures
    }
}
