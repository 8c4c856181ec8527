//! A sink over a writer that it owns.
ghost use Rattle.std.specs.Prelude.{◌≡◌, ◌≤◌, ◌<◌, [], take, length, IfOk, OnErr, OnOk};
ghost use Rattle.std.specs.Io.KnownBytes.{Appends, Keeps, GrowsBy};
ghost use Rattle.dump_writer.specs.steps.SinkCalls.{CountsFailure};
ghost use Rattle.dump_writer.specs.steps.SinkStates.{OutStep, new_out_state};

use crate::counted::{Counts, flush_counted, write_counted};
use crate::sink::{Sink, SinkDown};
use std::io::Write;
use std::marker::Model;
use std::snapshot::Snapshot;

/// A sink over a writer that it owns.
#[derive(Drop)]
pub struct Out<W: Write> {
    writer: W,
    start: Snapshot<W>,
    counts: Counts,
}

impl<W: Write> Model for Out<W> {
    ghost use Rattle.std.specs.Io.KnownBytes.{GrowsBy};
    ghost use Rattle.dump_writer.specs.steps.SinkStates.{OutState};

    ghost Value = { OutState };

    ghost view = { λ o. record {
      start = W.contents o.start.value;
      taken = W.contents o.writer;
      written = o.counts.written;
      failures = o.counts.failures;
    } };

    ghost invariant = { λ o.
        GrowsBy (W.contents o.start.value) (W.contents o.writer) o.counts.written };
}

impl<W: Write> Out<W> {
    /// A sink over this writer, which has taken nothing so far. It allocates nothing.
    pub fn new(writer: W) -> Out<W>
        ensures { result ≡ new_out_state (W.contents writer) }
    {
        Out {
            start: Snapshot::of(&writer),
            writer,
            counts: Counts::new(),
        }
    }

    /// How many bytes it has taken; the count doesn't go above `u64::MAX`.
    pub fn written(&self) -> u64
        ensures count { result ≡ self.now.written }
        ensures grown { GrowsBy self.now.start self.now.taken result }
    {
        self.counts.written
    }

    /// Flushes the writer, once. An error counts as one more failure.
    pub fn flush(&mut self) -> Result<(), SinkDown>
        ensures start { self.new.start ≡ self.old.start }
        ensures taken { Keeps self.old.taken self.new.taken }
        ensures written { self.new.written ≡ self.old.written }
        ensures no_failure { OnOk result (self.new.failures ≡ self.old.failures) }
        ensures counted { OnErr result (CountsFailure self.old.failures self.new.failures) }
    {
        flush_counted(&mut self.writer, &mut self.counts)
    }

    /// Returns the writer.
    pub fn into_inner(self) -> W
        ensures contents { W.contents result ≡ self.taken }
        ensures grown { GrowsBy self.start (W.contents result) self.written }
    {
        let Out { writer, .. } = self;
        writer
    }
}

impl<W: Write> Sink for Out<W> {
    ghost taken = { λ out. out.taken };

    ghost failure_count = { λ out. out.failures };

    fn accept(&mut self, bytes: &[u8]) -> Result<usize, SinkDown>
        ensures most { IfOk result (λ n. n ≤ length bytes.now) }
        ensures some { IfOk result (λ n. 0 < length bytes.now → 0 < n) }
        ensures empty { bytes.now ≡ [] → result ≡ Ok 0 }
        ensures taken { IfOk result (λ n. Appends self.old.taken self.new.taken (take n bytes.now)) }
        ensures no_failure { IfOk result (λ _. self.new.failures ≡ self.old.failures) }
        ensures untaken { OnErr result (Keeps self.old.taken self.new.taken) }
        ensures counted { OnErr result (CountsFailure self.old.failures self.new.failures) }
        ensures step { OutStep self.old result self.new }
    {
        write_counted(&mut self.writer, &mut self.counts, bytes)
    }

    fn failures(&self) -> u64 {
        self.counts.failures
    }
}
