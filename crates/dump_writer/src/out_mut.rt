//! A sink over a borrowed writer, with a buffer.
ghost use Rattle.std.specs.Prelude.{◌≡◌, ◌≤◌, ◌<◌, ◌-◌, ◌++◌, [], Some, take, drop, length, vec_len, vec_capacity, IfOk, OnErr, OnOk};
ghost use Rattle.std.specs.Io.KnownBytes.{Appends, Keeps, GrowsBy, append_known};
ghost use Rattle.dump_writer.specs.steps.SinkCalls.{CountsFailure};
ghost use Rattle.dump_writer.specs.steps.SinkStates.{new_out_state, lent_taken, loan_of};

use crate::counted::{Counts, flush_counted, write_all_counted, write_counted};
use crate::sink::{Sink, SinkDown};
use std::io::Write;
use std::marker::Model;
use std::snapshot::Snapshot;

/// A sink over a borrowed writer. It keeps small texts in a buffer until there are enough for a call of the writer;
/// [`flush`](OutMut::flush) writes them.
///
/// An [`Out`](crate::Out) over a `&mut W` takes the same bytes. But if a caller passes it to a function that is
/// generic in the sink, no contract says afterwards that it still holds this reference. The contracts of an `OutMut`
/// say so, by [`Sink`]'s `through`, and [`into_inner`](OutMut::into_inner) returns the reference.
#[derive(Drop)]
pub struct OutMut<'a, W: Write> {
    writer: &'a mut W,
    start: Snapshot<W>,
    waiting: Vec<u8>,
    counts: Counts,
}

impl<'a, W: Write> Model for OutMut<'a, W> {
    ghost use Rattle.std.specs.Io.KnownBytes.{GrowsBy};
    ghost use Rattle.dump_writer.specs.steps.SinkStates.{LentState};

    ghost Value = { LentState };

    ghost view = { λ o. record {
      through = o.writer.ghost_name;
      waiting = o.waiting.items;
      out = record {
        start = W.contents o.start.value;
        taken = W.contents o.writer.now;
        written = o.counts.written;
        failures = o.counts.failures;
      };
    } };

    ghost invariant = { λ o.
        GrowsBy (W.contents o.start.value) (W.contents o.writer.now) o.counts.written };
}

/// Removes the first bytes.
fn remove_front(bytes: &mut Vec<u8>, count: usize)
    requires { count ≤ vec_len bytes.old }
    ensures items { bytes.new.items ≡ drop count bytes.old.items }
    ensures capacity { vec_capacity bytes.new ≡ vec_capacity bytes.old }
{
    let len = bytes.len();
    bytes.as_mut_slice().copy_within(count..len, 0);
    bytes.truncate(len - count);
}

/// How many more bytes fit.
fn room(bytes: &Vec<u8>) -> usize
    ensures { result ≡ vec_capacity bytes.now - vec_len bytes.now }
{
    bytes.capacity() - bytes.len()
}

/// Appends bytes that fit.
fn append(bytes: &mut Vec<u8>, more: &[u8])
    requires { length more.now ≤ vec_capacity bytes.old - vec_len bytes.old }
    ensures { bytes.new.items ≡ bytes.old.items ++ more.now }
{
    let Ok(()) = bytes.extend_from_slice(more) else {
        unreachable!()
    };
}

impl<'a, W: Write> OutMut<'a, W> {
    /// A sink over this writer, which has taken nothing so far. The bytes in the buffer are discarded, and its
    /// capacity is used; without capacity, each text is written at once. It allocates nothing.
    pub fn new(writer: &'a mut W, buffer: Vec<u8>) -> OutMut<'a, W>
        ensures { result ≡ record {
          through = writer.entry.ghost_name;
          waiting = [];
          out = new_out_state (W.contents writer.entry.now);
        } }
    {
        let mut waiting = buffer;
        waiting.clear();
        OutMut {
            start: Snapshot::of(&*writer),
            writer,
            waiting,
            counts: Counts::new(),
        }
    }

    /// How many bytes the writer has taken; the count doesn't go above `u64::MAX`.
    pub fn written(&self) -> u64
        ensures count { result ≡ self.now.out.written }
        ensures grown { GrowsBy self.now.out.start self.now.out.taken result }
    {
        self.counts.written
    }

    /// Writes the bytes in the buffer; those that the writer doesn't take stay in the buffer.
    fn hand_on(&mut self) -> Result<(), SinkDown>
        ensures start { self.new.out.start ≡ self.old.out.start }
        ensures taken { Keeps (lent_taken self.old) (lent_taken self.new) }
        ensures empty { OnOk result (self.new.waiting ≡ []) }
        ensures no_failure { OnOk result (self.new.out.failures ≡ self.old.out.failures) }
        ensures counted { OnErr result (CountsFailure self.old.out.failures self.new.out.failures) }
        ensures through { self.new.through ≡ self.old.through }
    {
        let all = self.waiting.len();
        let count = write_all_counted(&mut *self.writer, &mut self.counts, self.waiting.as_slice());
        remove_front(&mut self.waiting, count);
        if count < all {
            return Err(SinkDown);
        }
        Ok(())
    }

    /// Writes the bytes in the buffer, and flushes the writer, once. An error counts as one more failure.
    pub fn flush(&mut self) -> Result<(), SinkDown>
        ensures start { self.new.out.start ≡ self.old.out.start }
        ensures taken { Keeps (lent_taken self.old) (lent_taken self.new) }
        ensures empty { OnOk result (self.new.waiting ≡ []) }
        ensures no_failure { OnOk result (self.new.out.failures ≡ self.old.out.failures) }
        ensures counted { OnErr result (CountsFailure self.old.out.failures self.new.out.failures) }
        ensures through { self.new.through ≡ self.old.through }
    {
        self.hand_on()?;
        flush_counted(&mut *self.writer, &mut self.counts)
    }

    /// Returns the borrowed writer. Bytes in the buffer are discarded, so flush before. A caller whose contract says
    /// what its writer holds has to call this at the end; if it only drops the sink, no contract says this.
    pub fn into_inner(self) -> &'a mut W
        ensures through { result.ghost_name ≡ self.entry.through }
        ensures contents { W.contents result.now ≡ self.entry.out.taken }
        ensures grown { GrowsBy self.entry.out.start (W.contents result.now) self.entry.out.written }
    {
        let OutMut { writer, .. } = self;
        writer
    }
}

impl<'a, W: Write> Sink for OutMut<'a, W> {
    ghost taken = { λ sink. lent_taken sink };

    ghost failure_count = { λ sink. sink.out.failures };

    ghost through = { λ sink. Some (loan_of sink) };

    fn accept(&mut self, bytes: &[u8]) -> Result<usize, SinkDown>
        ensures most { IfOk result (λ n. n ≤ length bytes.now) }
        ensures some { IfOk result (λ n. 0 < length bytes.now → 0 < n) }
        ensures empty { bytes.now ≡ [] → result ≡ Ok 0 }
        ensures taken { IfOk result (λ n. Appends (lent_taken self.old) (lent_taken self.new) (take n bytes.now)) }
        ensures no_failure { IfOk result (λ _. self.new.out.failures ≡ self.old.out.failures) }
        ensures untaken { OnErr result (Keeps (lent_taken self.old) (lent_taken self.new)) }
        ensures counted { OnErr result (CountsFailure self.old.out.failures self.new.out.failures) }
        ensures through { Some (loan_of self.new) ≡ Some (loan_of self.old) }
    {
        if bytes.len() <= room(&self.waiting) {
            append(&mut self.waiting, bytes);
            return Ok(bytes.len());
        }
        self.hand_on()?;
        if bytes.len() <= room(&self.waiting) {
            append(&mut self.waiting, bytes);
            return Ok(bytes.len());
        }
        write_counted(&mut *self.writer, &mut self.counts, bytes)
    }

    fn failures(&self) -> u64 {
        self.counts.failures
    }
}
