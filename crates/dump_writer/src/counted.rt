//! Calls of a writer that are counted: how many bytes it took, and how often it failed.
ghost use Rattle.std.specs.Prelude.{◌≡◌, ◌+◌, ◌≤◌, ◌<◌, [], ℕ, List, Option, take, length, IfOk, OnErr, OnOk};
ghost use Rattle.std.specs.Io.KnownBytes.{Appends, Keeps, GrowsBy};
ghost use Rattle.dump_writer.specs.SinkWords.{capped};
ghost use Rattle.dump_writer.specs.steps.SinkCalls.{CountsFailure};

use crate::sink::SinkDown;
use std::io::Write;

/// What a sink over a writer counts; both numbers don't go above `u64::MAX`.
#[derive(Clone, Copy)]
pub(crate) struct Counts {
    pub(crate) written: u64,
    pub(crate) failures: u64,
}

impl Counts {
    /// The counts before the first call.
    pub(crate) fn new() -> Counts
        ensures { result ≡ record { written = 0; failures = 0 } }
    {
        Counts {
            written: 0,
            failures: 0,
        }
    }

    /// Counts one more failure.
    fn fail(&mut self) -> SinkDown
        ensures written { self.new.written ≡ self.old.written }
        ensures failures { CountsFailure self.old.failures self.new.failures }
    {
        self.failures = self.failures.saturating_add(1);
        SinkDown
    }
}

/// Calls the writer once. The writer takes the first of the bytes, at least one, or the call is a failure. If there
/// are no bytes, the writer isn't called.
pub(crate) fn write_counted<W: Write>(
    writer: &mut W,
    counts: &mut Counts,
    bytes: &[u8],
) -> Result<usize, SinkDown>
    ensures most { IfOk result (λ n. n ≤ length bytes.now) }
    ensures some { IfOk result (λ n. 0 < length bytes.now → 0 < n) }
    ensures empty { bytes.now ≡ [] → result ≡ Ok 0 }
    ensures taken { IfOk result (λ n.
        Appends (W.contents writer.old) (W.contents writer.new) (take n bytes.now)) }
    ensures untaken { OnErr result (Keeps (W.contents writer.old) (W.contents writer.new)) }

    ensures written { IfOk result (λ n. counts.new.written ≡ capped (counts.old.written + n)) }
    ensures no_failure { OnOk result (counts.new.failures ≡ counts.old.failures) }
    ensures unwritten { OnErr result (counts.new.written ≡ counts.old.written) }
    ensures counted { OnErr result (CountsFailure counts.old.failures counts.new.failures) }

    // true whatever the writer held when the count began
    ensures grown { (start : Option (List ℕ)) → GrowsBy start (W.contents writer.old) counts.old.written
        → GrowsBy start (W.contents writer.new) counts.new.written }
{
    let before = counts.written;
    if bytes.is_empty() {
        return Ok(0);
    }
    match writer.write(bytes) {
        Ok(count) if count > 0 => {
            counts.written = before.saturating_add(count as u64);
            Ok(count)
        }
        _ => Err(counts.fail()),
    }
}

/// Calls the writer until it has taken all the bytes or fails, and returns how many it took.
pub(crate) fn write_all_counted<W: Write>(
    writer: &mut W,
    counts: &mut Counts,
    bytes: &[u8],
) -> usize
    ensures most { result ≤ length bytes.now }
    ensures taken { Appends (W.contents writer.old) (W.contents writer.new) (take result bytes.now) }
    ensures no_failure { result ≡ length bytes.now → counts.new.failures ≡ counts.old.failures }
    ensures counted { result < length bytes.now → CountsFailure counts.old.failures counts.new.failures }
    ensures written { counts.new.written ≡ capped (counts.old.written + result) }
    ensures grown { (start : Option (List ℕ)) → GrowsBy start (W.contents writer.old) counts.old.written
        → GrowsBy start (W.contents writer.new) counts.new.written }
{
    let mut at = 0;
    while at < bytes.len() {
        match write_counted(writer, counts, &bytes[at..]) {
            Ok(count) => at += count,
            Err(SinkDown) => return at,
        }
    }
    at
}

/// Flushes the writer, once; an error is a failure.
pub(crate) fn flush_counted<W: Write>(writer: &mut W, counts: &mut Counts) -> Result<(), SinkDown>
    ensures kept { Keeps (W.contents writer.old) (W.contents writer.new) }
    ensures written { counts.new.written ≡ counts.old.written }
    ensures no_failure { OnOk result (counts.new.failures ≡ counts.old.failures) }
    ensures counted { OnErr result (CountsFailure counts.old.failures counts.new.failures) }
{
    match writer.flush() {
        Ok(()) => Ok(()),
        Err(_) => Err(counts.fail()),
    }
}
