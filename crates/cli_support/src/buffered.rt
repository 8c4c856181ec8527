//! The buffered output of a program.
ghost use Rattle.std.specs.Prelude.{◌≡◌, [], false, IfErr, IfOk, MatchBool, OnErr, OnOk};
ghost use Rattle.std.specs.Io.KnownBytes.{GrowsBy, Keeps};
ghost use Rattle.dump_writer.specs.steps.SinkCalls.{CountsFailure};
ghost use Rattle.dump_writer.specs.steps.SinkStates.{lent_taken, loan_of};

use dump_writer::{OutMut, SinkDown};
use std::alloc::{AllocError, Global};
use std::io::Write;

/// How many bytes of small texts are collected for one call of the writer.
const BUFFER: usize = 1 << 16;

/// The buffer of a program's output.
pub fn output_buffer(alloc: Global) -> Result<Vec<u8>, AllocError>
    ensures { IfOk result (λ buffer. buffer.items ≡ []) }
{
    Vec::with_capacity(alloc, BUFFER)
}

/// Writes the bytes in the buffer, unless the sink is down. The error is the number of bytes that the writer took.
pub fn finish<W: Write>(sink: &mut OutMut<'_, W>, is_down: bool) -> Result<(), u64>
    ensures taken { Keeps (lent_taken sink.old) (lent_taken sink.new) }
    ensures whole { OnOk result ((is_down ≡ false) × (sink.new.waiting ≡ [])) }
    ensures counted { IfErr result (λ written. (written ≡ sink.new.out.written)
        × GrowsBy sink.new.out.start sink.new.out.taken written) }
    ensures no_failure { OnOk result (sink.new.out.failures ≡ sink.old.out.failures) }
    ensures failure { OnErr result (MatchBool is_down (sink.new.out.failures ≡ sink.old.out.failures)
        (CountsFailure sink.old.out.failures sink.new.out.failures)) }
    ensures loan { loan_of sink.new ≡ loan_of sink.old }
{
    if is_down {
        return Err(sink.written());
    }
    match sink.flush() {
        Ok(()) => Ok(()),
        Err(SinkDown) => Err(sink.written()),
    }
}
