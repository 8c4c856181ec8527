//! What no contract says: worked examples, writers that fail in mid-stream, and one call of each function with enough
//! memory.
ghost use Rattle.std.specs.Prelude.{◌≡◌, OnOk, OnErr, IfOk, IfErr, Some, []};
ghost use Rattle.std.specs.Io.KnownBytes.{Appends};
ghost use Rattle.dump_writer.specs.SinkWords.{greatest};
ghost use Rattle.dump_writer.specs.steps.SinkCalls.{TakesOnlyFirst};

use dump_writer::{
    Chunk, Memory, MemorySink, Out, OutMut, Piece, Sink, SinkDown, SinkFault, Trouble, write_piece,
};
use std::alloc::Global;
use std::io::{self, ErrorKind, Write};
use std::process::Abort;
use std::test::Fail;

/// What a broken writer returns once it has no room left.
#[derive(Clone, Copy)]
enum Ending {
    Error,
    Nothing,
}

/// A writer that has room for `room` bytes, and whose flush fails if no room is left.
#[derive(Drop)]
struct Broken {
    held: Vec<u8>,
    room: usize,
    ending: Ending,
    flushes: u32,
}

impl Write for Broken {
    fn write(&mut self, bytes: &[u8]) -> io::Result<usize> {
        let count = bytes.len().min(self.room);
        if count == 0 {
            return match self.ending {
                Ending::Error => Err(ErrorKind::BrokenPipe.into()),
                Ending::Nothing => Ok(0),
            };
        }
        self.held.extend_from_slice(&bytes[..count])?;
        self.room -= count;
        Ok(count)
    }

    fn flush(&mut self) -> io::Result<()> {
        self.flushes = self.flushes.saturating_add(1);
        if self.room == 0 {
            return Err(ErrorKind::BrokenPipe.into());
        }
        Ok(())
    }
}

/// A sink whose count of failures has reached its maximum.
#[derive(Drop)]
struct WornOut {
    calls: u32,
}

impl Sink for WornOut {
    ghost taken = { λ _. Some [] };

    ghost failure_count = { λ _. greatest };

    fn accept(&mut self, bytes: &[u8]) -> Result<usize, SinkDown> {
        self.calls = self.calls.saturating_add(1);
        if bytes.is_empty() {
            return Ok(0);
        }
        Err(SinkDown)
    }

    fn failures(&self) -> u64 {
        u64::MAX
    }
}

/// The piece `abcde`, of two borrowed chunks, one of them empty, and an owned one.
fn five(alloc: Global) -> Result<Piece<'static>, Fail> {
    let mut piece = Piece::new(alloc);
    piece.push(Chunk::Lent(b"ab"))?;
    piece.push(Chunk::Lent(b""))?;
    piece.push(Chunk::Own(Vec::from_slice(alloc, b"cde")?))?;
    Ok(piece)
}

/// A function that is generic in the writer, and whose contract says what the writer holds at the end. The error is
/// how many bytes the writer took.
fn write_through<W: Write>(piece: &Piece<'_>, writer: &mut W, buffer: Vec<u8>) -> Result<(), u64>
    ensures { OnOk result (Appends (W.contents writer.old) (W.contents writer.new) piece.now) }
{
    let mut sink = OutMut::new(writer, buffer);
    let answer = match write_piece(&mut sink, piece) {
        Ok(()) => sink.flush(),
        Err(_) => Err(SinkDown),
    };
    let written = sink.written();
    let _ = sink.into_inner();
    match answer {
        Ok(()) => Ok(()),
        Err(SinkDown) => Err(written),
    }
}

/// Whether these are the bytes of the chunks.
fn are_chunks(chunks: &[Chunk<'_>], wanted: &[&[u8]]) -> bool {
    for (chunk, bytes) in chunks.iter().zip(wanted) {
        if chunk.bytes() != *bytes {
            return false;
        }
    }
    chunks.len() == wanted.len()
}

#[test]
fn a_piece_is_its_chunks_in_order(rt: HostRuntime) -> Result<(), Fail> {
    let piece = five(rt.alloc())?;
    assert!(rt; are_chunks(piece.chunks(), &[b"ab", b"", b"cde"]));
    Ok(())
}

/// Whether a sink returns this answer for the piece, takes these bytes, and counts a failure if the answer is one.
fn is_written_up_to(
    sink: &mut MemorySink,
    piece: &Piece<'_>,
    answer: Result<(), SinkFault>,
    taken: &[u8],
) -> bool {
    write_piece(sink, piece) == answer
        && sink.taken() == taken
        && sink.failures() == u64::from(answer.is_err())
}

#[test]
fn pieces_are_written_up_to_the_trouble(rt: HostRuntime) -> Result<(), Fail> {
    let piece = five(rt.alloc())?;
    let cut = |written| Err(SinkFault { written });
    let rows = [
        (1, Trouble::Never, Ok(()), b"abcde".as_slice()),
        (8, Trouble::Never, Ok(()), b"abcde"),
        (1, Trouble::Once(3), cut(3), b"abc"),
        (8, Trouble::From(4), cut(4), b"abcd"),
        (8, Trouble::Once(5), Ok(()), b"abcde"),
        (8, Trouble::Once(0), cut(0), b""),
    ];
    let mut right = true;
    for (most, trouble, answer, taken) in rows {
        let mut sink = MemorySink::new(rt.alloc(), most, trouble);
        right = right && is_written_up_to(&mut sink, &piece, answer, taken);
    }
    assert!(rt; right);
    Ok(())
}

/// Passes these bytes to the sink one after another, and returns whether each answer is the expected one.
fn accepts<S: Sink>(sink: &mut S, calls: &[(&[u8], Result<usize, SinkDown>)]) -> bool {
    for (bytes, answer) in calls {
        if sink.accept(bytes) != *answer {
            return false;
        }
    }
    true
}

/// Whether a sink took these bytes, and failed this often.
fn holds(sink: &MemorySink, taken: &[u8], failures: u64) -> bool {
    sink.taken() == taken && sink.failures() == failures
}

#[test]
fn trouble_comes_once(rt: HostRuntime) {
    let mut sink = MemorySink::new(rt.alloc(), 8, Trouble::Once(3));
    let calls = [
        (b"abcde".as_slice(), Ok(3)),
        (b"", Ok(0)),
        (b"de", Err(SinkDown)),
        (b"de", Ok(2)),
    ];
    assert!(rt; accepts(&mut sink, &calls) && holds(&sink, b"abcde", 1));
}

/// Whether each further call of a sink fails.
fn fails_for_good(sink: &mut MemorySink) -> bool {
    for failures in 1..4 {
        if !accepts(sink, &[(b"de", Err(SinkDown))]) || !holds(sink, b"abc", failures) {
            return false;
        }
    }
    true
}

#[test]
fn trouble_comes_for_good(rt: HostRuntime) {
    let mut sink = MemorySink::new(rt.alloc(), 8, Trouble::From(3));
    assert!(rt; accepts(&mut sink, &[(b"abcde", Ok(3))]) && fails_for_good(&mut sink));
}

/// Whether an `Out` wrote this many bytes, and failed this often.
fn counts<W: Write>(out: &Out<W>, written: u64, failures: u64) -> bool {
    out.written() == written && out.failures() == failures
}

/// Whether an `Out` takes a piece and two more bytes, and counts them.
fn takes_seven<W: Write>(out: &mut Out<W>, piece: &Piece<'_>) -> bool {
    let taken = write_piece(out, piece) == Ok(())
        && accepts(out, &[(b"", Ok(0)), (b"fg", Ok(2))])
        && out.flush() == Ok(());
    taken && counts(out, 7, 0)
}

#[test]
fn a_writer_is_written_counted_and_given_back(rt: HostRuntime) -> Result<(), Fail> {
    let piece = five(rt.alloc())?;
    let mut out = Out::new(Vec::from_slice(rt.alloc(), b"> ")?);
    let taken = takes_seven(&mut out, &piece);
    assert!(rt; taken && out.into_inner().as_slice() == b"> abcdefg".as_slice());
    Ok(())
}

/// Whether a borrowed writer has the whole piece after `write_through`, with a buffer of this capacity.
fn is_lent(alloc: Global, piece: &Piece<'_>, room: usize) -> Result<bool, Fail> {
    let mut text = Vec::from_slice(alloc, b"> ")?;
    let buffer = Vec::with_capacity(alloc, room)?;
    let answer = write_through(piece, &mut text, buffer);
    Ok(answer == Ok(()) && text.as_slice() == b"> abcde".as_slice())
}

#[test]
fn a_lent_writer_is_written_and_counted(rt: HostRuntime) -> Result<(), Fail> {
    let piece = five(rt.alloc())?;
    for room in [0, 1, 4, 5, 100] {
        assert!(rt; is_lent(rt.alloc(), &piece, room)?, "{room}");
    }
    Ok(())
}

/// Passes these bytes to the sink one after another. Returns whether it takes all of them, and whether this many have
/// reached the writer after each.
fn hands_on<W: Write>(sink: &mut OutMut<'_, W>, calls: &[(&[u8], u64)]) -> bool {
    for (bytes, written) in calls {
        if sink.accept(bytes) != Ok(bytes.len()) || sink.written() != *written {
            return false;
        }
    }
    sink.flush() == Ok(()) && (sink.written(), sink.failures()) == (13, 0)
}

#[test]
fn small_texts_wait_for_the_writer(rt: HostRuntime) -> Result<(), Fail> {
    let mut text = Vec::from_slice(rt.alloc(), b"> ")?;
    let buffer = Vec::with_capacity(rt.alloc(), 4)?;
    let mut sink = OutMut::new(&mut text, buffer);
    let calls = [
        (b"ab".as_slice(), 0),
        (b"", 0),
        (b"cd", 0),
        (b"efg", 4),
        (b"hijkl", 12),
        (b"m", 12),
    ];
    let right = hands_on(&mut sink, &calls);
    assert!(rt; right && sink.into_inner().as_slice() == b"> abcdefghijklm".as_slice());
    Ok(())
}

/// A writer that breaks after four bytes.
fn breaking(alloc: Global, ending: Ending) -> Broken {
    Broken {
        held: Vec::new(alloc),
        room: 4,
        ending,
        flushes: 0,
    }
}

/// Whether a writer without room fails to take a byte and to flush, and the `Out` counts this.
fn is_down(out: &mut Out<Broken>) -> bool {
    let down = accepts(out, &[(b"e", Err(SinkDown)), (b"", Ok(0))]) && out.flush() == Err(SinkDown);
    down && counts(out, 0, 2)
}

/// Whether a writer that breaks has the first bytes and fails then.
fn is_broken_off(alloc: Global, piece: &Piece<'_>, mut writer: Broken) -> bool {
    let answer = write_through(piece, &mut writer, Vec::new(alloc));
    let first = answer == Err(4) && writer.held.as_slice() == b"abcd".as_slice();
    let mut out = Out::new(writer);
    let down = is_down(&mut out);
    first && down && out.into_inner().flushes == 1
}

#[test]
fn a_writer_that_breaks_is_a_failure(rt: HostRuntime) -> Result<(), Fail> {
    let piece = five(rt.alloc())?;
    let mut right = true;
    for ending in [Ending::Error, Ending::Nothing] {
        let writer = breaking(rt.alloc(), ending);
        let broken_off = is_broken_off(rt.alloc(), &piece, writer);
        right = right && broken_off;
    }
    assert!(rt; right);
    Ok(())
}

#[test]
fn a_worn_out_sink_takes_nothing(rt: HostRuntime) -> Result<(), Fail> {
    let piece = five(rt.alloc())?;
    let mut sink = WornOut { calls: 0 };
    let answer = write_piece(&mut sink, &piece);
    let failed = answer == Err(SinkFault { written: 0 });
    assert!(rt; failed && sink.failures() == u64::MAX && sink.calls == 1);
    Ok(())
}

/// A piece of two chunks without bytes.
fn blank(alloc: Global) -> Result<Piece<'static>, Fail> {
    let mut piece = Piece::new(alloc);
    piece.push(Chunk::Lent(b""))?;
    piece.push(Chunk::Own(Vec::new(alloc)))?;
    Ok(piece)
}

#[test]
fn no_call_is_made_for_no_bytes(rt: HostRuntime) -> Result<(), Fail> {
    let blank = blank(rt.alloc())?;
    let mut sink = WornOut { calls: 0 };
    let answer = write_piece(&mut sink, &blank);
    assert!(rt; answer == Ok(()) && sink.calls == 0);
    Ok(())
}

/// Whether two chunks need no allocation, and a third is added or dropped.
fn grows<'a>(piece: &mut Piece<'a>) -> bool {
    let two = piece.push(Chunk::Lent(b"a")) == Ok(()) && piece.push(Chunk::Lent(b"b")) == Ok(());
    let count = if piece.push(Chunk::Lent(b"c")) == Ok(()) {
        3
    } else {
        2
    };
    two && piece.chunks().len() == count
}

/// Run with each allocation failing in turn: a failed call leaves the chunks unchanged.
#[test]
fn a_refused_growth_leaves_the_piece(rt: HostRuntime) {
    let mut piece = Piece::new(rt.alloc());
    assert!(rt; grows(&mut piece));
}

/// Whether a sink that breaks after two bytes takes them in the first call, or in the second if an allocation failed
/// in the first.
fn takes_two(sink: &mut MemorySink) -> bool {
    let refused = sink.accept(b"abc").is_err();
    let left = !refused || (holds(sink, b"", 1) && accepts(sink, &[(b"abc", Ok(2))]));
    left && sink.taken() == b"ab".as_slice() && accepts(sink, &[(b"c", Err(SinkDown))])
}

/// Run with each allocation failing in turn: a failed call leaves the bytes unchanged, and the next call succeeds.
#[test]
fn a_refused_growth_leaves_the_sink(rt: HostRuntime) {
    let mut sink = MemorySink::new(rt.alloc(), 8, Trouble::From(2));
    assert!(rt; takes_two(&mut sink));
}
