//! Outputs that are written or not, and the lines that say why a program ended.

use cli_support::{
    Cause, NewFile, Program, Unread, Unwritten, Usage, arguments, as_texts, fail, fail_unread,
    finish, input_size, output_buffer, refuse, write_text,
};
use dump_writer::{OutMut, Sink};
use std::alloc::{AllocError, Global};
use std::io::{self, ErrorKind, Write};
use std::process::Abort;
use std::test::Fail;

const TEST: Program = Program {
    name: "svndumptest",
    failed: 7,
};

/// A terminal that was closed.
#[derive(Drop)]
struct Gone;

impl Write for Gone {
    fn write(&mut self, _bytes: &[u8]) -> io::Result<usize> {
        Err(ErrorKind::BrokenPipe.into())
    }

    fn flush(&mut self) -> io::Result<()> {
        Err(ErrorKind::BrokenPipe.into())
    }
}

/// The result of `finish` after a text was put into the sink over this writer.
fn finished<W: Write>(
    alloc: Global,
    writer: &mut W,
    is_down: bool,
) -> Result<Result<(), u64>, AllocError> {
    let mut sink = OutMut::new(writer, output_buffer(alloc)?);
    let _ = sink.accept(b"some text");
    let answer = finish(&mut sink, is_down);
    let _ = sink.into_inner();
    Ok(answer)
}

/// Run with each allocation failing in turn: the text is written, or the error is that of memory.
#[test]
fn a_text_is_handed_on_or_no_memory(rt: HostRuntime) {
    let mut output = [0; 16];
    let mut room = output.as_mut_slice();
    let answered = match finished(rt.alloc(), &mut room, false) {
        Ok(answer) => answer.is_ok() && room.len() == 7,
        Err(AllocError) => room.len() == 16,
    };
    assert!(rt; answered);
}

#[test]
fn nothing_is_tried_where_the_sink_is_down(rt: HostRuntime) -> Result<(), Fail> {
    let mut output = Vec::new(rt.alloc());
    assert!(rt; finished(rt.alloc(), &mut output, true)? == Err(0));
    assert!(rt; output.is_empty());
    assert!(rt; finished(rt.alloc(), &mut Gone, false)? == Err(0));
    Ok(())
}

/// Whether `write_text` writes nothing of a text to this writer.
fn takes_nothing<W: Write>(alloc: Global, writer: &mut W) -> bool {
    match write_text(alloc, b"some text", writer) {
        Ok(()) => false,
        Err(Unwritten { written, .. }) => written == 0,
    }
}

#[test]
fn a_file_that_is_not_created_takes_no_text(rt: HostRuntime) {
    assert!(rt; takes_nothing(rt.alloc(), &mut Gone));
    assert!(rt; takes_nothing(rt.alloc(), &mut NewFile::new(&rt)));
}

#[test]
fn lines_and_statuses_say_what_ended_a_program(rt: HostRuntime) {
    let mut lines = Vec::new(rt.alloc());
    let statuses = [
        fail(&mut lines, TEST, Cause::Sink, 100),
        fail(&mut lines, TEST, Cause::Threads, u64::MAX),
        fail_unread(&mut lines, TEST, Unread::Memory),
        fail_unread(&mut lines, TEST, Unread::Source),
        refuse(&mut lines, TEST, Usage::Words),
        refuse(&mut lines, TEST, Usage::BothDrops),
        refuse(&mut lines, TEST, Usage::Memory),
    ];
    let wanted = "svndumptest: failure 20 Sink after 100 bytes\n\
        svndumptest: failure 22 Threads after 18446744073709551615 bytes\n\
        svndumptest: failure 21 Memory after 0 bytes\n\
        svndumptest: failure 24 Source after 0 bytes\n\
        usage: svndumptest include|exclude [OPTIONS] PREFIX...\n\
        usage: svndumptest include|exclude [OPTIONS] PREFIX...\n\
        svndumptest: failure 21 Memory after 0 bytes\n";
    assert!(rt; statuses == [7, 7, 7, 7, 2, 2, 7] && lines.as_slice() == wanted.as_bytes());
}

#[test]
fn a_line_that_nobody_reads_is_let_go(rt: HostRuntime) {
    assert!(rt; fail(&mut Gone, TEST, Cause::Sink, 0) == 7);
    assert!(rt; refuse(&mut Gone, TEST, Usage::Words) == 2);
}

/// Run with each allocation failing in turn: the process has arguments, or the error is that of memory.
#[test]
fn arguments_or_no_memory(rt: HostRuntime) {
    let _ = input_size(&rt);
    let answered = match arguments(&rt) {
        Ok(arguments) => is_whole(rt.alloc(), &arguments),
        Err(usage) => usage == Usage::Memory,
    };
    assert!(rt; answered);
}

/// Whether `as_texts` returns as many texts as there are strings, or the error for memory.
fn is_whole(alloc: Global, arguments: &[String]) -> bool {
    match as_texts(alloc, arguments) {
        Ok(texts) => texts.len() == arguments.len(),
        Err(usage) => usage == Usage::Memory,
    }
}
