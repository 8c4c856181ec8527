//! The text of a survey, also with sinks and memory that fail.
use super::{COPIED, ONE_NODE, one_prefix, rules};
use dump_rules::Side;
use dump_survey::{SurveyFailure, write_survey};
use dump_writer::{MemorySink, Trouble};
use std::alloc::Global;
use std::process::Abort;
use std::test::Fail;

const ODD: &[u8] =
    b"r7: /trunk//a: a path, a copy source or another text that svnadmin load reads differently (record 3, byte 71)\n\
the revision numbers of the dump do not rise by one (record 2, byte 51)\n\
total 1: texts that svnadmin load reads differently: correct them in the dump, since a prefix may not match what is loaded\n\
total 1: revision numbers that do not rise by one: first renumber the dump with svndumpfilter include --renumber-revs /\n";

/// Whether writing the survey to a sink with this trouble has this result, and the sink has taken these bytes.
fn is_text(
    alloc: Global,
    trouble: Trouble,
    answer: Result<bool, SurveyFailure>,
    taken: &[u8],
) -> Result<bool, Fail> {
    let options = rules(alloc, Side::Include, "trunk")?;
    let mut sink = MemorySink::new(alloc, 8, trouble);
    Ok(write_survey(alloc, ONE_NODE, &options, &mut sink) == answer && sink.taken() == taken)
}

#[test]
fn a_survey_is_written_line_by_line(rt: HostRuntime) -> Result<(), Fail> {
    assert!(rt; is_text(rt.alloc(), Trouble::Never, Ok(true), ODD)?);
    Ok(())
}

#[test]
fn a_sink_that_fails_has_the_first_bytes(rt: HostRuntime) -> Result<(), Fail> {
    let failed = Err(SurveyFailure::Sink);
    for taken in [0usize, 100, 120] {
        let trouble = Trouble::Once(taken as u64);
        assert!(rt;
            is_text(rt.alloc(), trouble, failed, &ODD[..taken])?,
            "{taken}"
        );
    }
    Ok(())
}

const CUT_LINES: &[u8] =
    b"r1: /b, copied from /t@0: the copy may lack paths that are excluded at its source: prefix t/f (record 3, byte 71)\n\
prefix t/f: no node has a path at or below it, and none is copied from there or to a path above it\n\
total 1: copies that may lack paths that are excluded at their source: exclude these paths below the copy too, or not below the source\n\
total 1: prefixes that match nothing in the dump: check that they are spelled as in the dump\n";

/// The test runner repeats this with each allocation failing in turn. The text is complete, or the error is that
/// memory ran out.
#[test]
fn a_text_or_no_memory(rt: HostRuntime) {
    let Ok(options) = one_prefix(rt.alloc(), Side::Exclude, b"t/f") else {
        return;
    };
    let mut sink = MemorySink::new(rt.alloc(), 8, Trouble::Never);
    let answered = match write_survey(rt.alloc(), COPIED, &options, &mut sink) {
        Ok(found) => found && sink.taken() == CUT_LINES,
        Err(_) => true,
    };
    assert!(rt; answered);
}
