//! What `svnadmin load` makes of worked deltas, and which defect is told of those that it rejects.
use std::alloc::Global;
use std::test::Fail;
use svndiff::laws::{middles_are_replaced, views_are_of_the_old_text};
use svndiff::{Defect, NotApplied, apply};

const BASE: &[u8] = b"0123456789abcdef";

/// Deltas that a load applies to the base, and the texts that they make.
const APPLIED: [(&str, &[u8], &[u8]); 14] = [
    (
        "all three instructions",
        b"SVN\0\x00\x10\x0c\x05\x03\x04\x02\x83\x45\x01xyz",
        b"2345xyz345xy",
    ),
    ("no window", b"SVN\0", b""),
    ("an empty window", b"SVN\0\x00\x00\x00\x00\x00", b""),
    (
        "an empty window with a view",
        b"SVN\0\x00\x10\x00\x00\x00",
        b"",
    ),
    (
        "five zeros at the end",
        b"SVN\0\x00\x10\x04\x02\x00\x04\x00\x00\x00\x00\x00\x00",
        b"0123",
    ),
    (
        "a gap at first",
        b"SVN\0\x0a\x03\x03\x02\x00\x03\x00",
        b"012",
    ),
    (
        "a gap later",
        b"SVN\0\x00\x03\x03\x02\x00\x03\x00\x08\x03\x03\x02\x00\x03\x00",
        b"012345",
    ),
    (
        "views that follow",
        b"SVN\0\x00\x08\x08\x02\x00\x08\x00\x08\x08\x08\x02\x00\x08\x00",
        b"0123456789abcdef",
    ),
    (
        "views that overlap",
        b"SVN\0\x00\x08\x08\x02\x00\x08\x00\x04\x08\x08\x02\x00\x08\x00",
        b"01234567456789ab",
    ),
    (
        "no view between",
        b"SVN\0\x00\x08\x08\x02\x00\x08\x00\x00\x00\x02\x01\x02\x82zz\x00\x08\x08\x02\x00\x08\x00",
        b"01234567zz01234567",
    ),
    (
        "a size of 4 as a number",
        b"SVN\0\x00\x10\x04\x03\x00\x00\x04\x00",
        b"0123",
    ),
    (
        "a number of ten bytes",
        b"SVN\0\x80\x80\x80\x80\x80\x80\x80\x80\x80\x00\x10\x04\x02\x00\x04\x00",
        b"0123",
    ),
    (
        "a number above 2^64",
        b"SVN\0\x00\x82\x80\x80\x80\x80\x80\x80\x80\x80\x05\x03\x02\x00\x03\x00",
        b"012",
    ),
    (
        "an offset of 2^63 - 1",
        b"SVN\0\xff\xff\xff\xff\xff\xff\xff\xff\x7f\x00\x03\x01\x03\x83abc",
        b"abc",
    ),
];

/// Deltas with a defect of their own or of a window's head, and its byte.
const BROKEN_HEADS: [(&str, &[u8], Defect, usize); 17] = [
    ("an empty delta", b"", Defect::Header, 0),
    ("three letters", b"SVN", Defect::Header, 0),
    ("another letter", b"SVX\0", Defect::Header, 0),
    ("version 1", b"SVN\x01", Defect::Compressed, 0),
    ("version 2", b"SVN\x02", Defect::Compressed, 0),
    (
        "a number of eleven bytes",
        b"SVN\0\x80\x80\x80\x80\x80\x80\x80\x80\x80\x80\x00\x10\x04\x02\x00\x04\x00",
        Defect::Number,
        4,
    ),
    (
        "one byte at the end",
        b"SVN\0\x00\x10\x04\x02\x00\x04\x00\x00",
        Defect::Number,
        11,
    ),
    (
        "an offset of 2^63",
        b"SVN\0\x81\x80\x80\x80\x80\x80\x80\x80\x80\x00\x00\x03\x01\x03\x83abc",
        Defect::Large,
        4,
    ),
    (
        "a view of more than 100 KB",
        b"SVN\0\x00\x86\xa0\x01\x00\x00\x00",
        Defect::Large,
        4,
    ),
    (
        "a target of more than 100 KB",
        b"SVN\0\x00\x00\x86\xa0\x01\x06\x01\x81\x40\x86\xa0\x00\x00x",
        Defect::Large,
        4,
    ),
    (
        "new data that is cut off",
        b"SVN\0\x00\x00\x04\x01\x04\x84abc",
        Defect::Cut,
        4,
    ),
    (
        "a view beyond the base",
        b"SVN\0\x00\x11\x01\x02\x00\x01\x00",
        Defect::View,
        4,
    ),
    (
        "the same of an empty window",
        b"SVN\0\x00\x11\x00\x00\x00",
        Defect::View,
        4,
    ),
    (
        "a view that slides back",
        b"SVN\0\x04\x08\x08\x02\x00\x08\x00\x03\x08\x08\x02\x00\x08\x00",
        Defect::View,
        11,
    ),
    (
        "a view that shrinks",
        b"SVN\0\x00\x08\x08\x02\x00\x08\x00\x00\x07\x07\x02\x00\x07\x00",
        Defect::View,
        11,
    ),
    (
        "a view that shrinks later",
        b"SVN\0\x00\x08\x08\x02\x00\x08\x00\x00\x00\x02\x01\x02\x82zz\x00\x07\x07\x02\x00\x07\x00",
        Defect::View,
        19,
    ),
    // what a load makes of this is not defined
    (
        "a view of no bytes that slides back",
        b"SVN\0\x04\x08\x08\x02\x00\x08\x00\x00\x00\x02\x01\x02\x82zz",
        Defect::View,
        11,
    ),
];

/// The same of deltas with a defect of a window's instructions.
const BROKEN_INSTRUCTIONS: [(&str, &[u8], Defect, usize); 9] = [
    (
        "an instruction that is cut off",
        b"SVN\0\x00\x04\x02\x01\x00\x02",
        Defect::Instruction,
        9,
    ),
    (
        "a fourth instruction",
        b"SVN\0\x00\x04\x02\x02\x00\xc2\x00",
        Defect::Instruction,
        9,
    ),
    (
        "a copy of no bytes",
        b"SVN\0\x00\x10\x04\x05\x00\x04\x00\x00\x00\x00",
        Defect::Copy,
        11,
    ),
    (
        "a copy from far beyond the view",
        b"SVN\0\x00\x04\x02\x0b\x00\x02\x81\xff\xff\xff\xff\xff\xff\xff\xff\x7f",
        Defect::Copy,
        9,
    ),
    (
        "a copy from the end of the target",
        b"SVN\0\x00\x00\x04\x03\x02\x82\x42\x02ab",
        Defect::Copy,
        10,
    ),
    (
        "a copy of another window's target",
        b"SVN\0\x00\x00\x02\x01\x02\x82ab\x00\x00\x02\x02\x00\x42\x00",
        Defect::Copy,
        17,
    ),
    (
        "too little new data",
        b"SVN\0\x00\x10\x04\x01\x03\x84zzz",
        Defect::Copy,
        9,
    ),
    (
        "new data that is not used",
        b"SVN\0\x00\x10\x04\x02\x01\x04\x00z",
        Defect::Target,
        11,
    ),
    (
        "a target that is too short",
        b"SVN\0\x00\x10\x05\x02\x00\x04\x00",
        Defect::Target,
        11,
    ),
];

/// Whether the delta makes this text of the base.
fn makes(alloc: Global, base: &[u8], delta: &[u8], text: &[u8]) -> bool {
    match apply(alloc, base, delta) {
        Ok(made) => made.as_slice() == text,
        Err(_) => false,
    }
}

/// Whether this defect of the delta is told at this byte.
fn is_told(alloc: Global, delta: &[u8], defect: Defect, place: usize) -> bool {
    match apply(alloc, BASE, delta) {
        Ok(_) => false,
        Err(error) => error == NotApplied::Broken { defect, place },
    }
}

#[test]
fn a_delta_is_applied(rt: HostRuntime) -> Result<(), Fail> {
    views_are_of_the_old_text();
    middles_are_replaced();
    let delta = b"SVN\0\x00\x03\x05\x03\x02\x03\x00\x82de".as_slice();
    let text = apply(rt.alloc(), b"abc", delta)?;
    assert!(rt; text.as_slice() == b"abcde".as_slice());
    Ok(())
}

#[test]
fn deltas_make_what_a_load_makes(rt: HostRuntime) {
    for (name, delta, text) in APPLIED {
        assert!(rt; makes(rt.alloc(), BASE, delta, text), "{name}");
    }
}

#[test]
fn what_is_copied_may_be_copied_again(rt: HostRuntime) {
    let delta = b"SVN\0\x00\x00\x0a\x03\x02\x82\x48\x00ab";
    assert!(rt; makes(rt.alloc(), b"", delta, b"ababababab"));
}

#[test]
fn each_defect_is_told_at_its_byte(rt: HostRuntime) {
    for (name, delta, defect, place) in BROKEN_HEADS {
        assert!(rt; is_told(rt.alloc(), delta, defect, place), "{name}");
    }
}

#[test]
fn so_is_each_defect_of_instructions(rt: HostRuntime) {
    for (name, delta, defect, place) in BROKEN_INSTRUCTIONS {
        assert!(rt; is_told(rt.alloc(), delta, defect, place), "{name}");
    }
}
