//! Example arguments.

use crate::words::{Call, call_of};
use cli_support::Usage;
use dump_rules::{Empty, Options, Side};
use std::alloc::Global;
use std::process::Abort;
use std::test::Fail;

#[derive(Clone, Copy, PartialEq)]
struct Wanted {
    side: Side,
    empty: Empty,
    renumber: bool,
    preserve: bool,
    skip_missing: bool,
    map: bool,
}

/// `include` with no flag.
const PLAIN: Wanted = Wanted {
    side: Side::Include,
    empty: Empty::Pad,
    renumber: false,
    preserve: false,
    skip_missing: false,
    map: false,
};

fn found_in(call: &Call) -> Wanted {
    let options = &call.options;
    Wanted {
        side: options.side(),
        empty: options.empty(),
        renumber: options.renumber(),
        preserve: options.preserve(),
        skip_missing: options.skip_missing(),
        map: call.map,
    }
}

fn has_prefixes(options: &Options, prefixes: &[&str]) -> bool {
    for (n, prefix) in prefixes.iter().enumerate() {
        if options.prefix(n) != Some(prefix.as_bytes()) {
            return false;
        }
    }
    options.prefix(prefixes.len()).is_none()
}

/// Whether arguments give these options. The arguments and the prefixes are each in one text, with spaces between
/// them.
fn is_read(alloc: Global, line: &str, prefixes: &str, wanted: Wanted) -> Result<bool, Fail> {
    let words: Vec<&str> = line.split(' ').collect(alloc)?;
    let prefixes: Vec<&str> = prefixes.split(' ').collect(alloc)?;
    let call = call_of(alloc, words.as_slice())?;
    Ok(found_in(&call) == wanted && has_prefixes(&call.options, prefixes.as_slice()))
}

const FLAGS: Wanted = Wanted {
    side: Side::Include,
    empty: Empty::DropEmptied,
    renumber: true,
    preserve: true,
    skip_missing: true,
    map: true,
};

/// Arguments, and the call that they give: the prefixes and the rest.
const READ: [(&str, &str, Wanted); 12] = [
    ("p include a", "a", PLAIN),
    (
        "p exclude //trunk/  br\u{e4}nche include -",
        "//trunk/  br\u{e4}nche include -",
        Wanted {
            side: Side::Exclude,
            ..PLAIN
        },
    ),
    (
        "p include --drop-empty-revs a",
        "a",
        Wanted {
            empty: Empty::DropEmptied,
            ..PLAIN
        },
    ),
    (
        "p include --drop-all-empty-revs a",
        "a",
        Wanted {
            empty: Empty::DropAll,
            ..PLAIN
        },
    ),
    (
        "p include --renumber-revs a",
        "a",
        Wanted {
            renumber: true,
            ..PLAIN
        },
    ),
    (
        "p include --preserve-revprops a",
        "a",
        Wanted {
            preserve: true,
            ..PLAIN
        },
    ),
    (
        "p include --skip-missing-merge-sources a",
        "a",
        Wanted {
            skip_missing: true,
            ..PLAIN
        },
    ),
    (
        "p include --drop-empty-revs --renumber-revs a --skip-missing-merge-sources b --map --preserve-revprops",
        "a b",
        FLAGS,
    ),
    ("p include -- --renumber-revs a", "--renumber-revs a", PLAIN),
    ("p include --quiet --workers 4 a --window=1", "a", PLAIN),
    ("p --map include a", "a", Wanted { map: true, ..PLAIN }),
    ("p include a -- --map", "a --map", PLAIN),
];

#[test]
fn words_are_read(rt: HostRuntime) -> Result<(), Fail> {
    for (line, prefixes, wanted) in &READ {
        assert!(rt; is_read(rt.alloc(), line, prefixes, *wanted)?, "{line}");
    }
    Ok(())
}

fn is_refused<'a>(alloc: Global, words: &'a [&'a str], usage: Usage) -> bool {
    match call_of(alloc, words) {
        Ok(_) => false,
        Err(found) => found == usage,
    }
}

/// Whether the arguments in this text, with spaces between them, are rejected in this way.
fn is_line_refused(alloc: Global, line: &str, usage: Usage) -> Result<bool, Fail> {
    let words: Vec<&str> = line.split(' ').collect(alloc)?;
    Ok(is_refused(alloc, words.as_slice(), usage))
}

const REFUSED: [(&str, Usage); 23] = [
    ("svndumpsurvey", Usage::Words),
    ("svndumpsurvey include", Usage::Words),
    ("svndumpsurvey survey a", Usage::Words),
    ("svndumpsurvey Include a", Usage::Words),
    ("svndumpsurvey inc a", Usage::Words),
    ("svndumpsurvey -- include a", Usage::Words),
    ("svndumpsurvey --drop-empty-revs include a", Usage::Words),
    ("svndumpsurvey include --preserve-revprops", Usage::Words),
    ("p include -x", Usage::Words),
    ("p include a -x", Usage::Words),
    ("p include --workers 65 a", Usage::Words),
    ("p include --window 0 a", Usage::Words),
    ("p include --map --map a", Usage::Words),
    ("p --map", Usage::Words),
    ("p include --map=yes a", Usage::Words),
    ("p include --preserve a", Usage::Words),
    ("p include --preserve-revprops= a", Usage::Words),
    ("p include --help a", Usage::Words),
    ("p help include", Usage::Words),
    (
        "p include --preserve-revprops --preserve-revprops a",
        Usage::Words,
    ),
    (
        "p include --drop-all-empty-revs --drop-all-empty-revs a",
        Usage::Words,
    ),
    (
        "p exclude --drop-all-empty-revs --drop-empty-revs a",
        Usage::BothDrops,
    ),
    (
        "p exclude --drop-all-empty-revs --drop-empty-revs",
        Usage::Words,
    ),
];

#[test]
fn other_words_are_refused(rt: HostRuntime) -> Result<(), Fail> {
    assert!(rt; is_refused(rt.alloc(), &[], Usage::Words));
    for (line, usage) in &REFUSED {
        assert!(rt; is_line_refused(rt.alloc(), line, *usage)?, "{line}");
    }
    Ok(())
}

fn is_two_prefixes_renumbered(options: &Options) -> bool {
    options.side() == Side::Exclude
        && options.prefix(1) == Some(b"b".as_slice())
        && options.renumber()
}

/// Run with each allocation failing in turn: the call returns options, or the error for memory.
#[test]
fn options_or_no_memory(rt: HostRuntime) {
    let words = [
        "svndumpsurvey",
        "exclude",
        "--map",
        "--renumber-revs",
        "a",
        "b",
    ];
    let answered = match call_of(rt.alloc(), &words) {
        Ok(call) => is_two_prefixes_renumbered(&call.options),
        Err(usage) => usage == Usage::Memory,
    };
    assert!(rt; answered);
}
