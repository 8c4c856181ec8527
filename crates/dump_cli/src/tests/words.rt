//! Examples of arguments.

use crate::words::{Order, options_of};
use cli_support::Usage;
use dump_rules::{Empty, Options, Side};
use std::alloc::Global;
use std::process::Abort;
use std::test::Fail;

#[derive(Clone, Copy, PartialEq)]
struct Wanted {
    side: Side,
    empty: Empty,
    renumber: bool,
    preserve: bool,
    skip_missing: bool,
    workers: usize,
    window: usize,
    quiet: bool,
}

/// `include a` with no flag.
const PLAIN: Wanted = Wanted {
    side: Side::Include,
    empty: Empty::Pad,
    renumber: false,
    preserve: false,
    skip_missing: false,
    workers: 4,
    window: 64,
    quiet: false,
};

fn found_in(order: &Order) -> Wanted {
    Wanted {
        side: order.options.side(),
        empty: order.options.empty(),
        renumber: order.options.renumber(),
        preserve: order.options.preserve(),
        skip_missing: order.options.skip_missing(),
        workers: order.plan.workers(),
        window: order.plan.window(),
        quiet: order.quiet,
    }
}

fn has_prefixes(options: &Options, prefixes: &[&str]) -> bool {
    for (n, prefix) in prefixes.iter().enumerate() {
        if options.prefix(n) != Some(prefix.as_bytes()) {
            return false;
        }
    }
    options.prefix(prefixes.len()).is_none()
}

/// Whether arguments give this order.
fn is_order<'a>(
    alloc: Global,
    words: &'a [&'a str],
    prefixes: &[&str],
    wanted: Wanted,
) -> Result<bool, Fail> {
    let order = options_of(alloc, words)?;
    Ok(found_in(&order) == wanted && has_prefixes(&order.options, prefixes))
}

/// The same; the arguments and the prefixes are each in one text, with spaces between them.
fn is_read(alloc: Global, line: &str, prefixes: &str, wanted: Wanted) -> Result<bool, Fail> {
    let words: Vec<&str> = line.split(' ').collect(alloc)?;
    let prefixes: Vec<&str> = prefixes.split(' ').collect(alloc)?;
    is_order(alloc, words.as_slice(), prefixes.as_slice(), wanted)
}

#[test]
fn any_text_is_a_prefix(rt: HostRuntime) -> Result<(), Fail> {
    let exclude = Wanted {
        side: Side::Exclude,
        ..PLAIN
    };
    let words = [
        "",
        "exclude",
        "//trunk/",
        "",
        "br\u{e4}nche",
        "a b",
        "include",
        "-",
    ];
    assert!(rt; is_order(rt.alloc(), &words, &words[2..], exclude)?);
    Ok(())
}

const FLAGS: Wanted = Wanted {
    empty: Empty::DropEmptied,
    renumber: true,
    preserve: true,
    skip_missing: true,
    ..PLAIN
};

/// Arguments, and the order that they give: the prefixes and the rest.
const READ: [(&str, &str, Wanted); 13] = [
    ("svndumpfilter include a", "a", PLAIN),
    (
        "p include --drop-empty-revs a",
        "a",
        Wanted {
            empty: Empty::DropEmptied,
            ..PLAIN
        },
    ),
    (
        "p include --drop-all-empty-revs a",
        "a",
        Wanted {
            empty: Empty::DropAll,
            ..PLAIN
        },
    ),
    (
        "p include --renumber-revs a",
        "a",
        Wanted {
            renumber: true,
            ..PLAIN
        },
    ),
    (
        "p include --preserve-revprops a",
        "a",
        Wanted {
            preserve: true,
            ..PLAIN
        },
    ),
    (
        "p include --skip-missing-merge-sources a",
        "a",
        Wanted {
            skip_missing: true,
            ..PLAIN
        },
    ),
    (
        "p include --quiet a",
        "a",
        Wanted {
            quiet: true,
            ..PLAIN
        },
    ),
    (
        "p include --preserve-revprops --skip-missing-merge-sources --renumber-revs --drop-empty-revs a b",
        "a b",
        FLAGS,
    ),
    (
        "p include --drop-empty-revs --renumber-revs a --skip-missing-merge-sources b --preserve-revprops",
        "a b",
        FLAGS,
    ),
    (
        "p include --workers 64 --window 4096 a",
        "a",
        Wanted {
            workers: 64,
            window: 4096,
            ..PLAIN
        },
    ),
    (
        "p include a --window=1 --workers=1",
        "a",
        Wanted {
            workers: 1,
            window: 1,
            ..PLAIN
        },
    ),
    (
        "svndumpfilter exclude --workers 2 --quiet a b",
        "a b",
        Wanted {
            side: Side::Exclude,
            workers: 2,
            quiet: true,
            ..PLAIN
        },
    ),
    ("p include -- --quiet a", "--quiet a", PLAIN),
];

#[test]
fn words_are_read(rt: HostRuntime) -> Result<(), Fail> {
    for (line, prefixes, wanted) in &READ {
        assert!(rt; is_read(rt.alloc(), line, prefixes, *wanted)?, "{line}");
    }
    Ok(())
}

fn is_refused<'a>(alloc: Global, words: &'a [&'a str], usage: Usage) -> bool {
    match options_of(alloc, words) {
        Ok(_) => false,
        Err(found) => found == usage,
    }
}

/// Whether the arguments in this text, with spaces between them, are rejected in this way.
fn is_line_refused(alloc: Global, line: &str, usage: Usage) -> Result<bool, Fail> {
    let words: Vec<&str> = line.split(' ').collect(alloc)?;
    Ok(is_refused(alloc, words.as_slice(), usage))
}

const REFUSED: [(&str, Usage); 26] = [
    ("svndumpfilter", Usage::Words),
    ("svndumpfilter include", Usage::Words),
    ("svndumpfilter filter a", Usage::Words),
    ("svndumpfilter Include a", Usage::Words),
    ("svndumpfilter --drop-empty-revs include a", Usage::Words),
    ("svndumpfilter include --preserve-revprops", Usage::Words),
    ("svndumpfilter include -x", Usage::Words),
    ("svndumpfilter include a -x", Usage::Words),
    ("p include --preserve a", Usage::Words),
    ("p include --preserve-revprops= a", Usage::Words),
    ("p include --renumber a", Usage::Words),
    ("p include --help a", Usage::Words),
    ("p help include", Usage::Words),
    (
        "p include --preserve-revprops --preserve-revprops a",
        Usage::Words,
    ),
    ("p include --renumber-revs --renumber-revs a", Usage::Words),
    ("p include --workers 2 --workers 3 a", Usage::Words),
    (
        "p include --drop-empty-revs --drop-empty-revs a",
        Usage::Words,
    ),
    (
        "p include --drop-all-empty-revs --drop-all-empty-revs a",
        Usage::Words,
    ),
    ("p include --workers 65 a", Usage::Words),
    ("p include --workers 0 a", Usage::Words),
    ("p include --window 4097 a", Usage::Words),
    ("p include --window 0 trunk", Usage::Words),
    ("p include --window many a", Usage::Words),
    ("p include a --window", Usage::Words),
    (
        "p exclude --drop-all-empty-revs --drop-empty-revs a",
        Usage::BothDrops,
    ),
    (
        "p exclude --drop-all-empty-revs --drop-empty-revs",
        Usage::Words,
    ),
];

#[test]
fn other_words_are_refused(rt: HostRuntime) -> Result<(), Fail> {
    assert!(rt; is_refused(rt.alloc(), &[], Usage::Words));
    for (line, usage) in &REFUSED {
        assert!(rt; is_line_refused(rt.alloc(), line, *usage)?, "{line}");
    }
    Ok(())
}

fn is_quiet_by_two(order: &Order) -> bool {
    order.options.side() == Side::Exclude
        && order.options.prefix(1) == Some(b"b".as_slice())
        && (order.plan.workers(), order.plan.window(), order.quiet) == (2, 64, true)
}

/// Run with each allocation failing in turn: the call returns an order, or the error for memory.
#[test]
fn an_order_or_no_memory(rt: HostRuntime) {
    let words = [
        "svndumpfilter",
        "exclude",
        "--workers",
        "2",
        "--quiet",
        "a",
        "b",
    ];
    let answered = match options_of(rt.alloc(), &words) {
        Ok(order) => is_quiet_by_two(&order),
        Err(usage) => usage == Usage::Memory,
    };
    assert!(rt; answered);
}
