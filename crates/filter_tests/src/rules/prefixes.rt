//! Which paths prefixes keep, and options as the caller passed them.
use super::options;
use dump_rules::{Empty, Memory, Options, Side, keeps};
use std::alloc::Global;
use std::test::Fail;

/// Whether options with these prefixes and this side keep a path.
fn is_kept(alloc: Global, side: Side, prefixes: &[&[u8]], path: &[u8]) -> Result<bool, Memory> {
    Ok(keeps(&options(alloc, side, prefixes)?, path))
}

/// Whether these prefixes match a path, as `matched` says: one side then keeps the path, and the other one doesn't.
fn is_matched(
    alloc: Global,
    prefixes: &[&[u8]],
    path: &[u8],
    matched: bool,
) -> Result<bool, Memory> {
    let included = is_kept(alloc, Side::Include, prefixes, path)?;
    let left = is_kept(alloc, Side::Exclude, prefixes, path)?;
    Ok(included == matched && left != matched)
}

const NAMES: [(&[u8], &[u8], bool); 16] = [
    (b"trunk", b"trunk", true),
    (b"trunk", b"trunk/a", true),
    (b"trunk", b"/trunk/a", true),
    (b"trunk", b"trunk2", false),
    (b"trunk", b"trunk2/a", false),
    (b"trunk", b"a/trunk", false),
    (b"trunk", b"", false),
    (b"//trunk/", b"trunk", true),
    (b"//trunk/", b"trunk/a", true),
    (b"//trunk/", b"/trunk/a", true),
    (b"//trunk/", b"trunk2", false),
    (b"//trunk/", b"", false),
    (b"/", b"trunk2", true),
    (b"/", b"", true),
    (b"", b"trunk2", true),
    (b"", b"", true),
];

#[test]
fn prefixes_match_whole_names(rt: HostRuntime) -> Result<(), Fail> {
    for (prefix, path, matched) in &NAMES {
        let right = is_matched(rt.alloc(), &[*prefix], path, *matched)?;
        assert!(rt; right, "{prefix:?} {path:?}");
    }
    Ok(())
}

#[test]
fn no_prefix_matches_no_path(rt: HostRuntime) -> Result<(), Fail> {
    assert!(rt; !is_kept(rt.alloc(), Side::Include, &[], b"a")?);
    assert!(rt; is_kept(rt.alloc(), Side::Exclude, &[], b"a")?);
    Ok(())
}

/// Whether options have exactly these two prefixes.
fn has_two_prefixes(given: &Options, first: &[u8], second: &[u8]) -> bool {
    given.prefix(0) == Some(first) && given.prefix(1) == Some(second) && given.prefix(2).is_none()
}

/// Whether options with these two prefixes return what was passed.
fn is_handed_in(
    alloc: Global,
    side: Side,
    empty: Empty,
    flags: [bool; 3],
    prefixes: [&[u8]; 2],
) -> Result<bool, Memory> {
    let [renumber, preserve, skip] = flags;
    let given = Options::new(alloc, side, &prefixes, empty, renumber, preserve, skip)?;
    let [first, second] = prefixes;
    Ok(
        given.side() == side
            && given.empty() == empty
            && [given.renumber(), given.preserve(), given.skip_missing()] == flags
            && has_two_prefixes(&given, first, second),
    )
}

#[test]
fn options_are_as_handed_in(rt: HostRuntime) -> Result<(), Fail> {
    let prefixes = [b"//trunk/".as_slice(), b""];
    for (side, empty, flags) in [
        (Side::Include, Empty::Pad, [true, false, false]),
        (Side::Exclude, Empty::DropEmptied, [false, true, false]),
        (Side::Include, Empty::DropAll, [false, false, true]),
    ] {
        assert!(rt; is_handed_in(rt.alloc(), side, empty, flags, prefixes)?);
    }
    Ok(())
}

/// Run with each allocation failing in turn: `Options::new` returns complete options or an error.
#[test]
fn options_or_no_memory(rt: HostRuntime) {
    let answered = match options(rt.alloc(), Side::Include, &[b"trunk", b"tags"]) {
        Ok(given) => has_two_prefixes(&given, b"trunk", b"tags"),
        Err(refused) => refused == Memory,
    };
    assert!(rt; answered);
}

const AMONG_MANY: [(&[u8], bool); 24] = [
    (b"a", false),
    (b"a/b", true),
    (b"/a/b", true),
    (b"//a/b", false),
    (b"a/b/", true),
    (b"a/b/c", true),
    (b"a/b/c/d", true),
    (b"a/bc", false),
    (b"a/b.c", false),
    (b"a-b", true),
    (b"a-b/a", true),
    (b"a-b.a", false),
    (b"a.b", true),
    (b"a.b/b", true),
    (b"a.b-b", false),
    (b"a,b", false),
    (b"a0b", false),
    (b"trunk", false),
    (b"trunk/x", false),
    (b"trunk//x", true),
    (b"trunk//x/y", true),
    (b"/tags/1/2", true),
    (b"/", false),
    (b"", false),
];

#[test]
fn one_of_many_prefixes_matches(rt: HostRuntime) -> Result<(), Fail> {
    let prefixes = [
        b"a/b".as_slice(),
        b"/a/b/c/",
        b"a-b",
        b"trunk//x",
        b"//tags",
        b"a.b/",
        b"tags",
    ];
    for (path, matched) in &AMONG_MANY {
        let right = is_matched(rt.alloc(), &prefixes, path, *matched)?;
        assert!(rt; right, "{path:?}");
    }
    Ok(())
}

#[test]
fn an_empty_prefix_among_others_matches_all(rt: HostRuntime) -> Result<(), Fail> {
    for empty in [b"".as_slice(), b"/", b"//"] {
        let prefixes = [b"trunk", empty, b"tags/1"];
        for path in [b"".as_slice(), b"/", b"a", b"a/b/c", b"trunk", b"/trunk2"] {
            let kept = is_kept(rt.alloc(), Side::Include, &prefixes, path)?;
            assert!(rt; kept, "{empty:?} {path:?}");
        }
    }
    Ok(())
}

/// The options that include /p0000/ to /p4999/.
fn five_thousand(alloc: Global) -> Result<Options, Fail> {
    let mut names = Vec::new(alloc);
    for n in 0..5000u64 {
        names.push(format!(in alloc; "/p{n:04}/")?)?;
    }
    let prefixes: Vec<&[u8]> = names.iter().map(|name| name.as_bytes()).collect(alloc)?;
    Ok(options(alloc, Side::Include, &prefixes)?)
}

/// Whether these options keep the path that is `p`, this number and this end.
fn keeps_numbered(alloc: Global, options: &Options, n: u64, end: &str) -> Result<bool, Fail> {
    let path = format!(in alloc; "p{n:04}{end}")?;
    Ok(keeps(options, path.as_bytes()))
}

/// Whether these options keep `pN` and the paths below it, but no longer name.
fn keeps_whole_name(alloc: Global, options: &Options, n: u64) -> Result<bool, Fail> {
    for (end, kept) in [("", true), ("/a/b", true), ("0", false), ("-a", false)] {
        if keeps_numbered(alloc, options, n, end)? != kept {
            return Ok(false);
        }
    }
    Ok(true)
}

/// Whether these options keep exactly the paths at or below their prefixes.
fn keeps_five_thousand(alloc: Global, options: &Options) -> Result<bool, Fail> {
    for n in [0u64, 1, 2499, 4998, 4999] {
        if !keeps_whole_name(alloc, options, n)? {
            return Ok(false);
        }
    }
    for path in [b"p5000/a".as_slice(), b"p", b"p000", b"o/p0000", b""] {
        if keeps(options, path) {
            return Ok(false);
        }
    }
    Ok(options.prefix(4999) == Some(b"/p4999/".as_slice()))
}

#[test]
fn five_thousand_prefixes(rt: HostRuntime) -> Result<(), Fail> {
    let include = five_thousand(rt.alloc())?;
    assert!(rt; keeps_five_thousand(rt.alloc(), &include)?);
    Ok(())
}
