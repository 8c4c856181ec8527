//! One call of each function, worked digests of either kind, and which records a verdict checks.
ghost use Rattle.std.specs.Prelude.{◌≡◌};
ghost use Rattle.dump_digest.specs.steps.DoneViews.{done_settings};

use dump_digest::{Done, Verdict, check, is_kept, properties_of};
use dump_records::{Cut, Cutter, Record};
use dump_rules::Options;
use dump_text::FaultKind;
use std::alloc::Global;
use std::process::Abort;
use std::test::Fail;

mod deletions;

const UUID: u64 = 1;

const REVISION: u64 = 2;

const GOOD_NODE: u64 = 3;

const BAD_NODE: u64 = 4;

const OTHER_BAD_NODE: u64 = 5;

const DUMP: &[u8] = b"SVN-fs-dump-format-version: 2\n\n\
UUID: a\n\n\
Revision-number: 0\nProp-content-length: 10\nContent-length: 10\n\nPROPS-ENDX\n\
Node-path: trunk\nProp-content-length: 10\nContent-length: 10\n\nPROPS-END\n\n\n\
Node-path: trunk/a\nProp-content-length: 10\nContent-length: 10\n\nPROPS-ENDX\n\n\
Node-path: tags\nProp-content-length: 10\nContent-length: 10\n\nPROPS-ENDX\n\n";

const OK: Verdict = Verdict {
    props_ok: true,
    md5_ok: true,
    sha1_ok: true,
    merge_ok: true,
    checked: false,
};

const CHECKED: Verdict = Verdict {
    checked: true,
    ..OK
};

const BAD_PROPERTIES: Verdict = Verdict {
    props_ok: false,
    ..OK
};

const BAD_MD5: Verdict = Verdict {
    md5_ok: false,
    ..CHECKED
};

const BAD_SHA1: Verdict = Verdict {
    sha1_ok: false,
    ..CHECKED
};

const BAD_DIGESTS: Verdict = Verdict {
    sha1_ok: false,
    ..BAD_MD5
};

const BAD_MERGEINFO: Verdict = Verdict {
    merge_ok: false,
    ..OK
};

fn record(dump: &[u8], number: u64) -> Result<Record<'_>, Fail> {
    let mut cutter = Cutter::new(dump);
    for _ in 0..number {
        let _ = cutter.next();
    }
    match cutter.next() {
        Cut::Item(record) => Ok(record),
        _ => Err("no record".into()),
    }
}

fn include_trunk(alloc: Global) -> Result<Options, Fail> {
    Ok(Options::include(alloc, &[b"trunk"])?)
}

/// Whether the record with this number in the dump above has this place and this verdict.
fn is_done(alloc: Global, number: u64, place: usize, verdict: Verdict) -> Result<bool, Fail> {
    let item = record(DUMP, number)?;
    let options = include_trunk(alloc)?;
    let done = Done::of(item, &options);
    Ok(done.verdict() == verdict && (done.item().number(), done.item().place()) == (number, place))
}

#[test]
fn a_done_keeps_its_record_and_verdict(rt: HostRuntime) -> Result<(), Fail> {
    assert!(rt; is_done(rt.alloc(), UUID, 31, OK)?);
    assert!(rt; is_done(rt.alloc(), REVISION, 40, BAD_PROPERTIES)?);
    Ok(())
}

/// The verdict on the record with this number.
fn verdict_in(alloc: Global, dump: &[u8], number: u64) -> Result<Verdict, Fail> {
    let item = record(dump, number)?;
    let options = include_trunk(alloc)?;
    Ok(check(&item, &options))
}

#[test]
fn properties_of_revisions_and_of_kept_nodes_are_checked(rt: HostRuntime) -> Result<(), Fail> {
    for (number, verdict) in [
        (UUID, OK),
        (REVISION, BAD_PROPERTIES),
        (GOOD_NODE, OK),
        (BAD_NODE, BAD_PROPERTIES),
        (OTHER_BAD_NODE, OK),
    ] {
        assert!(rt;
            verdict_in(rt.alloc(), DUMP, number)? == verdict,
            "{number}"
        );
    }
    Ok(())
}

/// Whether the record of the dump above with this number is a kept node.
fn is_kept_node(alloc: Global, number: u64) -> Result<bool, Fail> {
    let item = record(DUMP, number)?;
    let options = include_trunk(alloc)?;
    Ok(is_kept(&item, &options))
}

#[test]
fn nodes_are_kept_by_their_paths(rt: HostRuntime) -> Result<(), Fail> {
    assert!(rt; is_kept_node(rt.alloc(), BAD_NODE)?);
    assert!(rt; !is_kept_node(rt.alloc(), OTHER_BAD_NODE)?);
    assert!(rt; !is_kept_node(rt.alloc(), REVISION)?);
    Ok(())
}

#[test]
fn properties_of_a_record_are_a_property_block(rt: HostRuntime) -> Result<(), Fail> {
    let good = record(DUMP, GOOD_NODE)?;
    let bad = record(DUMP, BAD_NODE)?;
    assert!(rt; properties_of(&good).is_some() && properties_of(&bad).is_none());
    Ok(())
}

fn joined(alloc: Global, parts: &[&str]) -> Result<String, Fail> {
    let mut text = String::new(alloc);
    for part in parts {
        text.push_str(part)?;
    }
    Ok(text)
}

/// The verdict on the only record in a dump of this version.
fn verdict_under(alloc: Global, version: &str, text: &str) -> Result<Verdict, Fail> {
    let dump = joined(
        alloc,
        &["SVN-fs-dump-format-version: ", version, "\n\n", text],
    )?;
    verdict_in(alloc, dump.as_bytes(), 1)
}

/// The verdict on the only record in a dump of version 2.
fn verdict_on(alloc: Global, text: &str) -> Result<Verdict, Fail> {
    verdict_under(alloc, "2", text)
}

/// A file with the text `abc` and these lines.
fn abc_file(alloc: Global, path: &str, lines: &str) -> Result<String, Fail> {
    let parts = [
        "Node-path: ",
        path,
        "\nNode-kind: file\nNode-action: add\nText-content-length: 3\n",
        lines,
        "Content-length: 3\n\nabc\n\n",
    ];
    joined(alloc, &parts)
}

/// The verdict on a file with the text `abc` and these digest lines.
fn verdict_on_abc(alloc: Global, path: &str, digests: &str) -> Result<Verdict, Fail> {
    let file = abc_file(alloc, path, digests)?;
    verdict_on(alloc, file.as_str())
}

const DIGESTS: [(&str, Verdict); 12] = [
    ("", OK),
    (
        "Text-content-md5: 900150983cd24fb0d6963f7d28e17f72\n",
        CHECKED,
    ),
    (
        "Text-content-md5: 900150983CD24FB0D6963F7D28E17F72\n",
        CHECKED,
    ),
    (
        "Text-content-md5: 900150983cd24fb0d6963f7d28e17f73\n",
        BAD_MD5,
    ),
    (
        "Text-content-md5: 900150983cd24fb0d6963f7d28e17f7\n",
        BAD_MD5,
    ),
    (
        "Text-content-md5: 900150983cd24fb0d6963f7d28e17f720\n",
        BAD_MD5,
    ),
    (
        "Text-content-md5: 900150983cd24fb0d6963f7d28e17f7x\n",
        BAD_MD5,
    ),
    ("Text-content-md5: \n", BAD_MD5),
    (
        "Text-content-sha1: a9993e364706816aba3e25717850c26c9cd0d89d\n",
        CHECKED,
    ),
    (
        "Text-content-sha1: A9993E364706816ABA3E25717850C26C9CD0D89D\n",
        CHECKED,
    ),
    (
        "Text-content-sha1: a9993e364706816aba3e25717850c26c9cd0d89e\n",
        BAD_SHA1,
    ),
    (
        "Text-content-sha1: 900150983cd24fb0d6963f7d28e17f72\n",
        BAD_SHA1,
    ),
];

#[test]
fn digests_are_those_of_the_text(rt: HostRuntime) -> Result<(), Fail> {
    for (digests, verdict) in &DIGESTS {
        assert!(rt;
            verdict_on_abc(rt.alloc(), "trunk/f", digests)? == *verdict,
            "{digests}"
        );
        assert!(rt;
            verdict_on_abc(rt.alloc(), "other/f", digests)? == OK,
            "{digests}"
        );
    }
    Ok(())
}

const RIGHT_DIGESTS: &str = "Text-content-sha1: a9993e364706816aba3e25717850c26c9cd0d89d\n\
Text-content-md5: 900150983cd24fb0d6963f7d28e17f72\n";

const WRONG_DIGESTS: &str = "Text-content-sha1: a9993e364706816aba3e25717850c26c9cd0d89e\n\
Text-content-md5: 900150983cd24fb0d6963f7d28e17f73\n";

#[test]
fn both_digests_are_told(rt: HostRuntime) -> Result<(), Fail> {
    let found = verdict_on_abc(rt.alloc(), "trunk/f", WRONG_DIGESTS)?;
    assert!(rt; found == BAD_DIGESTS);
    Ok(())
}

/// The verdict on a file with the text `abc`, these digest lines and this line about deltas, under a version.
fn verdict_on_delta(
    alloc: Global,
    version: &str,
    delta: &str,
    digests: &str,
) -> Result<Verdict, Fail> {
    let lines = joined(alloc, &[delta, digests])?;
    let file = abc_file(alloc, "trunk/f", lines.as_str())?;
    verdict_under(alloc, version, file.as_str())
}

const DELTAS: [(&str, &str, Verdict, Verdict); 6] = [
    ("3", "Text-delta: true\n", OK, OK),
    ("3", "Text-delta: false\n", CHECKED, BAD_DIGESTS),
    ("3", "Prop-delta: true\n", CHECKED, BAD_DIGESTS),
    ("3", "", CHECKED, BAD_DIGESTS),
    ("2", "Text-delta: true\n", CHECKED, BAD_DIGESTS),
    ("2", "Text-delta: false\n", CHECKED, BAD_DIGESTS),
];

#[test]
fn deltas_are_not_digested(rt: HostRuntime) -> Result<(), Fail> {
    for (version, delta, right, wrong) in &DELTAS {
        let found = verdict_on_delta(rt.alloc(), version, delta, RIGHT_DIGESTS)?;
        assert!(rt; found == *right, "{version} {delta}");
        let found = verdict_on_delta(rt.alloc(), version, delta, WRONG_DIGESTS)?;
        assert!(rt; found == *wrong, "{version} {delta}");
    }
    Ok(())
}

/// Three deltas with wrong digests, under version 2, then 3, then 2 again.
fn thrice(alloc: Global) -> Result<String, Fail> {
    let lines = joined(alloc, &["Text-delta: true\n", WRONG_DIGESTS])?;
    let file = abc_file(alloc, "trunk/f", lines.as_str())?;
    let two = "SVN-fs-dump-format-version: 2\n\n";
    let three = "SVN-fs-dump-format-version: 3\n\n";
    let parts = [two, file.as_str(), three, file.as_str(), two, file.as_str()];
    joined(alloc, &parts)
}

#[test]
fn the_version_in_force_says_what_a_delta_is(rt: HostRuntime) -> Result<(), Fail> {
    let dump = thrice(rt.alloc())?;
    for (number, verdict) in [(1, BAD_DIGESTS), (3, OK), (5, BAD_DIGESTS)] {
        let found = verdict_in(rt.alloc(), dump.as_bytes(), number)?;
        assert!(rt; found == verdict, "{number}");
    }
    Ok(())
}

#[test]
fn texts_have_a_length(rt: HostRuntime) -> Result<(), Fail> {
    let none = "Node-path: trunk/f\nNode-action: change\n\
Text-content-md5: 900150983cd24fb0d6963f7d28e17f73\n\n\n";
    assert!(rt; verdict_on(rt.alloc(), none)? == OK);
    let empty = "Node-path: trunk/f\nText-content-length: 0\n\
Text-content-md5: d41d8cd98f00b204e9800998ecf8427e\nContent-length: 0\n\n\n\n";
    assert!(rt; verdict_on(rt.alloc(), empty)? == CHECKED);
    let behind_properties = "Node-path: trunk/f\nProp-content-length: 10\nText-content-length: 3\n\
Text-content-md5: 900150983cd24fb0d6963f7d28e17f72\nContent-length: 13\n\nPROPS-END\nabc\n\n";
    assert!(rt; verdict_on(rt.alloc(), behind_properties)? == CHECKED);
    Ok(())
}

/// The verdict on a record with two property values of the same length and this end of the block.
fn verdict_on_values(
    alloc: Global,
    header: &str,
    first: &str,
    second: &str,
    end: &str,
) -> Result<Verdict, Fail> {
    let name = "K 13\nsvn:mergeinfo\nV 8\n";
    let lengths = "\nProp-content-length: 74\nContent-length: 74\n\n";
    let parts = [
        header, lengths, name, first, "\n", name, second, "\n", end, "\n",
    ];
    let text = joined(alloc, &parts)?;
    verdict_on(alloc, text.as_str())
}

const KEPT: &str = "Node-path: trunk";

const VALUES: [(&str, &str, &str, &str, Verdict); 6] = [
    (KEPT, "/trunk:1", "/trunk:2", "PROPS-END\n", OK),
    (KEPT, "/trunk:1", "/trunk:0", "PROPS-END\n", BAD_MERGEINFO),
    (KEPT, "/trunk:0", "/trunk:1", "PROPS-END\n", BAD_MERGEINFO),
    (KEPT, "/trunk:0", "/trunk:1", "PROPS-ENDX", BAD_PROPERTIES),
    ("Node-path: tags", "/trunk:0", "/trunk:1", "PROPS-END\n", OK),
    (
        "Revision-number: 1",
        "/trunk:0",
        "/trunk:1",
        "PROPS-END\n",
        OK,
    ),
];

#[test]
fn mergeinfo_of_kept_nodes_is_checked(rt: HostRuntime) -> Result<(), Fail> {
    for (header, first, second, end, verdict) in &VALUES {
        let found = verdict_on_values(rt.alloc(), header, first, second, end)?;
        assert!(rt; found == *verdict, "{header} {first} {second} {end}");
    }
    Ok(())
}

/// A kept node with mergeinfo, copied from a path that isn't kept, and another node.
const COPY: &[u8] = b"SVN-fs-dump-format-version: 2\n\n\
Node-path: trunk\nNode-copyfrom-rev: 1\nNode-copyfrom-path: tags\n\
Prop-content-length: 45\nContent-length: 45\n\nK 13\nsvn:mergeinfo\nV 10\n/trunk:2-4\nPROPS-END\n\n\n\
Node-path: tags\n\n\n";

fn is_read(done: &Done<'_>, options: &Options) -> bool
    requires { done_settings done.now ≡ options.now }
{
    let range = Some(FaultKind::MergeRange);
    done.is_kept()
        && done.has_mergeinfo()
        && done.has_lost_source()
        && done.merge_fault(options, 2, 4).is_none()
        && done.merge_fault(options, 3, 4) == range
        && done.merge_fault(options, 2, 3) == range
}

fn has_copied_mergeinfo(done: &Done<'_>) -> bool {
    match done.props() {
        Some(props) => props.get(b"svn:mergeinfo") == Some(b"/trunk:2-4".as_slice()),
        None => false,
    }
}

fn is_dropped(done: &Done<'_>) -> bool {
    !done.is_kept() && done.props().is_none()
}

#[test]
fn a_done_tells_what_its_check_read(rt: HostRuntime) -> Result<(), Fail> {
    let kept = record(COPY, 1)?;
    let other = record(COPY, 2)?;
    let options = Options::include(rt.alloc(), &[b"trunk"])?.with_renumber(true);
    let done = Done::of(kept, &options);
    let read = is_read(&done, &options) && has_copied_mergeinfo(&done);
    assert!(rt; read && is_dropped(&Done::of(other, &options)));
    Ok(())
}
