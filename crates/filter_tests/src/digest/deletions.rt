//! Properties that are deleted: where this is allowed, and when mergeinfo remains.
use super::{
    BAD_MERGEINFO, BAD_PROPERTIES, KEPT, OK, include_trunk, joined, record, verdict_under,
};
use dump_digest::{Done, Verdict, is_mergeinfo};
use std::alloc::Global;
use std::process::Abort;
use std::test::Fail;

/// A record with a property block of these entries.
fn record_with_entries(alloc: Global, header: &str, entries: &str) -> Result<String, Fail> {
    let length = format!(in alloc; "{}", entries.len().saturating_add(10))?;
    let parts = [
        header,
        "\nProp-content-length: ",
        length.as_str(),
        "\nContent-length: ",
        length.as_str(),
        "\n\n",
        entries,
        "PROPS-END\n\n",
    ];
    joined(alloc, &parts)
}

/// The verdict on such a record under a version.
fn verdict_on_entries(
    alloc: Global,
    version: &str,
    header: &str,
    entries: &str,
) -> Result<Verdict, Fail> {
    let item = record_with_entries(alloc, header, entries)?;
    verdict_under(alloc, version, item.as_str())
}

const DELETING: [(&str, &str, Verdict); 8] = [
    ("3", KEPT, OK),
    ("3", "Node-path: trunk\nProp-delta: true", OK),
    ("3", "Revision-number: 1", BAD_PROPERTIES),
    ("3", "Node-path: tags", OK),
    ("2", KEPT, BAD_PROPERTIES),
    ("2", "Node-path: trunk\nProp-delta: true", BAD_PROPERTIES),
    ("2", "Revision-number: 1", BAD_PROPERTIES),
    ("2", "Node-path: tags", OK),
];

#[test]
fn nodes_under_version_three_may_delete_properties(rt: HostRuntime) -> Result<(), Fail> {
    for (version, header, verdict) in &DELETING {
        let deleting = "K 1\na\nV 1\nb\nD 1\nc\n";
        let found = verdict_on_entries(rt.alloc(), version, header, deleting)?;
        assert!(rt; found == *verdict, "{version} {header}");
        let found = verdict_on_entries(rt.alloc(), version, header, "K 1\na\nV 1\nb\n")?;
        assert!(rt; found == OK, "{version} {header}");
    }
    Ok(())
}

/// Whether the first property is mergeinfo, as `first` says, and the node has mergeinfo, as `some` says.
fn has_mergeinfo(done: &Done<'_>, first: bool, some: bool) -> bool {
    let Some(props) = done.props() else {
        return false;
    };
    match props.entries().next() {
        Some(entry) => is_mergeinfo(&entry) == first && done.has_mergeinfo() == some,
        None => false,
    }
}

/// A dump of version 3 with a kept node with these entries.
fn dump_with_entries(alloc: Global, first: &str, second: &str) -> Result<String, Fail> {
    let entries = joined(alloc, &[first, second])?;
    let node = record_with_entries(alloc, "Node-path: trunk", entries.as_str())?;
    joined(alloc, &["SVN-fs-dump-format-version: 3\n\n", node.as_str()])
}

/// Whether the node of such a dump has this verdict, and mergeinfo as `first` and `some` say.
fn is_deleting(
    alloc: Global,
    dump: &[u8],
    first: bool,
    some: bool,
    verdict: Verdict,
) -> Result<bool, Fail> {
    let item = record(dump, 1)?;
    let options = include_trunk(alloc)?;
    let done = Done::of(item, &options);
    Ok(done.verdict() == verdict && has_mergeinfo(&done, first, some))
}

const GONE: &str = "D 13\nsvn:mergeinfo\n";

const SET: &str = "K 13\nsvn:mergeinfo\nV 8\n/trunk:1\n";

const BAD: &str = "K 13\nsvn:mergeinfo\nV 8\n/trunk:0\n";

const DELETED_MERGEINFO: [(&str, &str, bool, bool, Verdict); 5] = [
    (GONE, "", false, false, OK),
    (GONE, GONE, false, false, OK),
    (GONE, SET, false, true, OK),
    (SET, GONE, true, true, OK),
    (GONE, BAD, false, false, BAD_MERGEINFO),
];

#[test]
fn deleted_mergeinfo_is_none(rt: HostRuntime) -> Result<(), Fail> {
    for (first, second, first_is, has, verdict) in &DELETED_MERGEINFO {
        let dump = dump_with_entries(rt.alloc(), first, second)?;
        let told = is_deleting(rt.alloc(), dump.as_bytes(), *first_is, *has, *verdict)?;
        assert!(rt; told, "{first}{second}");
    }
    Ok(())
}
