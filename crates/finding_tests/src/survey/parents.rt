//! The parent directories to create before loading, on example prefixes.
use super::{are_words, rules};
use dump_rules::Side;
use dump_survey::parents_to_create;
use std::alloc::Global;
use std::test::Fail;

/// Whether a call with these prefixes needs these directories; `wanted` has a blank after each.
fn is_created_first(alloc: Global, side: Side, words: &str, wanted: &str) -> Result<bool, Fail> {
    let options = rules(alloc, side, words)?;
    let directories = parents_to_create(alloc, &options)?;
    Ok(are_words(&directories, wanted))
}

/// Each row has the side, the prefixes with a blank between two, and the directories.
const PARENTS: [(Side, &str, &str); 7] = [
    (Side::Include, "a/b/c", "a a/b "),
    (Side::Include, "//a/b/ a/c d/e/f", "a d d/e "),
    (Side::Include, "a/b/c a", ""),
    (Side::Include, "a/b/c/d a/b", "a "),
    (Side::Include, "trunk", ""),
    (Side::Include, "a/b /", ""),
    (Side::Exclude, "a/b/c", ""),
];

#[test]
fn directories_above_prefixes_are_to_be_created(rt: HostRuntime) -> Result<(), Fail> {
    for (side, words, wanted) in &PARENTS {
        assert!(rt;
            is_created_first(rt.alloc(), *side, words, wanted)?,
            "{words}"
        );
    }
    Ok(())
}
