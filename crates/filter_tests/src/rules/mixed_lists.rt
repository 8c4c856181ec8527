//! Unsorted ranges of both kinds, more than fit a block.
use super::{are_read_between, falling};
use dump_rules::merge_reads;
use std::test::Fail;

const MIXED: [(&[u8], bool); 12] = [
    (b"/a:70*,60,1-100", false),
    (b"/a:70*,60,1-69", true),
    (b"/a:70*,60,1-70", false),
    (b"/a:70,60*,1-100*", false),
    (b"/a:70,60*,1-69*", true),
    (b"/a:80-90*,85-99,1-3", false),
    (b"/a:80-84*,85-99,1-3", true),
    (b"/a:9,5-6*,1-3,7-8*,4", true),
    (b"/a:9,5-6*,1-3,7-9*,4", false),
    (b"/a:9,4-6*,1-3,7-8*,4", false),
    (b"/a:9,5-6*,1-3,7-8*,4,0", false),
    (b"/a:9,5-6*,1-3,7-8*,,4", false),
];

#[test]
fn ranges_reach_over_others_of_their_kind(rt: HostRuntime) {
    for (value, reads) in &MIXED {
        assert!(rt; merge_reads(value) == *reads, "{value:?}");
    }
}

/// The even numbers fall from 20000 to 2, and between them are the odd numbers with stars. The lists have the same
/// number of ranges of either kind, or more of one of them.
#[test]
fn twenty_thousand_ranges_of_both_kinds_in_falling_order(rt: HostRuntime) -> Result<(), Fail> {
    let rows = [
        ("", "", true),
        ("30000,30001,30002,", "", true),
        ("30000*,30001*,30002*,", ",1*", true),
        ("2*,", "", false),
        ("1,", "", false),
        ("", ",20000*", false),
        ("", ",19999", false),
        ("", ",8192*", false),
        ("", ",8191", false),
        ("9999-10001*,", "", false),
        ("9999-10001,", "", false),
        ("25000-26000*,25500,", "", false),
        ("", ",0", false),
        ("", ",", false),
    ];
    let text = falling(rt.alloc(), 20000, 20000)?;
    assert!(rt; are_read_between(rt.alloc(), text.as_str(), &rows)?);
    Ok(())
}
