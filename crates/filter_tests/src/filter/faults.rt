//! A filter stays closed after a fault.

use crate::filter::blocks::{
    BROKEN_REVISION_1, REVISION_0, REVISION_1, REVISION_5, REVISION_6, TAG_OF_OTHER_0,
    TAG_OF_TRUNK_5, TRUNK, UUID, VERSION, X,
};
use crate::filter::{Asked, Refused, include, is_refused, preserve, renumber};
use dump_rules::Empty;
use dump_text::FaultKind;
use std::process::Abort;

#[test]
fn a_copy_of_a_dropped_revision_closes_the_filter(rt: HostRuntime) {
    let refused = Refused {
        asked: renumber(b"trunk"),
        dump: &[VERSION, REVISION_5, X, REVISION_6, TAG_OF_TRUNK_5],
        kind: FaultKind::CopyRevision,
        lengths: &[31, 31, 31, 31],
        written: &[VERSION],
    };
    assert!(rt; is_refused(rt.alloc(), &refused));
}

#[test]
fn a_copy_of_a_dropped_path_closes_the_filter(rt: HostRuntime) {
    let written = Refused {
        asked: include(b"trunk"),
        dump: &[VERSION, REVISION_0, REVISION_1, TRUNK, TAG_OF_OTHER_0],
        kind: FaultKind::CopySource,
        lengths: &[31, 31, 151, 376],
        written: &[VERSION, REVISION_0, REVISION_1, TRUNK],
    };
    assert!(rt; is_refused(rt.alloc(), &written));
    let held = Refused {
        dump: &[VERSION, REVISION_0, REVISION_1, TAG_OF_OTHER_0],
        lengths: &[31, 31, 151],
        written: &[VERSION, REVISION_0],
        ..written
    };
    assert!(rt; is_refused(rt.alloc(), &held));
}

#[test]
fn broken_properties_close_the_filter(rt: HostRuntime) {
    let refused = Refused {
        asked: Asked {
            empty: Empty::DropEmptied,
            ..include(b"trunk")
        },
        dump: &[VERSION, REVISION_0, BROKEN_REVISION_1, X],
        kind: FaultKind::Props,
        lengths: &[31, 31],
        written: &[VERSION],
    };
    assert!(rt; is_refused(rt.alloc(), &refused));
}

#[test]
fn a_record_out_of_order_closes_the_filter(rt: HostRuntime) {
    let node = Refused {
        asked: preserve(b"trunk"),
        dump: &[VERSION, TRUNK],
        kind: FaultKind::Order,
        lengths: &[31],
        written: &[VERSION],
    };
    assert!(rt; is_refused(rt.alloc(), &node));
    let parted = Refused {
        dump: &[VERSION, REVISION_0, UUID, TRUNK],
        lengths: &[31, 31, 195],
        written: &[VERSION, REVISION_0, UUID],
        ..node
    };
    assert!(rt; is_refused(rt.alloc(), &parted));
    let revision = Refused {
        dump: &[VERSION, REVISION_1, REVISION_1],
        lengths: &[31, 31],
        ..node
    };
    assert!(rt; is_refused(rt.alloc(), &revision));
}
