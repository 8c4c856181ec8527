//! The lines on standard error. Errors in writing them are ignored, because there is nowhere to report them.
ghost use Rattle.std.specs.Prelude.{OnOk};
ghost use Rattle.std.specs.Io.KnownBytes.{Appends};
ghost use Rattle.dump_cli.specs.steps.Lines.{report_line};

use dump_filter::Report;
use dump_text::FaultKind;
use std::io::{self, Write};

/// Writes the counts of a run without a fault.
pub fn write_report<E: Write>(errors: &mut E, report: Report) -> io::Result<()>
    ensures { OnOk result (Appends (E.contents errors.old) (E.contents errors.new) (report_line report)) }
{
    let Report {
        revisions_kept,
        revisions_dropped,
        nodes_kept,
        nodes_dropped,
        texts_checked,
    } = report;
    writeln!(
        errors,
        "revisions kept {revisions_kept}, dropped {revisions_dropped}; nodes kept {nodes_kept}, dropped {nodes_dropped}; texts checked {texts_checked}"
    )
}

/// Writes the fault of the record with this number, whose block begins at this place.
pub fn write_fault<E: Write>(errors: &mut E, kind: FaultKind, number: u64, place: usize) {
    let code = kind.code();
    let name = kind.name();
    let _ = writeln!(
        errors,
        "svndumpfilter: fault {code} {name} in record {number} at byte {place}"
    );
}
