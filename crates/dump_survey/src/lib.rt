//! A survey of a dump before it is filtered. It finds each place because of which the repository that is loaded from
//! the filtered dump may be wrong.
//!
//! A [`Surveyor`] reads a dump record by record, and finds the same records as the filter. [`Surveyor::next`] returns
//! the findings in each record. For a node of a revision these are a [`Found`], which [`SurveyedNode::report`] turns
//! into one [`ReportedFinding`] for each [`Finding`]. A [`ReportedFinding`] has the record's number and place, the
//! revision and the path. If a copy is filtered differently from its source, it also has the first prefix that causes
//! this. After the last record, `next` returns the findings in the dump as a whole, [`DumpFindings`], and whether the
//! records reach the end of the dump. Then [`Surveyor::reported_prefixes`] returns the prefixes that have no effect,
//! each with its [`PrefixFinding`].
//!
//! [`survey_dump`] keeps all findings in a [`Survey`]. [`write_survey`] writes a line for each finding as soon as it
//! is found, and keeps none of them. [`omitted_lines`] counts the lines of mergeinfo that the filter drops.
//! [`parents_to_create`] returns the parent directories to create. [`prefixes_to_add`] returns the prefixes to add so
//! that no copy stops the filter. [`write_advice`] writes the lines of all three. [`write_map`] writes the old and the
//! new number of each kept revision.
//!
//! ```
//! let mut sink = MemorySink::new(rt.alloc(), 8, Trouble::Never);
//! let answered = match write_survey(rt.alloc(), COPIED, &options, &mut sink) {
//!     Ok(found) => found && sink.taken() == CUT_LINES,
//!     Err(_) => true,
//! };
//! ```
//!
//! `survey::text::a_text_or_no_memory` of `finding_tests` runs this; `CUT_LINES` are the lines for the dump `COPIED`.
//! A caller writes the lines that follow the findings as in this example:
//!
//! ```
//! let Ok(options) = Options::include(rt.alloc(), &[b"x/y", b"c"]) else {
//!     return;
//! };
//! let mut sink = MemorySink::new(rt.alloc(), 8, Trouble::Never);
//! let written = write_advice(rt.alloc(), CHAIN, &options, true, &mut sink);
//! let lines = b"create first: /x\nalso include: /b\nalso include: /a\n".as_slice();
//! assert!(rt; written.is_err() || sink.taken() == lines);
//! ```
//!
//! `survey::added_prefixes::advice_or_no_memory` of `finding_tests` runs this on a dump that copies `a` to `b` and `b`
//! to `c`.
//!
//! The findings in nodes and in the dump are exactly those that `dump_history` defines, in the dump's order, and
//! [`laws`] says so. The survey looks only at header lines, properties and prefixes. It reads no text of a file and
//! builds no tree. So a finding may be harmless: there may be no node below the path that it names. The survey skips a
//! node outside of any revision, which the filter rejects, and reports of the whole dump that there is one.
//!
//! `Surveyor::new` takes memory for a list and a set of the prefixes. `next` takes memory if an excluded prefix is
//! below a copy or its source. `reported_prefixes` takes memory for its list. A surveyor keeps nothing else of a
//! record when it returns the next one. It compares each copy with each prefix once, so the time of a survey grows
//! with the number of copies times the number of prefixes. It looks the parts of a node's path up among the prefixes
//! that no earlier node has matched.
#![tactic(auto)]

mod advice;
mod findings;
pub mod laws;
mod report;
mod visitor;

pub use advice::added_prefixes::prefixes_to_add;
pub use advice::omitted_mergeinfo::omitted_lines;
pub use advice::parents::parents_to_create;
pub use dump_history::{DumpFinding, Finding, every_finding};
pub use dump_rules::Memory;
pub use findings::node::Found;
pub use findings::places::{DumpPlaces, Place};
pub use findings::prefix_findings::{PrefixFinding, ReportedPrefix};
pub use findings::reported::{ReportedFinding, SurveyedNode};
pub use findings::survey::{Survey, survey_dump};
pub use findings::surveyor::{End, Step, SurveyEnd, Surveyor};
pub use findings::tally::DumpFindings;
pub use report::revision_map::write_map;
pub use report::survey_text::{SurveyFailure, write_advice, write_survey};
