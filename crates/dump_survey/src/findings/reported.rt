//! What a survey reports of the nodes of a dump.
ghost use Rattle.std.specs.Prelude.{◌≡◌, ◌++◌, IsTrue, OnOk, map};
ghost use Rattle.dump_records.specs.steps.RecordViews.{record_item};
ghost use Rattle.dump_digest.specs.RecordParts.{is_node};
ghost use Rattle.dump_survey.specs.Reported.{reported_view};
ghost use Rattle.dump_survey.specs.steps.Surveyed.{reported_of_finding, reported_of_node};

use crate::findings::node::Found;
use dump_history::{Finding, every_finding};
use dump_nodes::{copy_path_of, copy_revision_of, path_of};
use dump_records::Record;
use dump_rules::Memory;

/// A finding in a node, and the node's place.
#[derive(Clone, Copy, Debug, PartialEq, Eq)]
pub struct ReportedFinding<'o, 'a> {
    pub finding: Finding,
    /// The number of the node's record in the dump, from 0.
    pub number: u64,
    /// The offset of the record's first byte in the dump.
    pub place: usize,
    /// The number of the node's revision.
    pub revision: u64,
    /// The node's path, as the dump has it.
    pub path: &'a [u8],
    /// The path that the node is copied from, as the dump has it; empty if the node is no copy.
    pub copy_path: &'a [u8],
    /// The number of the revision that the node is copied from; 0 if the node is no copy.
    pub copy_revision: u64,
    /// The first prefix because of which the copy is filtered differently from its source, as the caller gave it, if
    /// this is the finding.
    pub prefix: Option<&'o [u8]>,
}

/// A node of a revision, and the findings in it.
#[derive(Clone, Copy)]
pub struct SurveyedNode<'o, 'a> {
    pub item: Record<'a>,
    /// The number of the node's revision.
    pub revision: u64,
    pub found: Found<'o>,
}

impl<'o, 'a> SurveyedNode<'o, 'a> {
    /// The report of one finding in the node.
    pub(crate) fn reported(&self, finding: Finding) -> ReportedFinding<'o, 'a>
        requires { IsTrue (is_node (record_item self.now.item)) }
        ensures { reported_view result ≡ reported_of_finding self.now finding }
    {
        ReportedFinding {
            finding,
            number: self.item.number(),
            place: self.item.place(),
            revision: self.revision,
            path: path_of(&self.item),
            copy_path: copy_path_of(&self.item),
            copy_revision: copy_revision_of(&self.item),
            prefix: self.found.prefix(finding),
        }
    }

    /// Appends one report for each finding in the node.
    pub fn report(&self, reported: &mut Vec<ReportedFinding<'o, 'a>>) -> Result<(), Memory>
        requires { IsTrue (is_node (record_item self.now.item)) }
        ensures { OnOk result (map reported_view reported.new.items
            ≡ map reported_view reported.old.items ++ reported_of_node self.now) }
    {
        for finding in every_finding() {
            if self.found.has(*finding) {
                reported.push(self.reported(*finding))?;
            }
        }
        Ok(())
    }
}
