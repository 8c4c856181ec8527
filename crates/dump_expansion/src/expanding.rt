//! Writes other nodes in place of some nodes of a dump.
ghost use Rattle.std.specs.Prelude.{◌≡◌, ◌++◌, IfOk, IsTrue, OnOk, map};
ghost use Rattle.std.specs.List.{list_all};
ghost use Rattle.dump_records.specs.steps.RecordViews.{record_dump, record_item};
ghost use Rattle.dump_records.specs.steps.Standing.{IsGap};
ghost use Rattle.dump_history.specs.WrittenNodes.{can_be_written};
ghost use Rattle.dump_expansion.specs.steps.GivenSteads.{IsExpandedBy};
ghost use Rattle.dump_expansion.specs.steps.ExpandedBytes.{IsExactlyExpandedBy};
ghost use Rattle.dump_expansion.specs.steps.Given.{can_all_be_written, given_of};
ghost use Rattle.dump_expansion.specs.steps.NewNodes.{written_of};
ghost use Rattle.dump_expansion.specs.steps.LeftParts.{IsLeftFrom};
ghost use Rattle.dump_expansion.specs.steps.NodeTexts.{nodes_text};

use crate::written_node::NewNode;
use dump_records::{Cut, Cutter, Record};
use dump_rules::Memory;
use std::alloc::Global;

/// The nodes that are written in place of a node of a dump.
#[derive(Drop)]
pub struct Stead<'t> {
    /// The number of the node's record in the dump.
    pub record_number: u64,
    pub nodes: Vec<NewNode<'t>>,
    /// Whether the node itself follows them.
    pub keeps: bool,
}

impl<'t> Stead<'t> {
    /// Whether all its nodes can be written.
    pub fn can_be_written(&self) -> bool
        ensures { result ≡ list_all can_be_written (given_of self.now).nodes }
    {
        for node in &self.nodes {
            if !node.can_be_written() {
                return false;
            }
        }
        true
    }
}

/// Whether all nodes of these can be written. [`expanded`] requires it.
pub fn can_all_be_written(steads: &[Stead<'_>]) -> bool
    ensures { result ≡ can_all_be_written (map given_of steads.now) }
{
    for stead in steads {
        if !stead.can_be_written() {
            return false;
        }
    }
    true
}

/// Appends the nodes, with one LF after each, or two after a directory or a file.
fn push_nodes(alloc: Global, out: &mut Vec<u8>, nodes: &[NewNode<'_>]) -> Result<(), Memory>
    ensures { OnOk result (out.new.items ≡ out.old.items ++ nodes_text (map written_of nodes.now)) }
{
    for node in nodes {
        node.write(alloc, out)?;
        out.extend_from_slice(node.end())?;
    }
    Ok(())
}

/// The number of LFs at the front of a text.
fn count_lfs(text: &[u8]) -> usize
    ensures { IsGap text.now result }
{
    let mut count = 0;
    for byte in text {
        if *byte != b'\n' {
            return count;
        }
        count += 1;
    }
    count
}

/// The byte of the dump at which the part begins that remains of a node. If the node isn't kept, the empty lines after
/// it are removed too.
fn left_from(dump: &[u8], node: &Record<'_>, keeps: bool) -> usize
    requires { record_dump node.now ≡ dump.now }
    ensures { IsLeftFrom dump.now (record_item node.now) keeps result }
{
    if keeps {
        return node.place();
    }
    let after = node.after();
    after + count_lfs(&dump[after..])
}

/// The dump with these nodes in place of its own. `steads` must be in the order of their record numbers. An element
/// for a record that is no node is ignored. If a number isn't greater than the one before it, or the dump doesn't have
/// it, that element and all after it are ignored. If a node isn't kept, the empty lines after it are removed too.
/// Everything else is copied unchanged, also what comes after the last record that can be read.
pub fn expanded(alloc: Global, dump: &[u8], steads: &[Stead<'_>]) -> Result<Vec<u8>, Memory>
    requires { IsTrue (can_all_be_written (map given_of steads.now)) }
    ensures records { IfOk result (λ text. IsExpandedBy (map given_of steads.now) dump.now text.items) }
    ensures bytes { IfOk result (λ text. IsExactlyExpandedBy (map given_of steads.now) dump.now text.items) }
{
    let mut cutter = Cutter::new(dump);
    let mut text = Vec::new(alloc);
    let mut left = steads;
    let mut from = 0;
    while let Cut::Item(item) = cutter.next() {
        let [stead, others @ ..] = left else {
            break;
        };
        if stead.record_number != item.number() {
            continue;
        }
        left = others;
        if !item.is_node() {
            continue;
        }
        text.extend_from_slice(&dump[from..item.place()])?;
        push_nodes(alloc, &mut text, &stead.nodes)?;
        from = left_from(dump, &item, stead.keeps);
    }
    text.extend_from_slice(&dump[from..])?;
    Ok(text)
}
