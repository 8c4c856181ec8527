//! The copies of a dump that need their source.
ghost use Rattle.std.specs.Prelude.{◌≡◌, List, IfOk, map, option_map};
ghost use Rattle.dump_records.specs.RecordText.{DumpRecord};
ghost use Rattle.dump_records.specs.DumpText.{Ending, HasRecords};
ghost use Rattle.dump_records.specs.steps.RecordViews.{record_item};
ghost use Rattle.dump_survey.specs.PrefixesToAdd.{matches_itself};
ghost use Rattle.dump_survey.specs.steps.CopyNeeds.{HasCollected, needs_source, need_of, need_view, needs_of};

use crate::findings::prefixes::begins_path;
use crate::visitor::{RecordVisitor, visit_records};
use dump_nodes::{copy_path_of, is_copy, is_whole_file, path_of};
use dump_records::Record;
use dump_rules::{Memory, Side, bare_path, bare_prefix};
use std::alloc::Global;

/// What a copy needs: if a prefix matches the path `matched`, a prefix has to match the path `wanted` too.
#[derive(Clone, Copy)]
pub(crate) struct CopyNeed<'a> {
    pub(crate) matched: &'a [u8],
    pub(crate) wanted: &'a [u8],
}

/// Whether the path matches itself if it is used as a prefix.
fn matches_itself(path: &[u8]) -> bool
    ensures { result ≡ matches_itself path.now }
{
    begins_path(bare_prefix(path), bare_path(path))
}

/// Whether the node is a copy that the filter can't write without its source: one that isn't a whole file.
fn needs_source(item: &Record<'_>) -> bool
    ensures { result ≡ needs_source (record_item item.now) }
{
    item.is_node() && is_copy(item) && !is_whole_file(item)
}

/// What the record needs if it is a copy that needs its source. `None` also if the wanted path doesn't match itself.
fn need_of<'a>(item: &Record<'a>, side: Side) -> Option<CopyNeed<'a>>
    ensures { option_map need_view result ≡ need_of side (record_item item.now) }
{
    if !needs_source(item) {
        return None;
    }
    let path = path_of(item);
    let source = copy_path_of(item);
    let need = match side {
        Side::Include => CopyNeed {
            matched: path,
            wanted: source,
        },
        Side::Exclude => CopyNeed {
            matched: source,
            wanted: path,
        },
    };
    if matches_itself(need.wanted) {
        Some(need)
    } else {
        None
    }
}

/// Collects what the copies of a dump need.
#[derive(Drop)]
struct NeedCollector<'a> {
    side: Side,
    needs: Vec<CopyNeed<'a>>,
}

impl<'a> RecordVisitor<'a> for NeedCollector<'a> {
    type Error = Memory;

    ghost has_visited = { λ first records now. HasCollected first records now };

    fn visit(&mut self, item: &Record<'a>) -> Result<(), Memory> {
        if let Some(need) = need_of(item, self.side) {
            self.needs.push(need)?;
        }
        Ok(())
    }
}

/// What the records of the dump need, in the dump's order, up to the end of the list of records.
pub(crate) fn needs_in<'a>(
    alloc: Global,
    dump: &'a [u8],
    side: Side,
) -> Result<Vec<CopyNeed<'a>>, Memory>
    ensures { IfOk result (λ needs. (records : List DumpRecord) × (ending : Ending) × HasRecords dump.now records ending
        × (map need_view needs.items ≡ needs_of side records)) }
{
    let mut collector = NeedCollector {
        side,
        needs: Vec::new(alloc),
    };
    visit_records(dump, &mut collector)?;
    Ok(collector.needs)
}
