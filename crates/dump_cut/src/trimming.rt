//! Writes deletes after the nodes of a dump.
ghost use Rattle.std.specs.Prelude.{◌≡◌, IfOk, IsTrue, map};
ghost use Rattle.std.specs.List.{list_all};
ghost use Rattle.dump_history.specs.WrittenNodes.{is_plain_path};
ghost use Rattle.dump_cut.specs.TrimmedCopies.{IsTrimmedBy};
ghost use Rattle.dump_cut.specs.steps.TrimmedTexts.{delete_texts};

use dump_records::{Cut, Cutter};
use dump_writer::{Chunk, Memory, Piece};
use std::alloc::Global;

/// The nodes that delete these paths, each after a line feed.
fn delete_nodes(alloc: Global, paths: &[Vec<u8>]) -> Result<Vec<u8>, Memory>
    ensures { IfOk result (λ text. text.items ≡ delete_texts (map (λ path. path.items) paths.now)) }
{
    let mut text = Vec::new(alloc);
    for path in paths {
        text.extend_from_slice(b"\nNode-path: ")?;
        text.extend_from_slice(path)?;
        text.extend_from_slice(b"\nNode-action: delete\n\n")?;
    }
    Ok(text)
}

/// The whole dump, with deletes after its nodes. The first paths are deleted after the first node, and so on; after
/// the nodes for which there are no paths, nothing is deleted.
pub fn trimmed<'t>(
    alloc: Global,
    dump: &'t [u8],
    deletes: &[Vec<Vec<u8>>],
) -> Result<Piece<'t>, Memory>
    requires { IsTrue (list_all (λ paths. list_all (λ path. is_plain_path path.items) paths.items) deletes.now) }
    ensures { IfOk result (λ piece. IsTrimmedBy (map (λ paths. map (λ path. path.items) paths.items) deletes.now) dump.now piece) }
{
    let mut cutter = Cutter::new(dump);
    let mut piece = Piece::new(alloc);
    let mut left = deletes;
    let mut from = 0;
    while let Cut::Item(item) = cutter.next() {
        if !item.is_node() {
            continue;
        }
        let [paths, others @ ..] = left else {
            break;
        };
        left = others;
        if !paths.is_empty() {
            let after = item.after();
            piece.push(Chunk::Lent(&dump[from..after]))?;
            let nodes = delete_nodes(alloc, paths)?;
            piece.push(Chunk::Own(nodes))?;
            from = after;
        }
    }
    piece.push(Chunk::Lent(&dump[from..]))?;
    Ok(piece)
}
