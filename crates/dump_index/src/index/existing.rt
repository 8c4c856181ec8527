//! Whether something exists at a path at some time.
ghost use Rattle.std.specs.Prelude.{◌≡◌, IfOk, false};
ghost use Rattle.dump_trees.specs.Paths.{names_of};
ghost use Rattle.dump_index.specs.steps.ExistsEver.{exists_ever};
ghost use Rattle.dump_index.specs.steps.InOrder.{ends_in_slash};

use super::ChangeIndex;
use dump_rules::Memory;
use std::alloc::Global;

impl<'a> ChangeIndex<'a> {
    /// Whether something exists at the path after some of the changes, at the end of a revision or within one.
    ///
    /// The function looks at the path before and after each change that touches it, the latest change first, and stops
    /// when it finds something.
    pub fn exists_ever(&self, alloc: Global, path: &[u8]) -> Result<bool, Memory>
        requires { ends_in_slash path.now ≡ false }
        ensures { IfOk result (λ found. found ≡ exists_ever self.now (names_of path.now)) }
    {
        let mut count = self.changes.len();
        loop {
            let kind = self.kind_at(alloc, path, count)?;
            if kind.is_some() {
                return Ok(true);
            }
            match self.latest_touching(path, count) {
                Some(place) => count = place,
                None => return Ok(false),
            }
        }
    }
}
