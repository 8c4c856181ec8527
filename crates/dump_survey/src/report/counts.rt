//! The number of nodes for which each kind of finding was reported.
ghost use Rattle.std.specs.Prelude.{◌≡◌, ◌+◌, ◌<◌, ◌^◌};
ghost use Rattle.dump_history.specs.declared.findings.Finding.{Finding};
ghost use Rattle.dump_survey.specs.steps.Counts.{AreWithNode, count_in};

use crate::findings::node::Found;
use dump_history::{FINDINGS, Finding, every_finding};

/// For each kind, the number of nodes for which it was reported; the index is the kind's number in `Finding`.
#[derive(Clone, Copy)]
pub(crate) struct Counts {
    times: [u64; FINDINGS],
}

impl Counts {
    /// The counts before the first node.
    pub(crate) fn new() -> Counts
        ensures { (f : Finding) → count_in result f ≡ 0 }
    {
        Counts {
            times: [0; FINDINGS],
        }
    }

    /// The number of nodes for which the kind was reported.
    pub(crate) fn of(&self, finding: Finding) -> u64
        ensures { result ≡ count_in self.now finding }
    {
        self.times[finding as usize]
    }

    /// The counts after one more node.
    pub(crate) fn with(&self, found: &Found<'_>) -> Counts
        requires { (f : Finding) → count_in self.now f + 1 < 2 ^ 64 }
        ensures { AreWithNode self.now found.now result }
    {
        let mut times = self.times;
        for finding in every_finding() {
            if found.has(*finding) {
                times[*finding as usize] += 1;
            }
        }
        Counts { times }
    }
}
