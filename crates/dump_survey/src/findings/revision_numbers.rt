//! The revision numbers that decide whether the filter has a new number for a revision that a node names.
ghost use Rattle.std.specs.Prelude.{◌≡◌, Some};
ghost use Rattle.dump_survey.specs.steps.RevisionNumbers.{is_missing};

/// The numbers with which the survey compares the revisions that a kept node names in a copy source or in mergeinfo.
#[derive(Clone, Copy)]
pub(crate) struct Numbers {
    /// The number of the dump's first revision.
    pub(crate) first: u64,
    /// The least number of the kept revisions before the present one.
    pub(crate) least: Option<u64>,
    /// The number of the present revision, which is kept because the node is kept.
    pub(crate) present: u64,
}

impl Numbers {
    /// Whether the revision with this number has no new number, or comes after the present revision.
    pub(crate) fn is_missing(&self, number: u64) -> bool
        ensures { result ≡ is_missing self.now (Some number) }
    {
        let is_reached = match self.least {
            Some(least) => least <= number,
            None => false,
        };
        !(is_reached || self.present <= number) || self.present < number
    }
}
