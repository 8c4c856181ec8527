//! The kinds of records.
ghost use Rattle.std.specs.Prelude.{◌≡◌, unwrap_or};
ghost use Rattle.dump_records.specs.steps.KindReading.{version_in};

use dump_text::ValuePlace;

/// The kind of a record. Exactly one of four header names in its block says it.
#[derive(Clone, Copy, Debug, PartialEq, Eq)]
pub enum RecordKind {
    Version,
    Uuid,
    Revision,
    Node,
}

/// The kind of a record, with the values that only this kind has.
#[derive(Clone, Copy)]
pub(crate) enum KindParts {
    Version { number: u8 },
    Uuid,
    Revision { number: u64 },
    Node { path: ValuePlace },
    /// A caller that asks for the copy source reads it from the header lines. It isn't stored here, because copies are
    /// rare and records are sent between threads.
    Copy { path: ValuePlace },
}

impl KindParts {
    /// The format version in force for a record of this kind; `before` was in force before it.
    pub(crate) fn version_from(&self, before: u8) -> u8
        ensures { result ≡ unwrap_or (version_in self.now) before }
    {
        match self {
            KindParts::Version { number } => *number,
            _ => before,
        }
    }
}
