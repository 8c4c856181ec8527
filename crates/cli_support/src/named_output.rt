//! An output to a file that is created by its name.
ghost use Rattle.std.specs.Prelude.{[], OnErr, OnOk};
ghost use Rattle.std.specs.Io.KnownBytes.{Keeps};
ghost use Rattle.cli_support.specs.NamedOutputs.{Replaces};

use std::io::{self, Write};

/// An output to a file that a program creates by its name.
pub trait NamedOutput: Write {
    /// Creates the file of this name, or empties it. After that, the output is written to this file.
    fn create(&mut self, name: &str) -> io::Result<()>
        ensures emptied { OnOk result (Replaces (Self.contents self.old) (Self.contents self.new) []) }
        ensures kept { OnErr result (Keeps (Self.contents self.old) (Self.contents self.new)) };
}
