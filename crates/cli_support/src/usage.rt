//! Why a program rejects its arguments.
ghost use Rattle.std.specs.Prelude.{◌≡◌, ◌≢◌, ◌⊎◌};
ghost use Rattle.clap.specs.Words.{kind_of};

use clap::Error;
use clap::error::ErrorKind;

/// What is wrong with arguments.
#[derive(Clone, Copy, Debug, PartialEq, Eq, thiserror::Error)]
pub enum Usage {
    /// The program has no such arguments.
    #[error("the program takes no such arguments")]
    Words,
    /// They ask for both ways to drop revisions.
    #[error("both ways to drop revisions are asked for")]
    BothDrops,
    /// An allocation failed while the program read them.
    #[error("no memory is left to read the arguments")]
    Memory,
}

/// Why clap rejects arguments.
pub fn refusal(error: &Error) -> Usage
    ensures memory { kind_of error.now ≡ ErrorKind.OutOfMemory → result ≡ Usage.Memory }
    ensures words { kind_of error.now ≢ ErrorKind.OutOfMemory → result ≡ Usage.Words }
    ensures either { (result ≡ Usage.Words) ⊎ (result ≡ Usage.Memory) }
{
    match error.kind() {
        ErrorKind::OutOfMemory => Usage::Memory,
        _ => Usage::Words,
    }
}
