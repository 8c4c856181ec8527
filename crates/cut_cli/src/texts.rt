//! The texts of `--help` and `--version`.
ghost use Rattle.std.specs.Prelude.{◌≡◌};
ghost use Rattle.cut_cli.specs.Texts.{info_text};

use cli_support::Info;

/// The text of `--help`.
pub const HELP: &str = "usage: svndumpcut include|exclude [OPTIONS] PREFIX...

Reads the dump of a whole Subversion repository on standard input, and writes a
dump without some paths on standard output. include keeps what is at and below
each prefix, and the directories above; exclude keeps what no prefix matches.

  --targets FILE     more prefixes, one a line; may be given again
  --map FILE         write the new number of each revision to this file
  --follow-copies    exclude also what is copied from excluded content; or
                     include also the sources of copies
  --keep-copies      keep excluded content where copies bring it back; only with
                     exclude
  --drop-empty-revs  drop revisions that lose all of their nodes, and renumber
  --after N          write only the revisions after N, for a repository that was
                     loaded from an earlier cut up to N
  --youngest N       write nothing unless the last revision of the dump is N
  --allow-missing    cut the dump although no revision has one of the prefixes
  --dry-run          do everything but write the new dump
  --quiet            write only warnings, faults and failures
  --verbose          write lists whole
  --workers N        check records by N workers, 1 to 64; the default is 4
  --window N         at most N records under way, 1 to 4096; the default is 64
  --help             print this text
  --version          print the version
  --                 every argument after this one is a prefix

The exit status is 0 if the dump is cut, 1 after a fault or a failure, 2 if the
arguments are wrong, and 3 if no revision has one of the prefixes, or copies
would bring excluded content back or change the cut of earlier revisions.
The manual page svndumpcut(1) has more.
";

/// The text of `--version`. CHANGELOG.md has this number.
pub const VERSION: &str = "svndumpcut, version 1.3.0-dev\n";

/// The text for which the user asked.
pub fn info_text(info: Info) -> &'static str
    ensures { result.now ≡ info_text info }
{
    match info {
        Info::Help => HELP,
        Info::Version => VERSION,
    }
}
