//! The texts of `--help` and `--version`.

/// The text of `--help`.
pub const HELP: &str = "usage: svndumpsurvey include|exclude [OPTIONS] PREFIX...

Reads the dump of a Subversion repository on standard input, and reports on
standard output what filtering it with these arguments would lose.

  --drop-empty-revs             drop revisions of which all nodes are excluded
  --drop-all-empty-revs         drop all revisions without an included node
  --renumber-revs               number the kept revisions without gaps
  --preserve-revprops           keep the properties of emptied revisions
  --skip-missing-merge-sources  drop lines of svn:mergeinfo of excluded paths
  --map                         write the new number of each kept revision too
  --quiet                       no effect; accepted because the filter has it
  --workers N, --window N       no effect either
  --help                        print this text
  --version                     print the version
  --                            every argument after this one is a prefix

The exit status is 0 if nothing is found, 1 if something is, 2 if the arguments
are wrong, and 3 if reading, writing or memory fails.
The manual page svndumpsurvey(1) has more.
";

/// The text of `--version`. CHANGELOG.md has this number.
pub const VERSION: &str = "svndumpsurvey, version 1.3.0-dev\n";
