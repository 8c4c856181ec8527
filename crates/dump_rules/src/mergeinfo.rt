//! Reads the values of svn:mergeinfo.
ghost use Rattle.std.specs.Prelude.{◌≡◌, ◌↔◌, ◌==◌, IsTrue};
ghost use Rattle.std.specs.List.{list_all, slice_split};
ghost use Rattle.dump_rules.specs.Mergeinfo.{HasMergeLines};
ghost use Rattle.dump_rules.specs.steps.RewrittenLines.{line_list, line_path};
ghost use Rattle.dump_rules.specs.steps.ReadMergeinfo.{colon_end, line_reads, lines_read, without_lf};

use crate::ranges::list_reads;

/// The place after the last colon of a line; 0 if there is none.
pub(crate) fn colon_end(line: &[u8]) -> usize
    ensures { result ≡ colon_end line.now }
{
    let mut place = line.len();
    while place > 0 && line[place - 1] != b':' {
        place -= 1;
    }
    place
}

/// The path of a line of mergeinfo: all before its last colon.
pub fn merge_path_of(line: &[u8]) -> &[u8]
    ensures { result.now ≡ line_path line.now }
{
    &line[..colon_end(line).saturating_sub(1)]
}

/// The range list of a line: all after its last colon.
pub(crate) fn list_of(line: &[u8]) -> &[u8]
    ensures { result.now ≡ line_list line.now }
{
    &line[colon_end(line)..]
}

/// Whether the text is a line of a path, a colon and a range list.
fn line_reads(line: &[u8]) -> bool
    ensures { result ≡ line_reads line.now }
{
    let place = colon_end(line);
    place > 1 && list_reads(&line[place..])
}

/// Whether each part between LFs is a line.
fn parts_read(text: &[u8]) -> bool
    ensures { result ≡ list_all line_reads (slice_split (λ b. b == 10) text.now) }
{
    text.split(|b| *b == b'\n').all(|line| line_reads(line))
}

/// Whether the text is empty, or lines with LFs between them.
fn lines_read(text: &[u8]) -> bool
    ensures { result ≡ lines_read text.now }
{
    text.is_empty() || parts_read(text)
}

/// The value of mergeinfo without an LF at its end. This leaves its lines with LFs between them.
pub fn without_lf(value: &[u8]) -> &[u8]
    ensures { result.now ≡ without_lf value.now }
{
    value.strip_suffix(b"\n").unwrap_or(value)
}

/// Whether the value of the property is mergeinfo. It allocates nothing. A list whose ranges rise, or are all of one
/// kind, is read in one pass. In any other list each range is compared with all others, in one pass for each 4,096
/// ranges of the rarer kind.
pub fn merge_reads(value: &[u8]) -> bool
    ensures { IsTrue result ↔ HasMergeLines value.now }
{
    lines_read(without_lf(value))
}
