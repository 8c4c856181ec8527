//! Scans header lines: finds where a line ends, where its name ends, and where the lines end.
ghost use Rattle.std.specs.Prelude.{◌≡◌, ◌==◌, MatchOption, IsFalse, position};
ghost use Rattle.dump_text.specs.HeaderLine.{has_byte};
ghost use Rattle.dump_text.specs.HeaderBlock.{starts_with_lf, has_empty_line};
ghost use Rattle.dump_text.specs.steps.Scanning.{IsFirstLine, IsCutAtColon, IsNoHeader};

use memchr::memchr;

/// The first position of a byte.
pub fn find(byte: u8, text: &[u8]) -> Option<usize>
    ensures { result ≡ position (λ b. b == byte) text.now }
{
    memchr(byte, text)
}

/// The bytes before the first LF, and those after it.
pub(crate) fn first_line(text: &[u8]) -> Option<(&[u8], &[u8])>
    ensures { MatchOption result (IsFalse (has_byte 10 text.now)) (λ r. IsFirstLine text.now r.0.now r.1.now) }
{
    let Some(at) = find(b'\n', text) else {
        return None;
    };
    Some((&text[..at], &text[at + 1..]))
}

/// The name and the value of a line; `None` if it is no header line.
pub(crate) fn name_and_value(whole: &[u8]) -> Option<(&[u8], &[u8])>
    ensures { MatchOption result (IsNoHeader whole.now) (λ r. IsCutAtColon whole.now r.0.now r.1.now) }
{
    let Some(colon) = find(b':', whole) else {
        return None;
    };
    if colon == 0 || whole.len() - colon < 2 || whole[colon + 1] != b' ' {
        return None;
    }
    Some((&whole[..colon], &whole[colon + 2..]))
}

/// Whether the text begins with an LF.
pub(crate) fn begins_with_lf(text: &[u8]) -> bool
    ensures { result ≡ starts_with_lf text.now }
{
    matches!(text, [b'\n', ..])
}

/// Whether the text has two LFs next to each other.
pub(crate) fn finds_empty_line(text: &[u8]) -> bool
    ensures { result ≡ has_empty_line text.now }
{
    let mut rest = text;
    while let Some((_, others)) = first_line(rest) {
        if begins_with_lf(others) {
            return true;
        }
        rest = others;
    }
    false
}
