//! Files of prefixes, with one prefix in each line.
ghost use Rattle.std.specs.Prelude.{◌≡◌, ◌<◌, ◌++◌, ◌∷◌, ℕ, List, Option, IfOk, IfSome, filter, length, map, not};
ghost use Rattle.clap.specs.Walk.{is_empty};
ghost use Rattle.cli_support.specs.Targets.{AreTextsOf, after_blanks, before_blanks, is_blank, is_line_end, prefix_of_line, prefixes_of_text, prefixes_of_texts, lines_in_text, without_mark};

use crate::input::Unread;
use std::alloc::{AllocError, Global};

/// A byte order mark, in UTF-8.
const ORDER_MARK: [u8; 3] = [0xef, 0xbb, 0xbf];

/// Files that a program reads by their names.
pub trait NamedFiles {
    // The text of the file with this name, if it is known.
    ghost text_of: { Self → List ℕ → Option (List ℕ) };

    /// All bytes of the file with this name.
    fn read_named(&self, alloc: Global, name: &str) -> Result<Vec<u8>, Unread>
        ensures { IfOk result (λ bytes. IfSome (text_of self.now name.now) (λ text. bytes.items ≡ text)) };
}

/// Why the file at this place of a list couldn't be read.
#[derive(Clone, Copy, Debug, PartialEq, Eq)]
pub struct UnreadFile {
    pub place: usize,
    pub unread: Unread,
}

/// The texts of the files of these names.
pub fn read_files<F: NamedFiles>(
    alloc: Global,
    files: &F,
    names: &[&str],
) -> Result<Vec<Vec<u8>>, UnreadFile>
    ensures { IfOk result (λ texts. AreTextsOf (F.text_of files.now) (map (λ name. name.now) names.now) (map (λ text. text.items) texts.items)) }
{
    let mut texts = Vec::new(alloc);
    for name in names {
        let place = texts.len();
        let text = match files.read_named(alloc, name) {
            Ok(text) => text,
            Err(unread) => return Err(UnreadFile { place, unread }),
        };
        if texts.push(text).is_err() {
            let unread = Unread::Memory;
            return Err(UnreadFile { place, unread });
        }
    }
    Ok(texts)
}

/// These prefixes, followed by those in texts. A text has one prefix in each line; blanks at its ends are removed, and
/// empty lines are ignored. So is a byte order mark at the head of a text.
pub fn with_texts<'a>(
    prefixes: Vec<&'a [u8]>,
    texts: &'a [Vec<u8>],
) -> Result<Vec<&'a [u8]>, AllocError>
    ensures { IfOk result (λ all. map (λ prefix. prefix.now) all.items ≡ map (λ prefix. prefix.now) prefixes.entry.items ++ prefixes_of_texts (map (λ text. text.items) texts.now)) }
{
    let mut all = prefixes;
    for text in texts {
        all = with_text(all, text.as_slice())?;
    }
    Ok(all)
}

/// The same with the prefixes in one text.
fn with_text<'a>(prefixes: Vec<&'a [u8]>, text: &'a [u8]) -> Result<Vec<&'a [u8]>, AllocError>
    ensures { IfOk result (λ all. map (λ prefix. prefix.now) all.items ≡ map (λ prefix. prefix.now) prefixes.entry.items ++ prefixes_of_text text.now) }
{
    with_lines(prefixes, without_mark(text))
}

/// A text without the byte order mark of UTF-8, if it begins with one.
fn without_mark(text: &[u8]) -> &[u8]
    ensures { result.now ≡ without_mark text.now }
{
    match text.strip_prefix(&ORDER_MARK) {
        Some(rest) => rest,
        None => text,
    }
}

/// The same with the prefixes in the lines of a text.
fn with_lines<'a>(prefixes: Vec<&'a [u8]>, text: &'a [u8]) -> Result<Vec<&'a [u8]>, AllocError>
    ensures { IfOk result (λ all. map (λ prefix. prefix.now) all.items ≡ map (λ prefix. prefix.now) prefixes.entry.items ++ filter (λ prefix. not (is_empty prefix)) (map prefix_of_line (lines_in_text text.now))) }
{
    let mut all = prefixes;
    let mut left = text;
    while !left.is_empty() {
        let (line, rest) = cut_line(left);
        let prefix = prefix_of_line(line);
        if !prefix.is_empty() {
            all.push(prefix)?;
        }
        left = rest;
    }
    Ok(all)
}

/// The first line of a text, and what follows it.
fn cut_line(text: &[u8]) -> (&[u8], &[u8])
    requires { 0 < length text.now }
    ensures lines { lines_in_text text.now ≡ result.0.now ∷ lines_in_text result.1.now }
    ensures shorter { length result.1.now < length text.now }
{
    let mut count = 0;
    while count < text.len() {
        if is_line_end(text[count]) {
            return (&text[..count], &text[count + 1..]);
        }
        count += 1;
    }
    (text, &text[count..])
}

/// Whether a byte ends a line.
fn is_line_end(byte: u8) -> bool
    ensures { result ≡ is_line_end byte }
{
    byte == b'\n' || byte == b'\r'
}

/// Whether a byte is a blank.
fn is_blank(byte: u8) -> bool
    ensures { result ≡ is_blank byte }
{
    byte == b' ' || byte == b'\t'
}

/// A line without the blanks at its ends.
fn prefix_of_line(line: &[u8]) -> &[u8]
    ensures { result.now ≡ prefix_of_line line.now }
{
    before_blanks(after_blanks(line))
}

/// A line without the blanks at its front.
fn after_blanks(line: &[u8]) -> &[u8]
    ensures { result.now ≡ after_blanks line.now }
{
    let mut left = line;
    while let [byte, rest @ ..] = left {
        if !is_blank(*byte) {
            return left;
        }
        left = rest;
    }
    left
}

/// A line without the blanks at its end.
fn before_blanks(line: &[u8]) -> &[u8]
    ensures { result.now ≡ before_blanks line.now }
{
    let mut count = line.len();
    while count > 0 {
        let last = count - 1;
        if !is_blank(line[last]) {
            return &line[..count];
        }
        count = last;
    }
    &line[..count]
}
