//! Values of `svn:externals`, as Subversion reads them.
ghost use Rattle.std.specs.Prelude.{◌<◌, IfSome};

use crate::names::{cleaned, is_name, pop_name, push_name};
use crate::read_mergeinfo::before_zero;
use crate::tokens::words_of;
use dump_rules::Memory;
use dump_text::number;
use std::alloc::Global;

/// What an external names.
#[derive(Debug, PartialEq, Eq, Drop)]
pub enum Target {
    /// A path of the repository, without slashes at its ends.
    Path(Vec<u8>),
    /// A URL, or a path that leaves the repository: this can't be decided from the dump.
    Elsewhere,
    /// Subversion takes no such target.
    Nothing,
}

/// A line of `svn:externals`.
#[derive(Debug, Drop)]
pub struct External<'v> {
    pub line: &'v [u8],
    pub target: Target,
    /// The number of the revision that is checked out, if it is a number.
    pub revision: Option<u64>,
    /// The number of the revision in which the target has its path, if it is a number.
    pub peg: Option<u64>,
}

/// How a revision is written.
#[derive(Clone, Copy, PartialEq, Eq)]
enum Revision {
    Number(u64),
    Date,
    Head,
    Word,
}

/// Whether a text is this word, in capital letters or small ones.
fn is_word(text: &[u8], word: &[u8]) -> bool {
    text.len() == word.len()
        && text
            .iter()
            .zip(word)
            .all(|(one, other)| one.eq_ignore_ascii_case(other))
}

/// The revision that a text names. A number may have letters `r` before it.
fn revision_of(text: &[u8]) -> Option<Revision> {
    let bare = match text.iter().position(|byte| *byte != b'r') {
        Some(place) => &text[place..],
        None => b"",
    };
    if !bare.is_empty() && bare.iter().all(|byte| byte.is_ascii_digit()) {
        return Some(Revision::Number(number(bare).unwrap_or(u64::MAX)));
    }
    if let [b'{', digit, others @ .., b'}'] = bare {
        let is_date = digit.is_ascii_digit() && !others.contains(&b'}');
        return if is_date { Some(Revision::Date) } else { None };
    }
    if is_word(bare, b"HEAD") {
        return Some(Revision::Head);
    }
    if is_word(bare, b"BASE") || is_word(bare, b"COMMITTED") || is_word(bare, b"PREV") {
        return Some(Revision::Word);
    }
    None
}

/// The number of a revision, if it is one.
fn number_in(revision: Option<Revision>) -> Option<u64> {
    match revision {
        Some(Revision::Number(number)) => Some(number),
        _ => None,
    }
}

/// Whether a text is a URL: a scheme, and two slashes behind its colon.
fn is_url(text: &[u8]) -> bool {
    let place = text.iter().position(|byte| *byte == b':' || *byte == b'/');
    match place {
        Some(place) => place > 0 && text[place..].starts_with(b"://"),
        None => false,
    }
}

/// The value of a hexadecimal digit.
fn digit_of(byte: u8) -> Option<u8>
    ensures { IfSome result (λ digit. digit < 16) }
{
    match byte {
        b'0'..=b'9' => Some(byte - b'0'),
        b'a'..=b'f' => Some(byte - b'a' + 10),
        b'A'..=b'F' => Some(byte - b'A' + 10),
        _ => None,
    }
}

/// The byte that a percent sign and two digits at the head of a text mean.
fn decoded_byte(text: &[u8]) -> Option<u8> {
    let [b'%', high, low, ..] = text else {
        return None;
    };
    Some(digit_of(*high)? * 16 + digit_of(*low)?)
}

/// A name of a URL, with percent signs and two digits decoded.
fn decoded(alloc: Global, name: &[u8]) -> Result<Vec<u8>, Memory> {
    let mut text = Vec::new(alloc);
    let mut skipped = 0;
    for (place, byte) in name.iter().enumerate() {
        if skipped > 0 {
            skipped -= 1;
            continue;
        }
        match decoded_byte(&name[place..]) {
            Some(byte) => {
                text.push(byte)?;
                skipped = 2;
            }
            None => text.push(*byte)?,
        }
    }
    Ok(text)
}

/// Whether one of the names of a path is this one.
fn has_name(path: &[u8], name: &[u8]) -> bool {
    path.split(|byte| *byte == b'/').any(|other| other == name)
}

/// Whether a path has no name that counts.
fn is_bare(path: &[u8]) -> bool {
    path.split(|byte| *byte == b'/').all(|name| !is_name(name))
}

/// What the names of a relative URL name, from a directory in canonical form.
fn walked(alloc: Global, directory: &[u8], names: &[u8]) -> Result<Target, Memory> {
    let mut path = cleaned(alloc, directory)?;
    let mut is_inside = true;
    for name in names.split(|byte| *byte == b'/') {
        if name == b"..".as_slice() {
            is_inside = is_inside && pop_name(&mut path);
            continue;
        }
        let name = decoded(alloc, name)?;
        if name.as_slice() == b"..".as_slice() {
            return Ok(Target::Nothing);
        }
        if name.as_slice() != b".".as_slice() {
            push_name(&mut path, &name)?;
        }
    }
    Ok(if is_inside {
        Target::Path(path)
    } else {
        Target::Elsewhere
    })
}

/// What a URL or a relative URL names in a property of this directory.
fn target_of(alloc: Global, url: &[u8], directory: &[u8]) -> Result<Target, Memory> {
    if is_url(url) {
        return Ok(Target::Elsewhere);
    }
    if url.starts_with(b"/") {
        let is_taken = !has_name(url, b"..");
        return Ok(if is_taken {
            Target::Elsewhere
        } else {
            Target::Nothing
        });
    }
    let names = cleaned(alloc, url)?;
    if let Some(rest) = names.strip_prefix(b"^/") {
        return walked(alloc, b"", rest);
    }
    if names.starts_with(b"../") {
        return walked(alloc, directory, &names);
    }
    Ok(Target::Nothing)
}

/// The two words of a line that are left without the option for a revision, that revision, and before which of the words
/// the option was.
#[derive(Drop)]
struct Words {
    first: Vec<u8>,
    second: Vec<u8>,
    revision: Option<Revision>,
    option: Option<usize>,
}

/// The revision of an option, and whether it takes the next word: `-r 4` or `-r4`. `None` if it is wrong.
fn option_at(words: &[Vec<u8>], place: usize) -> Option<(Revision, usize)> {
    let own = words.get(place)?.strip_prefix(b"-r")?;
    let (text, count) = if own.is_empty() {
        (words.get(place.saturating_add(1))?.as_slice(), 2)
    } else {
        (own, 1)
    };
    match revision_of(text)? {
        Revision::Number(number) => Some((Revision::Number(number), count)),
        Revision::Date => Some((Revision::Date, count)),
        Revision::Head | Revision::Word => None,
    }
}

/// The parts of a line; `None` if it is wrong.
fn split_words(alloc: Global, words: &[Vec<u8>]) -> Result<Option<Words>, Memory> {
    let is_option = |place: usize| words.get(place).is_some_and(|word| word.starts_with(b"-r"));
    let option = match (is_option(0), is_option(1)) {
        (true, _) => Some(0),
        (false, true) => Some(1),
        (false, false) => None,
    };
    let mut revision = None;
    let mut taken = 0;
    if let Some(place) = option {
        let Some((found, count)) = option_at(words, place) else {
            return Ok(None);
        };
        revision = Some(found);
        taken = count;
    }
    if words.len() != taken.saturating_add(2) {
        return Ok(None);
    }
    let mut left: Vec<&[u8]> = Vec::new(alloc);
    for (place, word) in words.iter().enumerate() {
        let from = option.unwrap_or(0);
        if place < from || place >= from.saturating_add(taken) {
            left.push(word.as_slice())?;
        }
    }
    let [first, second] = left.as_slice() else {
        return Ok(None);
    };
    Ok(Some(Words {
        first: Vec::from_slice(alloc, first)?,
        second: Vec::from_slice(alloc, second)?,
        revision,
        option,
    }))
}

/// Whether the target is the first of the words, with its peg revision behind it; otherwise it is the second.
fn has_target_first(words: &Words) -> bool {
    match words.option {
        Some(place) => place == 0,
        None => is_url(&words.first) || !is_url(&words.second),
    }
}

/// Whether the words have a URL where none may be.
fn has_wrong_url(words: &Words) -> bool {
    let (first, second) = (is_url(&words.first), is_url(&words.second));
    match words.option {
        Some(0) => second,
        Some(_) => first,
        None => first && second,
    }
}

/// A target without its peg revision, and that revision. `None` if the text after its last `@` is no revision.
fn cut_peg<'t>(
    alloc: Global,
    target: &'t [u8],
) -> Result<Option<(&'t [u8], Option<Revision>)>, Memory> {
    let Some(place) = target.iter().rposition(|byte| *byte == b'@') else {
        return Ok(Some((target, None)));
    };
    let (url, text) = (&target[..place], &target[place + 1..]);
    if text.is_empty() {
        return Ok(Some((url, None)));
    }
    // a date in braces
    let is_escaped = is_url(target) && decoded_byte(text) == Some(b'{');
    let peg = if is_escaped {
        revision_of(&decoded(alloc, text)?)
    } else {
        revision_of(text)
    };
    Ok(match peg {
        Some(peg) => Some((url, Some(peg))),
        None => None,
    })
}

/// Whether a text can be the directory of an external.
fn is_directory(text: &[u8]) -> bool {
    !text.starts_with(b"/") && !has_name(text, b"..") && !is_bare(text)
}

/// The external of a line of a property of this directory; `None` if the line is wrong.
fn external_of<'v>(
    alloc: Global,
    line: &'v [u8],
    directory: &[u8],
) -> Result<Option<External<'v>>, Memory> {
    let words = words_of(alloc, line)?;
    let Some(words) = split_words(alloc, &words)? else {
        return Ok(None);
    };
    if has_wrong_url(&words) {
        return Ok(None);
    }
    let (place, url, peg) = if has_target_first(&words) {
        let Some((url, peg)) = cut_peg(alloc, &words.first)? else {
            return Ok(None);
        };
        (words.second.as_slice(), url, peg)
    } else {
        (
            words.first.as_slice(),
            words.second.as_slice(),
            words.revision,
        )
    };
    if !is_directory(place) {
        return Ok(None);
    }
    let target = match peg {
        Some(Revision::Word) => Target::Nothing,
        _ => target_of(alloc, url, directory)?,
    };
    Ok(Some(External {
        line,
        target,
        revision: number_in(words.revision.or(peg)),
        peg: number_in(peg),
    }))
}

/// A text without the white space at its ends.
fn bare_line(line: &[u8]) -> &[u8] {
    let mut left = line;
    // each turn removes a byte
    for _ in line {
        left = match left {
            [b' ' | b'\t' | 0x0b | 0x0c, rest @ ..] => rest,
            [rest @ .., b' ' | b'\t' | 0x0b | 0x0c] => rest,
            _ => return left,
        };
    }
    left
}

/// The externals of a property of this directory, in its order. `None` if a line is wrong: then Subversion reads none.
pub fn read_externals<'v>(
    alloc: Global,
    value: &'v [u8],
    directory: &[u8],
) -> Result<Option<Vec<External<'v>>>, Memory> {
    let mut externals = Vec::new(alloc);
    for line in before_zero(value).split(|byte| *byte == b'\n' || *byte == b'\r') {
        let line = bare_line(line);
        if line.is_empty() || line.starts_with(b"#") {
            continue;
        }
        match external_of(alloc, line, directory)? {
            Some(external) => externals.push(external)?,
            None => return Ok(None),
        }
    }
    Ok(Some(externals))
}
