//! The words of a line of `svn:externals`.
use dump_rules::Memory;
use std::alloc::Global;

/// Whether a byte divides words.
fn is_blank(byte: u8) -> bool {
    byte == b' ' || byte == b'\t'
}

/// A quote with which a word begins.
fn quote_of(text: &[u8]) -> Option<u8> {
    match text.first() {
        Some(byte) if *byte == b'"' || *byte == b'\'' => Some(*byte),
        _ => None,
    }
}

/// Whether a word ends at this byte: at its quote, or at a blank if it has none.
fn ends_word(quote: Option<u8>, byte: u8) -> bool {
    match quote {
        Some(quote) => byte == quote,
        None => is_blank(byte),
    }
}

/// Whether a backslash before this byte takes it from the line as it is.
fn is_taken(byte: u8) -> bool {
    is_blank(byte) || byte == b'"' || byte == b'\''
}

/// How long the word is with which a text begins.
fn word_length(quote: Option<u8>, text: &[u8]) -> usize {
    let mut is_escaped = false;
    for (place, byte) in text.iter().enumerate() {
        if is_escaped {
            is_escaped = false;
            continue;
        }
        let next = text.get(place.saturating_add(1));
        is_escaped = *byte == b'\\' && next.is_some_and(|next| is_taken(*next));
        if !is_escaped && ends_word(quote, *byte) {
            return place;
        }
    }
    text.len()
}

/// A word without its backslashes; each takes the next byte as it is.
fn unescaped(alloc: Global, word: &[u8]) -> Result<Vec<u8>, Memory> {
    let mut text = Vec::new(alloc);
    let mut is_escaped = false;
    for byte in word {
        if *byte == b'\\' && !is_escaped {
            is_escaped = true;
            continue;
        }
        is_escaped = false;
        text.push(*byte)?;
    }
    Ok(text)
}

/// The words of a line. A word in quotes may have blanks.
pub(crate) fn words_of(alloc: Global, line: &[u8]) -> Result<Vec<Vec<u8>>, Memory> {
    let mut words = Vec::new(alloc);
    let mut left = line;
    // each word has a byte, or a quote
    for _ in 0..=line.len() {
        let Some(place) = left.iter().position(|byte| !is_blank(*byte)) else {
            break;
        };
        left = &left[place..];
        let quote = quote_of(left);
        if quote.is_some() {
            left = &left[1..];
        }
        let length = word_length(quote, left).min(left.len());
        words.push(unescaped(alloc, &left[..length])?)?;
        left = &left[length.saturating_add(1).min(left.len())..];
    }
    Ok(words)
}
