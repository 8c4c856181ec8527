//! Paths as texts, with slashes between their names.
ghost use Rattle.std.specs.Prelude.{◌≡◌, IfOk};
ghost use Rattle.dump_index.specs.steps.InOrder.{ends_in_slash};
ghost use Rattle.dump_index.specs.steps.Touching.{joined_text, rest_text};
ghost use Rattle.dump_index.specs.steps.Below.{StandsSo, ends_up_to, name_end, top_text};

use dump_rules::Memory;
use std::alloc::Global;

/// Whether the last byte is a slash.
pub fn ends_in_slash(text: &[u8]) -> bool
    ensures { result ≡ ends_in_slash text.now }
{
    match text {
        [.., byte] => *byte == b'/',
        [] => false,
    }
}

/// The text that follows a top and a slash in the path; empty if no text follows.
pub fn rest_behind<'p>(top: &[u8], path: &'p [u8]) -> &'p [u8]
    ensures { result.now ≡ rest_text top.now path.now }
{
    if top.is_empty() {
        path
    } else if top.len() < path.len() {
        &path[top.len() + 1..]
    } else {
        &[]
    }
}

/// The text of a path and a rest below it, with a slash between them if neither is empty.
pub fn joined(alloc: Global, top: &[u8], rest: &[u8]) -> Result<Vec<u8>, Memory>
    ensures { IfOk result (λ text. text.items ≡ joined_text top.now rest.now) }
{
    let mut text = Vec::from_slice(alloc, top)?;
    if top.is_empty() || rest.is_empty() {
        text.extend_from_slice(rest)?;
    } else {
        text.push(b'/')?;
        text.extend_from_slice(rest)?;
    }
    Ok(text)
}

/// The text with which the paths below this one begin: the path and a slash, or the empty text for the root.
pub fn top_of(alloc: Global, path: &[u8]) -> Result<Vec<u8>, Memory>
    ensures { IfOk result (λ text. text.items ≡ top_text path.now) }
{
    let mut text = Vec::from_slice(alloc, path)?;
    if !path.is_empty() {
        text.push(b'/')?;
    }
    Ok(text)
}

/// The number of bytes before the first slash; all bytes if there is none.
fn name_end(text: &[u8]) -> usize
    ensures { result ≡ name_end text.now }
{
    for (end, byte) in text.iter().enumerate() {
        if *byte == b'/' {
            return end;
        }
    }
    text.len()
}

/// How a path compares with the text with which the paths below a directory begin, the top.
#[derive(Clone, Copy)]
pub(crate) enum Below<'p> {
    /// The path doesn't begin with the top.
    Outside,
    /// The path is the top.
    Itself,
    /// The path is the top and this name.
    Child(&'p [u8]),
    /// The path goes on further than one name, and so does each path that begins with this first part of it.
    Further(&'p [u8]),
}

/// Compares the path with this top.
pub(crate) fn stand_below<'p>(top: &[u8], path: &'p [u8]) -> Below<'p>
    ensures { StandsSo top.now path.now result }
{
    let Some(rest) = path.strip_prefix(top) else {
        return Below::Outside;
    };
    if rest.is_empty() {
        return Below::Itself;
    }
    let end = name_end(rest);
    if end < rest.len() {
        Below::Further(&path[..top.len() + end + 1])
    } else {
        Below::Child(rest)
    }
}

/// Whether the path comes before the paths that begin with the front, or is one of these.
pub(crate) fn ends_up_to(path: &[u8], front: &[u8]) -> bool
    ensures { result ≡ ends_up_to front.now path.now }
{
    let part = if front.len() < path.len() {
        &path[..front.len()]
    } else {
        path
    };
    !front.cmp(part).is_lt()
}
