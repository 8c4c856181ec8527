//! The names of a path.
use dump_rules::Memory;
use std::alloc::Global;

/// Whether a name counts in a path.
pub(crate) fn is_name(name: &[u8]) -> bool {
    !name.is_empty() && name != b".".as_slice()
}

/// Appends a name to a path.
pub(crate) fn push_name(path: &mut Vec<u8>, name: &[u8]) -> Result<(), Memory> {
    if !path.is_empty() {
        path.push(b'/')?;
    }
    Ok(path.extend_from_slice(name)?)
}

/// Removes the last name of a path; whether there was one.
pub(crate) fn pop_name(path: &mut Vec<u8>) -> bool {
    if path.is_empty() {
        return false;
    }
    let length = path.iter().rposition(|byte| *byte == b'/').unwrap_or(0);
    path.truncate(length);
    true
}

/// A path without the names that don't count.
pub(crate) fn cleaned(alloc: Global, path: &[u8]) -> Result<Vec<u8>, Memory> {
    let mut text = Vec::new(alloc);
    for name in path.split(|byte| *byte == b'/') {
        if is_name(name) {
            push_name(&mut text, name)?;
        }
    }
    Ok(text)
}
