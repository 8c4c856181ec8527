//! Reports what is unusual about the prefixes.
ghost use Rattle.std.specs.Prelude.{◌≡◌, true, false, IfOk};

use crate::lines::{write_first, write_missing, write_nested, write_spelling, write_unused};
use crate::words::Call;
use dump_changes::Memory;
use dump_cut::canonical_prefix;
use dump_index::{ChangeIndex, ends_in_slash};
use std::alloc::Global;
use std::io::Write;

/// Whether the path is `top` or below it.
pub(crate) fn is_at_or_below(top: &[u8], path: &[u8]) -> bool {
    match path.strip_prefix(top) {
        Some(rest) => rest.is_empty() || rest[0] == b'/',
        None => false,
    }
}

/// The prefix without the slashes at its ends.
fn trimmed(prefix: &[u8]) -> &[u8] {
    let mut left = prefix;
    for _ in prefix {
        left = left.strip_prefix(b"/").unwrap_or(left);
        left = left.strip_suffix(b"/").unwrap_or(left);
    }
    left
}

/// The paths of the prefixes in canonical form. It reports prefixes that aren't in this form.
fn canonical_paths<E: Write>(
    alloc: Global,
    call: &Call<'_>,
    errors: &mut E,
) -> Result<Vec<Vec<u8>>, Memory> {
    let mut paths = Vec::new(alloc);
    for prefix in &call.prefixes {
        let path = canonical_prefix(alloc, prefix)?;
        if !call.quiet && path.as_slice() != trimmed(prefix) {
            let _ = write_spelling(errors, prefix, &path);
        }
        paths.push(path)?;
    }
    Ok(paths)
}

/// The paths, sorted, without duplicates.
fn sorted(alloc: Global, paths: &[Vec<u8>]) -> Result<Vec<&[u8]>, Memory> {
    let mut sorted: Vec<&[u8]> = Vec::new(alloc);
    for path in paths {
        sorted.push(path.as_slice())?;
    }
    sorted.sort_unstable_by(|a, b| a.cmp(b));
    let mut once: Vec<&[u8]> = Vec::new(alloc);
    for path in &sorted {
        if once.last() != Some(path) {
            once.push(*path)?;
        }
    }
    Ok(once)
}

/// Whether one of the sorted paths is above this one.
fn is_nested(sorted: &[&[u8]], path: &[u8]) -> bool {
    let is_given = |top: &[u8]| sorted.binary_search_by(|given| (*given).cmp(top)).is_ok();
    if !path.is_empty() && is_given(b"") {
        return true;
    }
    path.iter()
        .enumerate()
        .any(|(place, byte)| *byte == b'/' && is_given(&path[..place]))
}

/// Reports prefixes whose paths are in no revision, if there are any. It returns whether they end the call.
fn report_missing<E: Write>(errors: &mut E, call: &Call<'_>, missing: &[&[u8]]) -> bool
    ensures { result ≡ true → call.now.allow_missing ≡ false }
{
    if call.allow_missing {
        let _ = write_unused(errors, call, missing);
        return false;
    }
    if missing.is_empty() {
        return false;
    }
    let _ = write_missing(errors, call, missing);
    true
}

/// Reports prefixes that are inside others, and those whose paths are in no revision. It returns whether these end the
/// call.
fn report_paths<E: Write>(
    alloc: Global,
    index: &ChangeIndex<'_>,
    call: &Call<'_>,
    paths: &[&[u8]],
    errors: &mut E,
) -> Result<bool, Memory>
    ensures { IfOk result (λ ends. ends ≡ true → call.now.allow_missing ≡ false) }
{
    let mut nested: Vec<&[u8]> = Vec::new(alloc);
    let mut missing: Vec<&[u8]> = Vec::new(alloc);
    for path in paths {
        if is_nested(paths, path) {
            nested.push(*path)?;
        }
        if !ends_in_slash(path) && !index.exists_ever(alloc, path)? {
            missing.push(*path)?;
        }
    }
    if !call.quiet {
        let _ = write_nested(errors, call, &nested);
    }
    Ok(report_missing(errors, call, &missing))
}

/// Reports prefixes that aren't in canonical form, whether a load renumbers the first revision, which has this number,
/// prefixes that are inside others, and those whose paths are in no revision. It returns whether these end the call.
pub fn report_prefixes<E: Write>(
    alloc: Global,
    first: Option<u64>,
    index: &ChangeIndex<'_>,
    call: &Call<'_>,
    errors: &mut E,
) -> Result<bool, Memory>
    ensures { IfOk result (λ ends. ends ≡ true → call.now.allow_missing ≡ false) }
{
    let paths = canonical_paths(alloc, call, errors)?;
    if let Some(first) = first {
        if first > 1 {
            let _ = write_first(errors, first);
        }
    }
    let paths = sorted(alloc, &paths)?;
    report_paths(alloc, index, call, &paths, errors)
}
