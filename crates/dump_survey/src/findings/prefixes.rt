//! The prefixes below a path, and what they cut there.
ghost use Rattle.std.specs.Prelude.{◌≡◌, ◌++◌, IfOk, OnOk, MatchOption, false, filter, is_some, map, option_copied, slice_get};
ghost use Rattle.std.specs.List.{list_any};
ghost use Rattle.dump_rules.specs.Prefix.{bare_prefix, begins_path};
ghost use Rattle.dump_trees.specs.Paths.{path_of, path_text};
ghost use Rattle.dump_trees.specs.Restriction.{is_above_some};
ghost use Rattle.dump_history.specs.Findings.{cuts};
ghost use Rattle.dump_survey.specs.CuttingPrefix.{first_cut};
ghost use Rattle.dump_survey.specs.steps.Prefixes.{behind_slash, is_below, IsRestBelow, cuts_below};

use dump_rules::{Memory, Options, Side, bare_path, bare_prefix, keeps};
use std::alloc::Global;
use std::marker::Model;

/// The options' prefixes, in their order, without the slashes at their ends.
#[derive(Drop)]
pub(crate) struct Prefixes<'o> {
    pub(crate) bare: Vec<&'o [u8]>,
}

impl<'o> Model for Prefixes<'o> {
    ghost use Rattle.std.specs.Prelude.{ℕ, List, map};

    ghost Value = { List (List ℕ) };

    ghost view = { λ p. map (λ prefix. prefix.now) p.bare.items };
}

/// The options' prefixes, in their order, as the caller gave them.
pub(crate) fn given_prefixes<'o>(
    alloc: Global,
    options: &'o Options,
) -> Result<Vec<&'o [u8]>, Memory>
    ensures { IfOk result (λ given. map (λ prefix. prefix.now) given.items ≡ options.now.prefixes) }
{
    let mut given = Vec::new(alloc);
    while let Some(prefix) = options.prefix(given.len()) {
        given.push(prefix)?;
    }
    Ok(given)
}

/// The part of `text` after `front` and a slash, if `text` begins with these.
pub(crate) fn behind<'t>(front: &[u8], text: &'t [u8]) -> Option<&'t [u8]>
    ensures { option_copied result ≡ behind_slash front.now text.now }
{
    let mut front = front;
    let mut text = text;
    while let [wanted, more @ ..] = front {
        let [byte, rest @ ..] = text else {
            return None;
        };
        if *wanted != *byte {
            return None;
        }
        front = more;
        text = rest;
    }
    match text {
        [b'/', rest @ ..] => Some(rest),
        _ => None,
    }
}

/// Whether the path is the bare prefix or is below it. Each path is at or below the empty prefix.
pub(crate) fn begins_path(bare: &[u8], path: &[u8]) -> bool
    ensures { result ≡ begins_path bare.now path.now }
{
    if bare.is_empty() || path == bare {
        return true;
    }
    behind(bare, path).is_some()
}

/// The rest of a bare prefix below the path, if the prefix is below the path. The empty prefix is below the root.
fn rest_below<'p>(bare: &'p [u8], path: &[u8]) -> Option<&'p [u8]>
    ensures { MatchOption result (is_below path.now bare.now ≡ false) (λ rest. IsRestBelow path.now bare.now rest.now) }
{
    let top = bare_path(path);
    if top.is_empty() {
        return Some(bare);
    }
    behind(top, bare)
}

/// Adds the path to the text, with a slash before each name.
fn push_path(text: &mut Vec<u8>, path: &[u8]) -> Result<(), Memory>
    ensures { OnOk result (text.new.items ≡ text.old.items ++ path_text (path_of path.now)) }
{
    let top = bare_path(path);
    if top.is_empty() {
        return Ok(());
    }
    text.push(b'/')?;
    text.extend_from_slice(top)?;
    Ok(())
}

/// Whether the bare prefix is below one path, and the path with the same rest below the other path is kept.
fn cuts_below(
    alloc: Global,
    options: &Options,
    bare: &[u8],
    path: &[u8],
    other: &[u8],
) -> Result<bool, Memory>
    ensures { IfOk result (λ found. found ≡ cuts_below options.now path.now other.now bare.now) }
{
    let Some(rest) = rest_below(bare, path) else {
        return Ok(false);
    };
    let mut text = Vec::new(alloc);
    push_path(&mut text, other)?;
    text.push(b'/')?;
    text.extend_from_slice(rest)?;
    Ok(keeps(options, &text))
}

/// Whether one of the bare prefixes is below the path.
fn has_some_below(bare: &[&[u8]], path: &[u8]) -> bool
    ensures { result ≡ list_any (λ prefix. is_below path.now prefix.now) bare.now }
{
    bare.iter().any(|prefix| rest_below(prefix, path).is_some())
}

/// The first of the options' prefixes that cuts below one path what is kept below the other path, as the caller gave
/// it.
fn first_cut<'o>(
    alloc: Global,
    options: &'o Options,
    bare: &[&[u8]],
    path: &[u8],
    other: &[u8],
) -> Result<Option<&'o [u8]>, Memory>
    requires { map (λ prefix. prefix.now) bare.now ≡ map bare_prefix options.now.prefixes }
    ensures { IfOk result (λ found. option_copied found ≡ slice_get
        (filter (λ prefix. cuts_below options.now path.now other.now (bare_prefix prefix)) options.now.prefixes) 0) }
{
    for (place, prefix) in bare.iter().enumerate() {
        if cuts_below(alloc, options, prefix, path, other)? {
            return Ok(options.prefix(place));
        }
    }
    Ok(None)
}

impl<'o> Prefixes<'o> {
    /// The prefixes of the options.
    pub(crate) fn of(alloc: Global, options: &'o Options) -> Result<Prefixes<'o>, Memory>
        ensures { IfOk result (λ p. p ≡ map bare_prefix options.now.prefixes) }
    {
        let mut bare = Vec::new(alloc);
        while let Some(prefix) = options.prefix(bare.len()) {
            bare.push(bare_prefix(prefix))?;
        }
        Ok(Prefixes { bare })
    }

    /// Whether the subcommand is `include` and a prefix is below the path.
    pub(crate) fn has_below(&self, options: &Options, path: &[u8]) -> bool
        requires { self.now ≡ map bare_prefix options.now.prefixes }
        ensures { result ≡ is_above_some options.now.side options.now.prefixes (path_of path.now) }
    {
        match options.side() {
            Side::Include => has_some_below(&self.bare, path),
            Side::Exclude => false,
        }
    }

    /// The first prefix that cuts below one path what is kept below the other path, as the caller gave it.
    pub(crate) fn cut(
        &self,
        alloc: Global,
        options: &'o Options,
        path: &[u8],
        other: &[u8],
    ) -> Result<Option<&'o [u8]>, Memory>
        requires { self.now ≡ map bare_prefix options.now.prefixes }
        ensures first { IfOk result (λ found. option_copied found
            ≡ first_cut options.now.side options.now path.now other.now) }
        ensures some { IfOk result (λ found. is_some found ≡ cuts options.now path.now other.now) }
    {
        match options.side() {
            Side::Include => Ok(None),
            Side::Exclude => first_cut(alloc, options, &self.bare, path, other),
        }
    }
}
