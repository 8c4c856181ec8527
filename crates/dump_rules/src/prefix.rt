//! The slashes at the ends of prefixes and paths, which are ignored.
ghost use Rattle.std.specs.Prelude.{◌≡◌};
ghost use Rattle.dump_rules.specs.Prefix.{without_leading_slashes, without_trailing_slashes, bare_prefix, bare_path};

/// The text without the slashes at its front.
fn trim_front(text: &[u8]) -> &[u8]
    ensures { result.now ≡ without_leading_slashes text.now }
{
    let mut rest = text;
    while let [b'/', behind @ ..] = rest {
        rest = behind;
    }
    rest
}

/// The text without the slashes at its end.
fn trim_end(text: &[u8]) -> &[u8]
    ensures { result.now ≡ without_trailing_slashes text.now }
{
    let mut rest = text;
    while let [before @ .., b'/'] = rest {
        rest = before;
    }
    rest
}

/// The path without one leading slash, if it has one. A dump may have paths with or without it.
pub fn bare_path(path: &[u8]) -> &[u8]
    ensures { result.now ≡ bare_path path.now }
{
    match path {
        [b'/', rest @ ..] => rest,
        _ => path,
    }
}

/// The prefix without the slashes at both ends. The filter compares prefixes in this form.
pub fn bare_prefix(prefix: &[u8]) -> &[u8]
    ensures { result.now ≡ bare_prefix prefix.now }
{
    trim_end(trim_front(prefix))
}
