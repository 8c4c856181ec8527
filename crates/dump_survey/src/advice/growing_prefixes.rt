//! Prefixes to which more are added until each copy that a prefix matches has what it needs.
ghost use Rattle.std.specs.Prelude.{◌≡◌, ◌++◌, ◌∷◌, [], IfOk, OnOk, IsTrue, false, map};
ghost use Rattle.std.specs.List.{list_any};
ghost use Rattle.dump_survey.specs.steps.CopyNeeds.{AreNeeded, IsPass, each_matches_itself, grown_prefixes, is_matched, is_unmet, need_view};

use crate::advice::copy_needs::CopyNeed;
use crate::findings::prefix_set::PrefixSet;
use dump_rules::{Memory, Options, Side, bare_path, keeps};
use std::alloc::Global;
use std::marker::Model;

/// The prefixes of the options, and the prefixes that were added to them.
#[derive(Drop)]
struct GrowingPrefixes<'o, 'a> {
    options: &'o Options,
    added: Vec<&'a [u8]>,
    set: PrefixSet,
}

impl<'o, 'a> Model for GrowingPrefixes<'o, 'a> {
    ghost use Rattle.std.specs.Prelude.{map};
    ghost use Rattle.dump_rules.specs.Prefix.{bare_prefix};
    ghost use Rattle.dump_survey.specs.steps.SameTexts.{BeginSame};
    ghost use Rattle.dump_survey.specs.steps.CopyNeeds.{Grown};

    ghost Value = { Grown };

    ghost view = { λ g. record { given = g.options.now.prefixes; added = map (λ path. path.now) g.added.items } };

    ghost invariant = { λ g. BeginSame g.set (map (λ path. bare_prefix path.now) g.added.items) };
}

/// Whether one of the options' prefixes matches the path.
fn has_match(options: &Options, path: &[u8]) -> bool
    ensures { result ≡ is_matched options.now.prefixes path.now }
{
    match options.side() {
        Side::Include => keeps(options, path),
        Side::Exclude => !keeps(options, path),
    }
}

impl<'o, 'a> GrowingPrefixes<'o, 'a> {
    /// The options' prefixes, with no added ones.
    fn new(alloc: Global, options: &'o Options) -> GrowingPrefixes<'o, 'a>
        ensures { result ≡ record { given = options.now.prefixes; added = [] } }
    {
        GrowingPrefixes {
            options,
            added: Vec::new(alloc),
            set: PrefixSet::new(alloc),
        }
    }

    /// Whether one of the prefixes matches the path.
    fn matches(&self, path: &[u8]) -> bool
        ensures { result ≡ is_matched (grown_prefixes self.now) path.now }
    {
        has_match(self.options, path) || self.set.begin(bare_path(path))
    }

    /// Whether a prefix matches the matched path of the need, and none matches its wanted path.
    fn is_unmet(&self, need: &CopyNeed<'_>) -> bool
        ensures { result ≡ is_unmet (grown_prefixes self.now) (need_view need.now) }
    {
        self.matches(need.matched) && !self.matches(need.wanted)
    }

    /// Adds a prefix.
    fn add(&mut self, alloc: Global, path: &'a [u8]) -> Result<(), Memory>
        ensures { OnOk result (self.new ≡ record self.old { added = self.old.added ++ path.now ∷ [] }) }
    {
        self.added.push(path)?;
        let added = self.set.add(alloc, path);
        if added.is_err() {
            self.added.pop();
        }
        added
    }

    /// Goes through the needs and adds the wanted path of each need that isn't met. Returns whether it added any.
    fn pass(&mut self, alloc: Global, needs: &[CopyNeed<'a>]) -> Result<bool, Memory>
        requires { IsTrue (each_matches_itself (map need_view needs.now)) }
        ensures { IfOk result (λ grew. IsPass (map need_view needs.now) self.old self.new grew) }
    {
        let mut grew = false;
        for need in needs {
            if self.is_unmet(need) {
                self.add(alloc, need.wanted)?;
                grew = true;
            }
        }
        Ok(grew)
    }
}

/// The paths to add as prefixes so that each need is met. Each path comes after the paths that make it necessary. The
/// paths are in the order of the needs; this order begins again at the first need for each further pass.
pub(crate) fn wanted_paths<'a>(
    alloc: Global,
    options: &Options,
    needs: &[CopyNeed<'a>],
) -> Result<Vec<&'a [u8]>, Memory>
    requires { IsTrue (each_matches_itself (map need_view needs.now)) }
    ensures needed { IfOk result (λ paths. AreNeeded (map need_view needs.now) options.now.prefixes
        (map (λ path. path.now) paths.items)) }
    ensures closed { IfOk result (λ paths. list_any (is_unmet (options.now.prefixes ++ map (λ path. path.now) paths.items))
        (map need_view needs.now) ≡ false) }
{
    let mut growing_prefixes = GrowingPrefixes::new(alloc, options);
    while growing_prefixes.pass(alloc, needs)? {}
    Ok(growing_prefixes.added)
}
