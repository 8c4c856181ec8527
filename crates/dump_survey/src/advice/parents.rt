//! The parent directories that an administrator has to create before loading.
ghost use Rattle.std.specs.Prelude.{◌≡◌, [], IfOk, OnOk, filter, flat_map, map, not};
ghost use Rattle.dump_rules.specs.Settings.{keeps_path};
ghost use Rattle.dump_survey.specs.ParentsToCreate.{AreParentsToCreate, each_once, fronts, with_new};

use crate::findings::prefixes::Prefixes;
use dump_rules::{Memory, Options, Side, keeps};
use std::alloc::Global;
use std::collections::BTreeSet;
use std::marker::Model;

/// A list of directories without duplicates, in the order in which they were added.
#[derive(Drop)]
struct Directories<'o> {
    paths: Vec<&'o [u8]>,
    known: BTreeSet<Vec<u8>>,
}

impl<'o> Model for Directories<'o> {
    ghost use Rattle.std.specs.Prelude.{ℕ, List, map};
    ghost use Rattle.dump_survey.specs.steps.SameTexts.{HaveSame};

    ghost Value = { List (List ℕ) };

    ghost view = { λ f. map (λ path. path.now) f.paths.items };

    ghost invariant = { λ f. HaveSame (map (λ path. path.items) f.known.keys) (map (λ path. path.now) f.paths.items) };
}

impl<'o> Directories<'o> {
    /// The empty list.
    fn new(alloc: Global) -> Directories<'o>
        ensures { result ≡ [] }
    {
        Directories {
            paths: Vec::new(alloc),
            known: BTreeSet::new(alloc),
        }
    }

    /// Adds a directory if the list doesn't hold it yet.
    fn add(&mut self, alloc: Global, path: &'o [u8]) -> Result<(), Memory>
        ensures { OnOk result (self.new ≡ with_new self.old path.now) }
    {
        if self.known.contains(path) {
            return Ok(());
        }
        let copy = Vec::from_slice(alloc, path)?;
        self.paths.push(path)?;
        match self.known.insert(copy) {
            Ok(_) => Ok(()),
            Err(_) => {
                self.paths.pop();
                Err(Memory)
            }
        }
    }

    /// Adds the paths above a bare prefix that aren't kept.
    fn add_above(&mut self, alloc: Global, options: &Options, bare: &'o [u8]) -> Result<(), Memory>
        ensures { OnOk result (self.new
            ≡ each_once self.old (filter (λ path. not (keeps_path options.now path)) (fronts bare.now))) }
    {
        for (place, byte) in bare.iter().enumerate() {
            if *byte == b'/' && !keeps(options, &bare[..place]) {
                self.add(alloc, &bare[..place])?;
            }
        }
        Ok(())
    }
}

/// The paths above the bare prefixes that aren't kept, without duplicates.
fn left_above<'o>(
    alloc: Global,
    options: &Options,
    bare: &[&'o [u8]],
) -> Result<Vec<&'o [u8]>, Memory>
    ensures { IfOk result (λ paths. map (λ path. path.now) paths.items ≡ each_once []
        (filter (λ path. not (keeps_path options.now path)) (flat_map fronts (map (λ prefix. prefix.now) bare.now)))) }
{
    let mut directories = Directories::new(alloc);
    for prefix in bare {
        directories.add_above(alloc, options, prefix)?;
    }
    Ok(directories.paths)
}

/// The directories to create before a dump that was filtered under these options is loaded. Under `include` they are
/// the directories above the prefixes that aren't kept themselves, each after its parent. Under `exclude` there are
/// none.
pub fn parents_to_create<'o>(alloc: Global, options: &'o Options) -> Result<Vec<&'o [u8]>, Memory>
    ensures { IfOk result (λ paths. AreParentsToCreate options.now (map (λ path. path.now) paths.items)) }
{
    match options.side() {
        Side::Include => {
            let prefixes = Prefixes::of(alloc, options)?;
            left_above(alloc, options, &prefixes.bare)
        }
        Side::Exclude => Ok(Vec::new(alloc)),
    }
}
