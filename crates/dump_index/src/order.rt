//! Changes in the order of their paths, for lookups by path.
ghost use Rattle.std.specs.Prelude.{◌≡◌, ◌||◌, All, Bool, ℕ, IfOk, filter, length, map, slice_get};
ghost use Rattle.dump_index.specs.steps.Listed.{listed_of};
ghost use Rattle.dump_index.specs.steps.Keys.{AreFirstPlaces, IsKeyIn, IsOrder, IsSortedKeys, key_of, place_of, is_key_before, has_effect_at, has_effect_here, has_effect, key_cmp, key_in, keys_in, latest_place, path_there, sets};
ghost use Rattle.dump_index.specs.steps.Touching.{later, moves_above};
ghost use Rattle.dump_index.specs.steps.Below.{AreFrom, IsBehind, IsNextChildKey, NoneBelow};

use crate::change::{NodeChange, NodeMade, Setting};
use crate::path_text::{Below, ends_up_to, stand_below};
use dump_rules::Memory;
use std::alloc::Global;
use std::cmp::Ordering;
use std::marker::Model;

/// The effect of a change: each order has the changes of one effect.
#[derive(Clone, Copy)]
pub(crate) enum Effect {
    /// The change deletes or makes something at its path.
    Shaping,
    /// The change deletes or copies, so what exists below its path changes too.
    Moving,
    /// The change sets properties.
    Props,
    /// The change sets a text.
    Texts,
    /// Each change has this effect.
    Any,
}

impl Setting {
    /// Whether the setting sets something.
    pub(crate) fn sets(self) -> bool
        ensures { result ≡ sets self }
    {
        !matches!(self, Setting::Keeps)
    }
}

impl Effect {
    /// Whether the change has this effect.
    fn has(self, change: &NodeChange<'_>) -> bool
        ensures { result ≡ has_effect self (listed_of change.now) }
    {
        match self {
            Effect::Shaping => change.deletes || change.made.is_some(),
            Effect::Moving => change.deletes || matches!(change.made, Some(NodeMade::CopyOf(_))),
            Effect::Props => change.props.sets(),
            Effect::Texts => change.text.sets(),
            Effect::Any => true,
        }
    }
}

/// The path of the change at this place; the root if there is no such change.
fn path_at<'a>(changes: &[NodeChange<'a>], place: u32) -> &'a [u8]
    ensures { result.now ≡ path_there (slice_get (map listed_of changes.now) place) }
{
    match changes.get(place as usize) {
        Some(change) => change.path,
        None => b"",
    }
}

/// Whether the change at this place comes before a path and a place. Paths are compared first, and then places.
fn is_before(changes: &[NodeChange<'_>], place: u32, path: &[u8], other: usize) -> bool
    ensures { result ≡ is_key_before (key_in (map listed_of changes.now) place) (path.now, other) }
{
    let own = path_at(changes, place);
    own.cmp(path).then((place as usize).cmp(&other)).is_lt()
}

/// A key for sorting: the path and the place of a change.
#[derive(Clone, Copy)]
pub(crate) struct Key<'a> {
    path: &'a [u8],
    place: u32,
}

impl Key<'_> {
    /// Compares two keys: first the paths, and then the places.
    fn compare(&self, other: &Key<'_>) -> Ordering
        ensures { result ≡ key_cmp (key_of self.now) (key_of other.now) }
    {
        self.path.cmp(other.path).then(self.place.cmp(&other.place))
    }
}

/// A change at a path right below a directory: its name, its place in the dump, and the index of the key after its
/// own.
#[derive(Clone, Copy)]
pub(crate) struct Child<'a> {
    pub(crate) name: &'a [u8],
    pub(crate) place: usize,
    pub(crate) behind: usize,
}

/// The changes of one effect, sorted by their paths, and for equal paths by the order of the dump. A value stores the
/// places of the changes in a list of changes; each call gets that list as an argument.
#[derive(Drop)]
pub(crate) struct PathOrder {
    places: Vec<u32>,
}

impl Model for PathOrder {
    ghost use Rattle.std.specs.Prelude.{ℕ, List};

    ghost Value = { List ℕ };

    ghost view = { λ o. o.places.items };
}

/// The later of two places; if there is only one place, that one.
pub(crate) fn later(one: Option<usize>, other: Option<usize>) -> Option<usize>
    ensures { result ≡ later one other }
{
    match (one, other) {
        (Some(place), Some(other)) => Some(place.max(other)),
        (Some(place), None) => Some(place),
        (None, other) => other,
    }
}

/// The keys of all changes, in the order of the dump.
fn keys_of<'a>(alloc: Global, changes: &[NodeChange<'a>]) -> Result<Vec<Key<'a>>, Memory>
    ensures places { IfOk result (λ keys. AreFirstPlaces (length changes.now) (map place_of keys.items)) }
    ensures paths { IfOk result (λ keys. All (IsKeyIn (map listed_of changes.now)) keys.items) }
{
    let mut keys = Vec::with_capacity(alloc, changes.len())?;
    for (place, change) in changes.iter().enumerate() {
        let Ok(short) = u32::try_from(place) else {
            return Err(Memory);
        };
        keys.push(Key {
            path: change.path,
            place: short,
        })?;
    }
    Ok(keys)
}

/// The places in these keys.
fn places_of(alloc: Global, keys: &[Key<'_>]) -> Result<Vec<u32>, Memory>
    ensures { IfOk result (λ places. places.items ≡ map place_of keys.now) }
{
    let mut places = Vec::with_capacity(alloc, keys.len())?;
    for key in keys {
        places.push(key.place)?;
    }
    Ok(places)
}

/// Whether the change at this place has this effect.
fn has_effect(changes: &[NodeChange<'_>], place: u32, effect: Effect) -> bool
    ensures { result ≡ has_effect_here effect (map listed_of changes.now) place }
{
    match changes.get(place as usize) {
        Some(change) => effect.has(change),
        None => false,
    }
}

/// The number of changes that have this effect.
fn count_of(changes: &[NodeChange<'_>], effect: Effect) -> usize
    ensures { result ≡ length (filter (λ change. has_effect effect (listed_of change)) changes.now) }
{
    changes.iter().filter(|change| effect.has(change)).count()
}

/// Returns the places whose changes have this effect.
fn chosen(
    alloc: Global,
    places: &[u32],
    changes: &[NodeChange<'_>],
    effect: Effect,
) -> Result<Vec<u32>, Memory>
    ensures { IfOk result (λ found. found.items ≡ filter (has_effect_here effect (map listed_of changes.now)) places.now) }
{
    // The vector gets the right size at once, so that it takes no more memory than it needs.
    let mut found = Vec::with_capacity(alloc, count_of(changes, effect))?;
    for place in places {
        if has_effect(changes, *place, effect) {
            found.push(*place)?;
        }
    }
    Ok(found)
}

impl PathOrder {
    /// The order of all changes.
    pub(crate) fn new(alloc: Global, changes: &[NodeChange<'_>]) -> Result<PathOrder, Memory>
        ensures { IfOk result (λ order. IsOrder Effect.Any (map listed_of changes.now) order) }
    {
        // The keys contain the paths, so that a sort has to look at only one place in memory.
        let mut keys = keys_of(alloc, changes)?;
        keys.sort_unstable_by(|a, b| a.compare(b));
        let places = places_of(alloc, &keys)?;
        Ok(PathOrder { places })
    }

    /// The order of those of all changes that have this effect.
    pub(crate) fn with_effect(
        &self,
        alloc: Global,
        changes: &[NodeChange<'_>],
        effect: Effect,
    ) -> Result<PathOrder, Memory>
        requires { IsOrder Effect.Any (map listed_of changes.now) self.now }
        ensures { IfOk result (λ order. IsOrder effect (map listed_of changes.now) order) }
    {
        let places = chosen(alloc, &self.places, changes, effect)?;
        Ok(PathOrder { places })
    }

    /// Removes the changes that don't have this effect.
    pub(crate) fn keep_effect(&mut self, changes: &[NodeChange<'_>], effect: Effect)
        requires { IsOrder Effect.Any (map listed_of changes.now) self.old }
        ensures { IsOrder effect (map listed_of changes.now) self.new }
    {
        self.places
            .retain(|place| has_effect(changes, *place, effect));
    }

    /// The place of the latest of the first `count` changes that has this effect and is at this path.
    pub(crate) fn latest_at(
        &self,
        changes: &[NodeChange<'_>],
        path: &[u8],
        count: usize,
    ) -> Option<usize>
        ensures { (effect : Effect) → IsOrder effect (map listed_of changes.now) self.now
            → result ≡ latest_place (has_effect_at effect (map listed_of changes.now) path.now) count }
    {
        let behind = self
            .places
            .partition_point(|place| is_before(changes, *place, path, count));
        let last = behind.checked_sub(1)?;
        let place = self.places[last];
        if path_at(changes, place) == path {
            Some(place as usize)
        } else {
            None
        }
    }

    /// The later of a place and of the place of the latest of the first `count` changes that is at the root or at a
    /// path above this one. The function looks up each part of the path before a slash.
    pub(crate) fn latest_above(
        &self,
        changes: &[NodeChange<'_>],
        path: &[u8],
        count: usize,
        here: Option<usize>,
    ) -> Option<usize>
        ensures { (test : ℕ → Bool) → IsOrder Effect.Moving (map listed_of changes.now) self.now
            → here ≡ latest_place test count
            → result ≡ latest_place (λ place. test place || moves_above (map listed_of changes.now) path.now place) count }
    {
        let mut last = later(here, self.latest_at(changes, b"", count));
        for (place, byte) in path.iter().enumerate() {
            if *byte == b'/' {
                last = later(last, self.latest_at(changes, &path[..place], count));
            }
        }
        last
    }
}

/// The number of places before the first one whose path comes after all paths that begin with the front.
fn behind(changes: &[NodeChange<'_>], places: &[u32], front: &[u8]) -> usize
    requires { IsSortedKeys (map listed_of changes.now) places.now }
    ensures { IsBehind (keys_in (map listed_of changes.now) places.now) front.now result }
{
    places.partition_point(|place| ends_up_to(path_at(changes, *place), front))
}

impl PathOrder {
    /// The number of changes before those whose paths begin with this top.
    pub(crate) fn first_from(&self, changes: &[NodeChange<'_>], top: &[u8]) -> usize
        requires { IsSortedKeys (map listed_of changes.now) self.now }
        ensures front { NoneBelow (keys_in (map listed_of changes.now) self.now) top.now 0 result }
        ensures behind { AreFrom (keys_in (map listed_of changes.now) self.now) top.now result }
    {
        self.places
            .partition_point(|place| is_before(changes, *place, top, 0))
    }

    /// The first change, from this index of the order on, whose path is right below the directory. The function skips
    /// paths further below, with one binary search for each directory that they are in.
    pub(crate) fn next_child<'a>(
        &self,
        changes: &[NodeChange<'a>],
        top: &[u8],
        from: usize,
    ) -> Option<Child<'a>>
        requires sorted { IsSortedKeys (map listed_of changes.now) self.now }
        requires from { AreFrom (keys_in (map listed_of changes.now) self.now) top.now from }
        ensures { IsNextChildKey (keys_in (map listed_of changes.now) self.now) top.now from result }
    {
        let places = self.places.as_slice();
        let mut at = from;
        while let Some(place) = places.get(at) {
            let path = path_at(changes, *place);
            match stand_below(top, path) {
                Below::Outside => return None,
                Below::Itself => at += 1,
                Below::Child(name) => {
                    return Some(Child {
                        name,
                        place: *place as usize,
                        behind: at + 1,
                    });
                }
                Below::Further(front) => at = behind(changes, places, front),
            }
        }
        None
    }
}
