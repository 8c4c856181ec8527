//! The index of the changes of a dump.
ghost use Rattle.std.specs.Prelude.{◌≡◌, ◌<◌, ◌==◌, ◌||◌, false, ℕ, suc, List, IfOk, IfSome, IsTrue, Some, length, map, option_copied, option_map, reverse, slice_get, take, true};
ghost use Rattle.dump_trees.specs.Paths.{names_of};
ghost use Rattle.dump_trees.specs.steps.Looking.{end_of, latest, touches_path};
ghost use Rattle.dump_index.specs.steps.InOrder.{are_in_order, comes_in_order, ends_in_slash, is_from_before};
ghost use Rattle.dump_index.specs.steps.OutOfOrder.{IsFirstOutOfOrder};
ghost use Rattle.dump_index.specs.steps.Kinds.{kind_look};
ghost use Rattle.dump_index.specs.steps.Keys.{has_effect_at, latest_place};
ghost use Rattle.dump_index.specs.steps.Settings.{IsTrail, latest_for, sets_at};
ghost use Rattle.dump_index.specs.steps.Touching.{shapes};
ghost use Rattle.dump_index.specs.steps.Trails.{IsTrailStep};
ghost use Rattle.dump_index.specs.steps.Looks.{GoesBack, came, is_since, origin_kind, origin_names, kind_with_text};
ghost use Rattle.dump_index.specs.steps.KnownKinds.{AreKindsBehind, IsLook, count_through, source_look};
ghost use Rattle.dump_index.specs.steps.Listed.{Listed, all_placed, listed_of};
ghost use Rattle.dump_index.specs.steps.Children.{is_child_named};
ghost use Rattle.dump_trees.specs.steps.Listing.{names_behind, names_look, names_made};

mod children;
mod existing;

use crate::change::{NodeChange, NodeKind, NodeMade};
use crate::look::{Look, is_since};
use crate::order::{Effect, PathOrder, later};
use crate::origin::{Origin, kind_made, made_origin, with_text};
use crate::path_text::{ends_in_slash, joined};
use crate::trail::{Next, Part, Step, is_place, own_place, push_place, replaces};
use dump_rules::Memory;
use std::alloc::Global;
use std::marker::Model;

/// All changes of a dump, in orders in which the changes at a path can be found.
///
/// An index answers a question about a path by binary searches for that path and for the paths above it. Making an
/// index takes the time to sort the changes. Besides the changes, it takes at most 16 bytes for each of them. An index
/// stores places in 32 bits, so it can't be made of more than 2^32 changes.
#[derive(Drop)]
pub struct ChangeIndex<'a> {
    changes: Vec<NodeChange<'a>>,
    shaping: PathOrder,
    moving: PathOrder,
    props: PathOrder,
    texts: PathOrder,
}

// A change and its place in each of the orders take at most 96 bytes.
const _: () = prove!(size_of::<NodeChange<'static>>() + 4 * size_of::<u32>() <= 96);

impl<'a> Model for ChangeIndex<'a> {
    ghost use Rattle.std.specs.Prelude.{List, map};
    ghost use Rattle.dump_index.specs.steps.Listed.{Listed, listed_of};

    ghost Value = { List Listed };

    ghost use Rattle.dump_index.specs.steps.Index.{IsChangeIndex};

    ghost view = { λ index. map listed_of index.changes.items };

    ghost invariant = { λ index. IsChangeIndex index.changes.items index.shaping index.moving index.props index.texts };
}

/// The place of the first change that isn't in order. Its revision is below that of the change before it, or its path
/// ends in a slash, or it is a wrong copy. A copy is wrong if its source isn't of an earlier revision, or if the
/// source path ends in a slash.
pub fn first_out_of_order(changes: &[NodeChange<'_>]) -> Option<usize>
    ensures { IsFirstOutOfOrder changes.now result }
{
    let mut least = 0;
    for (place, change) in changes.iter().enumerate() {
        if !comes_in_order(least, change) {
            return Some(place);
        }
        least = change.revision;
    }
    None
}

/// Whether the change is in order if it follows a change of the revision `least`.
fn comes_in_order(least: u64, change: &NodeChange<'_>) -> bool
    ensures { result ≡ comes_in_order least change.now }
{
    change.revision >= least && is_from_before(change) && !ends_in_slash(change.path)
}

/// Whether the change is no copy, or a copy of an earlier revision and of a path that doesn't end in a slash.
fn is_from_before(change: &NodeChange<'_>) -> bool
    ensures { result ≡ is_from_before change.now.revision change.now.made }
{
    match change.made {
        Some(NodeMade::CopyOf(source)) => {
            source.revision < change.revision && !ends_in_slash(source.path)
        }
        _ => true,
    }
}

impl<'a> ChangeIndex<'a> {
    /// Makes an index of these changes, which are in the order of the dump.
    pub fn new(alloc: Global, changes: Vec<NodeChange<'a>>) -> Result<ChangeIndex<'a>, Memory>
        requires { IsTrue (are_in_order 0 changes.items) }
        ensures { IfOk result (λ index. index ≡ map listed_of changes.entry.items) }
    {
        let listed = changes.as_slice();
        // All orders are made from one sort.
        let mut shaping = PathOrder::new(alloc, listed)?;
        let moving = shaping.with_effect(alloc, listed, Effect::Moving)?;
        let props = shaping.with_effect(alloc, listed, Effect::Props)?;
        let texts = shaping.with_effect(alloc, listed, Effect::Texts)?;
        shaping.keep_effect(listed, Effect::Shaping);
        Ok(ChangeIndex {
            changes,
            shaping,
            moving,
            props,
            texts,
        })
    }

    /// The place of the latest of the first `count` changes that touches the path. A change touches a path if it does
    /// something there, or if it deletes or copies at a path above.
    pub fn latest_touching(&self, path: &[u8], count: usize) -> Option<usize>
        ensures { result ≡ latest (touches_path (names_of path.now)) (all_placed self.now) count }
    {
        let set = later(
            self.latest_setting(Part::Props, path, count),
            self.latest_setting(Part::Text, path, count),
        );
        let here = later(self.latest_shaped(path, count), set);
        self.moving.latest_above(&self.changes, path, count, here)
    }

    /// The place of the latest of the first `count` changes that deletes or makes something at the path.
    fn latest_shaped(&self, path: &[u8], count: usize) -> Option<usize>
        ensures { result ≡ latest_place (has_effect_at Effect.Shaping self.now path.now) count }
    {
        self.shaping.latest_at(&self.changes, path, count)
    }

    /// The place of the latest of the first `count` changes that decides what exists at the path. Such a change
    /// deletes or makes something there, or deletes or copies at a path above.
    fn latest_shaping(&self, path: &[u8], count: usize) -> Option<usize>
        ensures place { result ≡ latest_place (shapes self.now path.now) count }
        ensures looks { kind_look self.now count (names_of path.now)
            ≡ kind_with_text (is_since result (latest_place (has_effect_at Effect.Texts self.now path.now) count))
            (came self.now path.now result) }
        ensures names { (name : List ℕ) → is_child_named (names_look (all_placed self.now) count (names_of path.now)) name
            ≡ (is_child_named (names_made (all_placed self.now) count (names_of path.now)) name
            || is_child_named (names_behind (names_look (all_placed self.now)) (all_placed self.now) (names_of path.now) result) name) }
    {
        let here = self.latest_shaped(path, count);
        self.moving.latest_above(&self.changes, path, count, here)
    }

    /// The change at this place.
    pub fn get(&self, place: usize) -> Option<&NodeChange<'a>>
        ensures { option_map listed_of (option_copied result) ≡ slice_get self.now place }
    {
        self.changes.get(place)
    }

    /// All changes, in the order of the dump.
    pub fn changes(&self) -> &[NodeChange<'a>]
        ensures { map listed_of result.now ≡ self.now }
    {
        &self.changes
    }

    /// How many changes there are.
    pub fn len(&self) -> usize
        ensures { result ≡ length self.now }
    {
        self.changes.len()
    }

    /// Whether there is no change.
    pub fn is_empty(&self) -> bool
        ensures { result ≡ (length self.now == 0) }
    {
        self.changes.is_empty()
    }

    /// The number of changes in revisions up to this number.
    pub fn end_of(&self, revision: u64) -> usize
        ensures { result ≡ end_of (all_placed self.now) revision }
    {
        self.changes
            .partition_point(|change| change.revision <= revision)
    }

    /// Makes an index of the changes of the revisions up to this number.
    pub fn up_to(&self, alloc: Global, revision: u64) -> Result<ChangeIndex<'a>, Memory>
        ensures { IfOk result (λ index. index ≡ take (end_of (all_placed self.now) revision) self.now) }
    {
        let end = self.end_of(revision);
        let changes = Vec::from_slice(alloc, &self.changes[..end])?;
        ChangeIndex::new(alloc, changes)
    }

    /// The origin of what exists at the path after the latest change that shapes the path. `shaped` is that change's
    /// place; without one, the result is the origin in the first tree.
    fn origin<'p>(&self, path: &'p [u8], shaped: Option<usize>) -> Origin<'p, 'a>
        requires bare { ends_in_slash path.now ≡ false }
        requires shaped { (place : ℕ) → shaped ≡ Some place → shapes self.now path.now place ≡ true }
        ensures kind { origin_kind self.now result ≡ came self.now path.now shaped }
        ensures names { origin_names self.now result
            ≡ names_behind (names_look (all_placed self.now)) (all_placed self.now) (names_of path.now) shaped }
        ensures back { GoesBack self.now shaped result }
    {
        match shaped {
            Some(place) => made_origin(&self.changes[place], path),
            None if path.is_empty() => Origin::New(NodeKind::Directory),
            None => Origin::Nowhere,
        }
    }

    /// What the change at this place left at the path, if this is known and the change is at this path.
    fn known_at(
        &self,
        path: &[u8],
        place: Option<usize>,
        known: &[Option<NodeKind>],
    ) -> Option<Option<NodeKind>>
        requires { AreKindsBehind self.now known.now }
        ensures { IfSome result (λ kind. kind ≡ kind_look self.now (count_through place) (names_of path.now)) }
    {
        let place = place?;
        let kind = known.get(place)?;
        let change = self.changes.get(place)?;
        if change.path == path {
            Some(*kind)
        } else {
            None
        }
    }

    /// What exists at the path after the first `before` changes, or the copy source at which the caller has to look.
    fn look<'p>(&self, path: &'p [u8], before: usize, known: &[Option<NodeKind>]) -> Look<'p, 'a>
        requires bare { ends_in_slash path.now ≡ false }
        requires known { AreKindsBehind self.now known.now }
        ensures { IsLook self.now before path.now result }
    {
        let shaped = self.latest_shaping(path, before);
        match self.origin(path, shaped) {
            Origin::Nowhere => Look::Found(None),
            // A text that is set on a file leaves a file, so there is no need to look for one.
            Origin::New(NodeKind::File) => Look::Found(Some(NodeKind::File)),
            Origin::New(NodeKind::Directory) => {
                let set = self.texts.latest_at(&self.changes, path, before);
                Look::Found(with_text(Some(NodeKind::Directory), is_since(shaped, set)))
            }
            Origin::Copied(source, rest) => {
                let set = self.texts.latest_at(&self.changes, path, before);
                match self.known_at(path, later(shaped, set), known) {
                    Some(kind) => Look::Found(kind),
                    None => Look::Copied(source, rest, is_since(shaped, set)),
                }
            }
        }
    }

    /// What exists at the path after the first `count` changes, and after a text is set on it if `has_text` is true.
    fn kind_since(
        &self,
        alloc: Global,
        path: Vec<u8>,
        count: usize,
        has_text: bool,
        known: &[Option<NodeKind>],
    ) -> Result<Option<NodeKind>, Memory>
        requires bare { ends_in_slash path.items ≡ false }
        requires known { AreKindsBehind self.now known.now }
        ensures { IfOk result (λ kind. kind
            ≡ kind_with_text has_text (kind_look self.now count (names_of path.items))) }
    {
        let mut at = path;
        let mut before = count;
        let mut has_text = has_text;
        loop {
            match self.look(&at, before, known) {
                Look::Found(kind) => return Ok(with_text(kind, has_text)),
                Look::Copied(source, rest, set) => {
                    let next = joined(alloc, source.path, rest)?;
                    before = self.end_of(source.revision);
                    at = next;
                    has_text = has_text | set;
                }
            }
        }
    }

    /// What exists at the path after the first `count` changes. The caller gives what some of the first changes left
    /// at their own paths: for each change, the kind right after it, as [`ChangeIndex::kind_behind`] returns it. If a
    /// look comes to such a path, it follows no further copies. The function takes memory only if it follows a copy.
    pub fn kind_known(
        &self,
        alloc: Global,
        path: &[u8],
        count: usize,
        known: &[Option<NodeKind>],
    ) -> Result<Option<NodeKind>, Memory>
        requires bare { ends_in_slash path.now ≡ false }
        requires known { AreKindsBehind self.now known.now }
        ensures { IfOk result (λ kind. kind ≡ kind_look self.now count (names_of path.now)) }
    {
        match self.look(path, count, known) {
            Look::Found(kind) => Ok(kind),
            Look::Copied(source, rest, set) => {
                let from = joined(alloc, source.path, rest)?;
                let before = self.end_of(source.revision);
                self.kind_since(alloc, from, before, set, known)
            }
        }
    }

    /// What exists at the path after the first `count` changes.
    pub fn kind_at(
        &self,
        alloc: Global,
        path: &[u8],
        count: usize,
    ) -> Result<Option<NodeKind>, Memory>
        requires { ends_in_slash path.now ≡ false }
        ensures { IfOk result (λ kind. kind ≡ kind_look self.now count (names_of path.now)) }
    {
        self.kind_known(alloc, path, count, &[])
    }

    /// What the change at this place leaves at its path. The arguments are the kinds of nodes that exist before the
    /// change at its path and at the source of the copy that it makes. A change changes nothing at a path with fewer
    /// bytes.
    pub fn kind_behind(
        &self,
        place: usize,
        here: Option<NodeKind>,
        source: Option<NodeKind>,
    ) -> Option<NodeKind>
        requires inside { place < length self.now }
        requires here { (l : Listed) → slice_get self.now place ≡ Some l
            → here ≡ kind_look self.now place (names_of l.path) }
        requires source { (l : Listed) → slice_get self.now place ≡ Some l
            → source ≡ source_look self.now l.revision l.made }
        ensures own { (l : Listed) → slice_get self.now place ≡ Some l
            → result ≡ kind_look self.now (suc place) (names_of l.path) }
        ensures shorter { (l : Listed) (path : List ℕ) → slice_get self.now place ≡ Some l → length path < length l.path
            → kind_look self.now (suc place) (names_of path) ≡ kind_look self.now place (names_of path) }
    {
        let change = &self.changes[place];
        with_text(kind_made(change, here, source), change.text.sets())
    }

    /// The place of the latest of the first `count` changes that sets the part at the path.
    fn latest_setting(&self, part: Part, path: &[u8], count: usize) -> Option<usize>
        ensures { result ≡ latest_place (sets_at part self.now path.now) count }
    {
        match part {
            Part::Props => self.props.latest_at(&self.changes, path, count),
            Part::Text => self.texts.latest_at(&self.changes, path, count),
        }
    }

    /// One step of a trail for the part of what the change at this place leaves at the path.
    fn step_behind<'p>(
        &self,
        part: Part,
        path: &'p [u8],
        place: usize,
        shaped: bool,
        set: bool,
    ) -> Step<'p, 'a>
        requires bare { ends_in_slash path.now ≡ false }
        requires shaped { shaped ≡ shapes self.now path.now place }
        requires set { set ≡ sets_at part self.now path.now place }
        requires some { (shaped || set) ≡ true }
        ensures { (before : ℕ) → latest_for part self.now path.now before ≡ Some place
            → IsTrailStep part self.now before path.now result }
    {
        let change = &self.changes[place];
        let own = own_place(set, place);
        if set && replaces(change, part) {
            return Step::last(own);
        }
        if !shaped {
            return Step {
                set: own,
                next: Next::Before(place),
            };
        }
        if let Origin::Copied(source, rest) = made_origin(change, path) {
            return Step {
                set: own,
                next: Next::Copied(source, rest),
            };
        }
        Step::last(own)
    }

    /// One step of a trail for the part of what exists at the path after the first `before` changes.
    fn step<'p>(&self, part: Part, path: &'p [u8], before: usize) -> Step<'p, 'a>
        requires { ends_in_slash path.now ≡ false }
        ensures { IsTrailStep part self.now before path.now result }
    {
        let shaped = self.latest_shaping(path, before);
        let set = self.latest_setting(part, path, before);
        let Some(place) = later(shaped, set) else {
            return Step::last(None);
        };
        self.step_behind(
            part,
            path,
            place,
            is_place(shaped, place),
            is_place(set, place),
        )
    }

    /// The places of the changes that set the part of what exists at the path after the first `count` changes, in the
    /// dump's order. The first of them sets the whole part or makes a new node. Each other one edits what the one
    /// before it left.
    pub fn settings_at(
        &self,
        alloc: Global,
        part: Part,
        path: &[u8],
        count: usize,
    ) -> Result<Vec<usize>, Memory>
        requires { ends_in_slash path.now ≡ false }
        ensures { IfOk result (λ places. IsTrail part self.now count path.now (reverse places.items)) }
    {
        let mut places = Vec::new(alloc);
        let mut at = Vec::from_slice(alloc, path)?;
        let mut before = count;
        loop {
            let step = self.step(part, &at, before);
            push_place(&mut places, step.set)?;
            match step.next {
                Next::End => {
                    places.reverse();
                    return Ok(places);
                }
                Next::Before(place) => before = place,
                Next::Copied(source, rest) => {
                    let next = joined(alloc, source.path, rest)?;
                    before = self.end_of(source.revision);
                    at = next;
                }
            }
        }
    }
}
