//! The changes that set the properties or the text of what exists at a path.
ghost use Rattle.std.specs.Prelude.{◌≡◌, ◌++◌, OnOk, option_to_list};
ghost use Rattle.dump_index.specs.steps.Listed.{listed_of};
ghost use Rattle.dump_index.specs.steps.Settings.{is_replacing, own_place, setting_of};
ghost use Rattle.dump_index.specs.steps.Looks.{is_place};

use crate::change::{NodeChange, Setting, Source};
use dump_rules::Memory;

/// A part of a node that changes set.
#[derive(Clone, Copy, Debug, PartialEq, Eq)]
pub enum Part {
    Props,
    Text,
}

/// What a trail looks up before a change.
#[derive(Clone, Copy)]
pub(crate) enum Next<'p, 'a> {
    /// Nothing is looked up.
    End,
    /// What existed at the path before the change at this place.
    Before(usize),
    /// What existed at the source, or at this rest of the path below it.
    Copied(Source<'a>, &'p [u8]),
}

/// The change that sets a part last, if there is one, and what the trail looks up before it.
#[derive(Clone, Copy)]
pub(crate) struct Step<'p, 'a> {
    pub(crate) set: Option<usize>,
    pub(crate) next: Next<'p, 'a>,
}

impl<'p, 'a> Step<'p, 'a> {
    /// The step after which a trail ends.
    pub(crate) fn last(set: Option<usize>) -> Step<'p, 'a>
        ensures { result ≡ record { set = set; next = Next.End } }
    {
        Step {
            set,
            next: Next::End,
        }
    }
}

/// Whether the change sets the whole part.
pub(crate) fn replaces(change: &NodeChange<'_>, part: Part) -> bool
    ensures { result ≡ is_replacing (setting_of part (listed_of change.now)) }
{
    let setting = match part {
        Part::Props => change.props,
        Part::Text => change.text,
    };
    matches!(setting, Setting::Replaces)
}

/// The place, if something is set there.
pub(crate) fn own_place(set: bool, place: usize) -> Option<usize>
    ensures { option_to_list result ≡ own_place set place }
{
    if set { Some(place) } else { None }
}

/// Whether there is a place, and it is equal to the other one.
pub(crate) fn is_place(place: Option<usize>, other: usize) -> bool
    ensures { result ≡ is_place place other }
{
    match place {
        Some(place) => place == other,
        None => false,
    }
}

/// Adds a place, if there is one.
pub(crate) fn push_place(places: &mut Vec<usize>, place: Option<usize>) -> Result<(), Memory>
    ensures { OnOk result (places.new.items ≡ places.old.items ++ option_to_list place) }
{
    if let Some(place) = place {
        places.push(place)?;
    }
    Ok(())
}
