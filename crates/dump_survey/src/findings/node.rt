//! What a survey finds in a node.
ghost use Rattle.std.specs.Prelude.{◌≡◌, List, Option, IfOk, IsTrue, IsFalse, map, option_copied};
ghost use Rattle.std.specs.List.{list_any};
ghost use Rattle.dump_text.specs.PropertyList.{Property};
ghost use Rattle.dump_records.specs.steps.RecordViews.{record_item};
ghost use Rattle.dump_rules.specs.Prefix.{bare_prefix};
ghost use Rattle.dump_digest.specs.RecordParts.{is_copy, is_node};
ghost use Rattle.dump_digest.specs.steps.ContentViews.{ArePropertiesOf};
ghost use Rattle.dump_history.specs.Findings.{every_finding, has_kept_path, has_kept_source, is_exclude, IsReadBlock};
ghost use Rattle.dump_nodes.specs.steps.Actions.{IsActionOf};
ghost use Rattle.dump_survey.specs.steps.Found.{AreLossesOf, AreObstaclesOf, IsFoundIn, found_prefix, has_found};

use crate::findings::prefixes::Prefixes;
use crate::findings::refused::{Refused, refused_of};
use crate::findings::revision_numbers::Numbers;
use dump_digest::properties_of;
use dump_history::Finding;
use dump_nodes::{
    Action, action_of, copy_path_of, has_undefined_delta, is_copy, is_whole_file, loads_as_written,
    path_of,
};
use dump_records::Record;
use dump_rules::{Memory, Options, Side, keeps};
use dump_text::Props;
use std::alloc::Global;

/// What prevents a node from making a change that the definitions describe.
#[derive(Clone, Copy, Debug, PartialEq, Eq)]
pub(crate) struct Obstacles {
    pub(crate) unread_block: bool,
    pub(crate) delta: bool,
    pub(crate) unknown_action: bool,
    pub(crate) text_read_differently: bool,
}

/// What the filter's cut does to a node.
#[derive(Clone, Copy, Debug, PartialEq, Eq)]
pub(crate) struct Losses<'o> {
    pub(crate) no_whole_file: bool,
    pub(crate) properties_lost: bool,
    /// The first prefix because of which a copy lacks something.
    pub(crate) copy_loses: Option<&'o [u8]>,
    /// The first prefix because of which a copy brings something back.
    pub(crate) copy_lets_in: Option<&'o [u8]>,
    pub(crate) included_stays: bool,
    pub(crate) included_missing: bool,
    pub(crate) text_comes_in: bool,
}

impl Losses<'static> {
    /// The value that says that nothing is lost.
    pub(crate) const NONE: Losses<'static> = Losses {
        no_whole_file: false,
        properties_lost: false,
        copy_loses: None,
        copy_lets_in: None,
        included_stays: false,
        included_missing: false,
        text_comes_in: false,
    };
}

/// The findings in a node.
#[derive(Clone, Copy, Debug, PartialEq, Eq)]
pub struct Found<'o> {
    pub(crate) obstacles: Obstacles,
    pub(crate) refused: Refused,
    pub(crate) losses: Losses<'o>,
}

impl<'o> Found<'o> {
    /// Whether this finding is one of them.
    pub fn has(&self, finding: Finding) -> bool
        ensures { result ≡ has_found self.now finding }
    {
        match finding {
            Finding::UnreadBlock => self.obstacles.unread_block,
            Finding::Delta => self.obstacles.delta,
            Finding::UnknownAction => self.obstacles.unknown_action,
            Finding::TextReadDifferently => self.obstacles.text_read_differently,
            Finding::NoWholeFile => self.losses.no_whole_file,
            Finding::MissingCopyRevision => self.refused.copy_revision,
            Finding::UnreadMergeinfo => self.refused.unread,
            Finding::MissingMergeSource => self.refused.missing,
            Finding::MissingMergeRevision => self.refused.outside,
            Finding::PropertiesLost => self.losses.properties_lost,
            Finding::CopyLoses => self.losses.copy_loses.is_some(),
            Finding::CopyLetsIn => self.losses.copy_lets_in.is_some(),
            Finding::IncludedStays => self.losses.included_stays,
            Finding::IncludedMissing => self.losses.included_missing,
            Finding::TextComesIn => self.losses.text_comes_in,
        }
    }

    /// Whether there is any finding. Most nodes have none, so it doesn't ask for each kind in turn.
    pub(crate) fn is_any(&self) -> bool
        ensures { result ≡ list_any (has_found self.now) every_finding }
    {
        let (obstacles, refused, losses) = (self.obstacles, self.refused, self.losses);
        obstacles.unread_block
            | obstacles.delta
            | obstacles.unknown_action
            | obstacles.text_read_differently
            | refused.copy_revision
            | refused.unread
            | refused.missing
            | refused.outside
            | losses.no_whole_file
            | losses.properties_lost
            | losses.copy_loses.is_some()
            | losses.copy_lets_in.is_some()
            | losses.included_stays
            | losses.included_missing
            | losses.text_comes_in
    }

    /// The prefix that is reported with this finding, if there is one.
    pub(crate) fn prefix(&self, finding: Finding) -> Option<&'o [u8]>
        ensures { option_copied result ≡ found_prefix self.now finding }
    {
        match finding {
            Finding::CopyLoses => self.losses.copy_loses,
            Finding::CopyLetsIn => self.losses.copy_lets_in,
            _ => None,
        }
    }
}

/// The obstacles of a node with this action and these properties: what prevents it from making a change that the
/// definitions describe.
fn obstacles_of(item: &Record<'_>, action: Action, props: &Option<Props<'_>>) -> Obstacles
    requires node { IsTrue (is_node (record_item item.now)) }
    requires action { IsActionOf (record_item item.now) action }
    requires props { ArePropertiesOf (record_item item.now) props.now }
    ensures { (ps : Option (List Property)) → IsReadBlock (record_item item.now) ps
        → AreObstaclesOf (record_item item.now) ps result }
{
    Obstacles {
        unread_block: props.is_none(),
        delta: has_undefined_delta(item),
        unknown_action: !action.is_known(),
        text_read_differently: !loads_as_written(item, props),
    }
}

/// Whether the subcommand is `exclude`.
fn is_exclude(options: &Options) -> bool
    ensures { result ≡ is_exclude options.now.side }
{
    match options.side() {
        Side::Include => false,
        Side::Exclude => true,
    }
}

/// What the filter's cut does to a kept copy whose source is excluded.
fn losses_of_lost<'o>(item: &Record<'_>, action: Action, options: &Options) -> Losses<'o>
    requires action { IsActionOf (record_item item.now) action }
    requires kept { IsTrue (has_kept_path options.now (record_item item.now)) }
    requires copy { IsTrue (is_copy (record_item item.now)) }
    requires lost { IsFalse (has_kept_source options.now (record_item item.now)) }
    ensures { AreLossesOf options.now (record_item item.now) result }
{
    let makes = action.makes();
    let whole = is_whole_file(item);
    Losses {
        no_whole_file: !whole,
        properties_lost: makes & !item.has_props(),
        text_comes_in: is_exclude(options) & makes & whole,
        ..Losses::NONE
    }
}

/// What the filter's cut does to a kept copy whose source is kept too.
fn losses_of_copy<'o>(
    alloc: Global,
    item: &Record<'_>,
    action: Action,
    options: &'o Options,
    prefixes: &Prefixes<'o>,
) -> Result<Losses<'o>, Memory>
    requires node { IsTrue (is_node (record_item item.now)) }
    requires action { IsActionOf (record_item item.now) action }
    requires kept { IsTrue (has_kept_path options.now (record_item item.now)) }
    requires copy { IsTrue (is_copy (record_item item.now)) }
    requires source { IsTrue (has_kept_source options.now (record_item item.now)) }
    requires prefixes { prefixes.now ≡ map bare_prefix options.now.prefixes }
    ensures { IfOk result (λ losses. AreLossesOf options.now (record_item item.now) losses) }
{
    if !action.makes() {
        return Ok(Losses::NONE);
    }
    let path = path_of(item);
    let source = copy_path_of(item);
    let copy_loses = prefixes.cut(alloc, options, source, path)?;
    let copy_lets_in = prefixes.cut(alloc, options, path, source)?;
    Ok(Losses {
        copy_loses,
        copy_lets_in,
        ..Losses::NONE
    })
}

/// What the filter's cut does to a kept node.
fn losses_of_kept<'o>(
    alloc: Global,
    item: &Record<'_>,
    action: Action,
    options: &'o Options,
    prefixes: &Prefixes<'o>,
) -> Result<Losses<'o>, Memory>
    requires node { IsTrue (is_node (record_item item.now)) }
    requires action { IsActionOf (record_item item.now) action }
    requires kept { IsTrue (has_kept_path options.now (record_item item.now)) }
    requires prefixes { prefixes.now ≡ map bare_prefix options.now.prefixes }
    ensures { IfOk result (λ losses. AreLossesOf options.now (record_item item.now) losses) }
{
    if !is_copy(item) {
        return Ok(Losses::NONE);
    }
    if !keeps(options, copy_path_of(item)) {
        return Ok(losses_of_lost(item, action, options));
    }
    losses_of_copy(alloc, item, action, options, prefixes)
}

/// What the filter's cut does to a node whose path isn't kept.
fn losses_of_left<'o>(
    item: &Record<'_>,
    action: Action,
    options: &Options,
    prefixes: &Prefixes<'_>,
) -> Losses<'o>
    requires node { IsTrue (is_node (record_item item.now)) }
    requires action { IsActionOf (record_item item.now) action }
    requires left { IsFalse (has_kept_path options.now (record_item item.now)) }
    requires prefixes { prefixes.now ≡ map bare_prefix options.now.prefixes }
    ensures { AreLossesOf options.now (record_item item.now) result }
{
    let deletes = action.deletes();
    let copies = action.makes() && is_copy(item);
    if !(deletes | copies) {
        return Losses::NONE;
    }
    let above = prefixes.has_below(options, path_of(item));
    Losses {
        included_stays: deletes & above,
        included_missing: copies & above,
        ..Losses::NONE
    }
}

/// What the survey finds in a node, kept or not. `Numbers` describes the revisions up to the node.
pub(crate) fn find<'o>(
    alloc: Global,
    item: &Record<'_>,
    kept: bool,
    options: &'o Options,
    prefixes: &Prefixes<'o>,
    numbers: &Numbers,
) -> Result<Found<'o>, Memory>
    requires node { IsTrue (is_node (record_item item.now)) }
    requires kept { kept ≡ has_kept_path options.now (record_item item.now) }
    requires prefixes { prefixes.now ≡ map bare_prefix options.now.prefixes }
    ensures { IfOk result (λ found. IsFoundIn options.now numbers.now (record_item item.now) found) }
{
    let props = properties_of(item);
    let action = action_of(item);
    let obstacles = obstacles_of(item, action, &props);
    if !kept {
        return Ok(Found {
            obstacles,
            refused: Refused::NONE,
            losses: losses_of_left(item, action, options, prefixes),
        });
    }
    let refused = refused_of(item, &props, options, numbers);
    let losses = losses_of_kept(alloc, item, action, options, prefixes)?;
    Ok(Found {
        obstacles,
        refused,
        losses,
    })
}
