//! Reads the action and the kind of a node from its header lines.
ghost use Rattle.std.specs.Prelude.{◌≡◌, [], unwrap_or};
ghost use Rattle.dump_text.specs.HeaderLine.{header_value};
ghost use Rattle.dump_text.specs.Names.{node_kind_name};
ghost use Rattle.dump_text.specs.steps.KnownValues.{name_text};
ghost use Rattle.dump_records.specs.steps.RecordViews.{record_item};
ghost use Rattle.dump_history.specs.RecordChanges.{has_undefined_delta};
ghost use Rattle.dump_nodes.specs.steps.Actions.{action_named, is_deleting, is_making, is_known_action, IsActionOf};

use dump_records::Record;
use dump_text::HeaderName;

const ADD: &[u8] = b"add";

const CHANGE: &[u8] = b"change";

const DELETE: &[u8] = b"delete";

const REPLACE: &[u8] = b"replace";

/// What a node does at its path, as its line `Node-action` says.
#[derive(Clone, Copy, Debug, PartialEq, Eq)]
pub enum Action {
    Add,
    Change,
    Delete,
    Replace,
    /// The node has no `Node-action`, or the format doesn't have this one.
    Unknown,
}

impl Action {
    /// The action of this name.
    fn named(name: &[u8]) -> Action
        ensures { result ≡ action_named name.now }
    {
        if name == ADD {
            Action::Add
        } else if name == CHANGE {
            Action::Change
        } else if name == DELETE {
            Action::Delete
        } else if name == REPLACE {
            Action::Replace
        } else {
            Action::Unknown
        }
    }

    /// Whether it is one of the four of the format.
    pub fn is_known(self) -> bool
        ensures { result ≡ is_known_action self }
    {
        !matches!(self, Action::Unknown)
    }

    /// Whether it deletes what is at the path.
    pub fn deletes(self) -> bool
        ensures { result ≡ is_deleting self }
    {
        matches!(self, Action::Delete | Action::Replace)
    }

    /// Whether it makes something at the path.
    pub fn makes(self) -> bool
        ensures { result ≡ is_making self }
    {
        matches!(self, Action::Add | Action::Replace)
    }
}

/// The value of the line of this name; empty if there is none.
fn value_of<'a>(item: &Record<'a>, name: HeaderName) -> &'a [u8]
    ensures { result.now ≡ unwrap_or (header_value (name_text name) (record_item item.now).headers) [] }
{
    match item.block().get(name.bytes()) {
        Some(value) => value,
        None => &[],
    }
}

/// Whether the node says that its properties or its text are a delta, although version 3 isn't in force.
pub fn has_undefined_delta(item: &Record<'_>) -> bool
    ensures { result ≡ has_undefined_delta (record_item item.now) }
{
    item.version() != 3 && item.says_delta()
}

/// The action of the node. It searches the node's lines.
pub fn action_of(item: &Record<'_>) -> Action
    ensures { IsActionOf (record_item item.now) result }
{
    Action::named(value_of(item, HeaderName::NodeAction))
}

/// The kind that the node says it has, as the dump spells it; empty if there is none.
pub fn kind_of<'a>(item: &Record<'a>) -> &'a [u8]
    ensures { result.now ≡ unwrap_or (header_value node_kind_name (record_item item.now).headers) [] }
{
    value_of(item, HeaderName::NodeKind)
}
