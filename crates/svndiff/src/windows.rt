//! The windows of a delta: what their heads state.
ghost use Rattle.std.specs.Prelude.{◌≡◌, ◌<◌, ◌≤◌, drop, length, IfOk, IfErr, MatchResult, Some, None};
ghost use Rattle.svndiff.specs.Svndiff.{window_at};
ghost use Rattle.svndiff.specs.steps.Readings.{AreParts, window_of};

use crate::error::Defect;
use crate::numbers::number_at;

/// A view has no more bytes.
const LARGEST: u64 = 102_400;

/// An offset is smaller.
const FARTHEST: u64 = 0x8000_0000_0000_0000;

/// A window: what its head states, and the places of its instructions, of its new data, and of what follows them.
#[derive(Clone, Copy)]
pub(crate) struct Window {
    pub(crate) offset: u64,
    pub(crate) source_size: usize,
    pub(crate) target_size: usize,
    pub(crate) instructions: usize,
    pub(crate) new_data: usize,
    pub(crate) after: usize,
}

/// The window at a place of the delta.
pub(crate) fn window_at(delta: &[u8], at: usize) -> Result<Window, Defect>
    requires { at ≤ length delta.now }
    ensures value { MatchResult result
        (λ it. window_at (drop at delta.now) ≡ Some (window_of delta.now it, drop it.after delta.now))
        (λ _. window_at (drop at delta.now) ≡ None) }
    ensures parts { IfOk result (λ it. AreParts at delta.now it) }
{
    let Some(offset) = number_at(delta, at) else {
        return Err(Defect::Number);
    };
    let Some(source) = number_at(delta, offset.after) else {
        return Err(Defect::Number);
    };
    let Some(target) = number_at(delta, source.after) else {
        return Err(Defect::Number);
    };
    let Some(instructions) = number_at(delta, target.after) else {
        return Err(Defect::Number);
    };
    let Some(new_data) = number_at(delta, instructions.after) else {
        return Err(Defect::Number);
    };
    if offset.value >= FARTHEST || source.value > LARGEST || target.value > LARGEST {
        return Err(Defect::Large);
    }
    let left = (delta.len() - new_data.after) as u64;
    if instructions.value > left || new_data.value > left - instructions.value {
        return Err(Defect::Cut);
    }
    let end = new_data.after + instructions.value as usize;
    Ok(Window {
        offset: offset.value,
        source_size: source.value as usize,
        target_size: target.value as usize,
        instructions: new_data.after,
        new_data: end,
        after: end + new_data.value as usize,
    })
}
