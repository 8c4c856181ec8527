//! The instructions of a window.
ghost use Rattle.std.specs.Prelude.{◌≡◌, ◌<◌, ◌≤◌, drop, length, IfSome, option_map};
ghost use Rattle.svndiff.specs.Svndiff.{instruction_at};
ghost use Rattle.svndiff.specs.steps.Readings.{IsSizeAt, found_of};

use crate::numbers::{Number, number_at};

/// What an instruction appends to the target.
#[derive(Clone, Copy)]
pub(crate) enum Instruction {
    /// Bytes at an offset of the source view.
    FromSource { size: u64, offset: u64 },
    /// Bytes at an offset of the target itself.
    FromTarget { size: u64, offset: u64 },
    /// New data.
    New { size: u64 },
}

/// An instruction, and the place after it.
#[derive(Clone, Copy)]
pub(crate) struct Found {
    pub(crate) instruction: Instruction,
    pub(crate) after: usize,
}

/// These bits of the first byte are the size, unless they are 0.
const SIZE: u8 = 64;

/// The size of the instruction at a place, and the place after it.
fn size_at(bytes: &[u8], at: usize) -> Option<Number>
    requires { at < length bytes.now }
    ensures value { IsSizeAt (drop at bytes.now) bytes.now result }
    ensures after { IfSome result (λ it. at < it.after) }
    ensures within { IfSome result (λ it. it.after ≤ length bytes.now) }
{
    let size = bytes[at] % SIZE;
    if size == 0 {
        return number_at(bytes, at + 1);
    }
    Some(Number {
        value: u64::from(size),
        after: at + 1,
    })
}

/// The instruction at a place of some bytes.
pub(crate) fn instruction_at(bytes: &[u8], at: usize) -> Option<Found>
    requires { at < length bytes.now }
    ensures value { instruction_at (drop at bytes.now) ≡ option_map (found_of bytes.now) result }
    ensures after { IfSome result (λ it. at < it.after) }
    ensures within { IfSome result (λ it. it.after ≤ length bytes.now) }
{
    let first = bytes[at];
    let Some(size) = size_at(bytes, at) else {
        return None;
    };
    if first >= 192 {
        return None;
    }
    if first >= 128 {
        return Some(Found {
            instruction: Instruction::New { size: size.value },
            after: size.after,
        });
    }
    let Some(offset) = number_at(bytes, size.after) else {
        return None;
    };
    let instruction = if first < 64 {
        Instruction::FromSource {
            size: size.value,
            offset: offset.value,
        }
    } else {
        Instruction::FromTarget {
            size: size.value,
            offset: offset.value,
        }
    };
    Some(Found {
        instruction,
        after: offset.after,
    })
}
