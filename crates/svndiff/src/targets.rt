//! What the instructions of a window append to the new text.
ghost use Rattle.std.specs.Prelude.{◌≡◌, ◌<◌, ◌≤◌, ◌&&◌, ◌+◌, drop, length, nat_lt, nat_le, take, vec_len, IfErr, IfOk, OnOk};
ghost use Rattle.svndiff.specs.Svndiff.{copied_on, is_applicable};
ghost use Rattle.svndiff.specs.steps.Readings.{Appends, IsApplied, NamesPlaceIn, instruction_of, target_from};

use crate::error::{Defect, NotApplied};
use crate::instructions::{Instruction, instruction_at};
use std::alloc::AllocError;

/// What a target is made of: the source view, the target's size, the instructions from the place `first` on, and the new
/// data.
#[derive(Clone, Copy)]
pub(crate) struct Inputs<'a> {
    pub(crate) view: &'a [u8],
    pub(crate) size: usize,
    pub(crate) instructions: &'a [u8],
    pub(crate) first: usize,
    pub(crate) new_data: &'a [u8],
}

/// Whether a target that is to have the size `target_size`, and has the size `made`, has room for so many bytes, and
/// they are some.
fn has_room(target_size: usize, made: usize, size: u64) -> bool
    ensures { result ≡ (nat_lt 0 size && nat_le (made + size) target_size) }
{
    size > 0 && size <= target_size as u64 && made as u64 <= target_size as u64 - size
}

/// Whether an instruction can be applied, after which so much of the target is made and this new data is unused.
fn is_applicable(inputs: &Inputs<'_>, instruction: &Instruction, made: &[u8], unused: &[u8]) -> bool
    ensures { result ≡ is_applicable inputs.now.view.now inputs.now.size (instruction_of instruction.now)
        (record { made = made.now; unused = unused.now }) }
{
    let view = inputs.view;
    match *instruction {
        Instruction::FromSource { size, offset } => {
            let room = has_room(inputs.size, made.len(), size);
            room && size <= view.len() as u64 && offset <= view.len() as u64 - size
        }
        Instruction::FromTarget { size, offset } => {
            has_room(inputs.size, made.len(), size) && offset < made.len() as u64
        }
        Instruction::New { size } => {
            has_room(inputs.size, made.len(), size) && size <= unused.len() as u64
        }
    }
}

/// Appends bytes of the target, which begins at `start` of the text, one after the other.
fn copy_target(
    text: &mut Vec<u8>,
    start: usize,
    size: usize,
    offset: usize,
) -> Result<(), AllocError>
    requires { start + offset < vec_len text.old }
    ensures before { OnOk result (take start text.new.items ≡ take start text.old.items) }
    ensures target { OnOk result (drop start text.new.items ≡ copied_on size offset (drop start text.old.items)) }
{
    for next in 0..size {
        let byte = text[start + offset + next];
        text.push(byte)?;
    }
    Ok(())
}

/// Applies an instruction to the target, which begins at `start` of the text, and returns the new data that is still
/// unused; `None` if it can't be applied.
fn apply_instruction<'a>(
    text: &mut Vec<u8>,
    start: usize,
    inputs: &Inputs<'_>,
    unused: &'a [u8],
    instruction: &Instruction,
) -> Result<Option<&'a [u8]>, AllocError>
    requires { start ≤ vec_len text.old }
    ensures { IfOk result (λ left. IsApplied inputs.now.view.now inputs.now.size (instruction_of instruction.now)
        text.old.items start unused.now text.new.items left) }
{
    if !is_applicable(inputs, instruction, &text[start..], unused) {
        return Ok(None);
    }
    match *instruction {
        Instruction::FromSource { size, offset } => {
            let offset = offset as usize;
            text.extend_from_slice(&inputs.view[offset..offset + size as usize])?;
            Ok(Some(unused))
        }
        Instruction::FromTarget { size, offset } => {
            copy_target(text, start, size as usize, offset as usize)?;
            Ok(Some(unused))
        }
        Instruction::New { size } => {
            let (taken, left) = unused.split_at(size as usize);
            text.extend_from_slice(taken)?;
            Ok(Some(left))
        }
    }
}

/// Appends the target that the instructions make, to their end.
pub(crate) fn make_target(text: &mut Vec<u8>, inputs: &Inputs<'_>) -> Result<(), NotApplied>
    requires { inputs.now.first ≤ length inputs.now.instructions.now }
    ensures target { Appends (target_from inputs.now.view.now inputs.now.size
        (drop inputs.now.first inputs.now.instructions.now) inputs.now.new_data.now) text.old.items text.new.items result }
    ensures place { IfErr result (λ error. NamesPlaceIn inputs.now.instructions.now error) }
{
    let start = text.len();
    let mut unused = inputs.new_data;
    let mut at = inputs.first;
    while at < inputs.instructions.len() {
        let Some(found) = instruction_at(inputs.instructions, at) else {
            return Err(NotApplied::Broken {
                defect: Defect::Instruction,
                place: at,
            });
        };
        let Some(left) = apply_instruction(text, start, inputs, unused, &found.instruction)? else {
            return Err(NotApplied::Broken {
                defect: Defect::Copy,
                place: at,
            });
        };
        unused = left;
        at = found.after;
    }
    if text.len() - start == inputs.size && unused.is_empty() {
        Ok(())
    } else {
        Err(NotApplied::Broken {
            defect: Defect::Target,
            place: at,
        })
    }
}
