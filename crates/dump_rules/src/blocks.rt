//! Looks for contradictions in range lists of any order, block by block. Only ranges of different kinds contradict
//! each other. So a block holds up to some thousands of ranges of one kind, sorted, and each range of the other kind
//! is looked up in it. A list of n ranges is read at most n / (2 * BLOCK_SIZE) times and once more. A block is on the
//! stack; nothing is allocated.
ghost use Rattle.std.specs.Prelude.{◌≡◌, ℕ, ◌+◌, ◌≤◌, ◌∷◌, IfSome, length, option_copied};
ghost use Rattle.std.specs.List.{list_any};
ghost use Rattle.std.specs.List.Sorted.{IsNonDecreasingBy};
ghost use Rattle.dump_rules.specs.steps.Blocks.{IsFilled, block_contradicts, meets, parts_agree, parts_left, raised_ends};
ghost use Rattle.dump_rules.specs.steps.ReadRanges.{range_of, range_parts};

use crate::ranges::range;
use dump_text::find;

/// The number of ranges in a block: 64 KiB of the stack.
const BLOCK_SIZE: usize = 4096;

/// The ends of a range whose kind the caller knows.
#[derive(Clone, Copy)]
struct Ends {
    from: u64,
    to: u64,
}

/// The entry of a block before a range is read into it.
const NO_ENDS: Ends = Ends { from: 0, to: 0 };

/// The first part of a list, and the rest after its comma, if it has one.
fn first_part(list: &[u8]) -> (&[u8], Option<&[u8]>)
    ensures parts { range_parts list.now ≡ result.0.now ∷ parts_left (option_copied result.1) }
    ensures shorter { IfSome result.1 (λ rest. length rest.now + 1 ≤ length list.now) }
{
    match find(b',', list) {
        Some(comma) => (&list[..comma], Some(&list[comma + 1..])),
        None => (list, None),
    }
}

/// Reads ranges from the front of a list, and stores those of one kind in the block until it is full. Returns how many
/// it stored and the rest of the list, or `None` if a part isn't a range.
fn fill<'a>(
    block: &mut [Ends; BLOCK_SIZE],
    inheritable: bool,
    list: &'a [u8],
) -> Option<(usize, Option<&'a [u8]>)>
    ensures filled { IsFilled inheritable list.now result block.new }
{
    let mut rest = list;
    let mut place = 0;
    'places: while place < BLOCK_SIZE {
        let (part, behind) = first_part(rest);
        let Some(span) = range(part) else {
            return None;
        };
        if inheritable == span.inheritable {
            block[place] = Ends {
                from: span.from,
                to: span.to,
            };
            place += 1;
        }
        let Some(more) = behind else {
            return Some((place, None));
        };
        rest = more;
    }
    Some((place, Some(rest)))
}

/// Raises each upper end to the highest before it.
fn raise(block: &mut [Ends])
    ensures { block.new ≡ raised_ends 0 block.old }
{
    let mut highest = 0;
    for ends in block.iter_mut() {
        highest = ends.to.max(highest);
        ends.to = highest;
    }
}

/// Reorders and widens the ranges so that they can be searched. A range meets one of the new ones exactly if it meets
/// one of the old ones.
fn arrange(block: &mut [Ends])
    ensures from_rises { IsNonDecreasingBy (λ ends. ends.from) block.new }
    ensures to_rises { IsNonDecreasingBy (λ ends. ends.to) block.new }
    ensures same { (from to : ℕ) → list_any (meets from to) block.new ≡ list_any (meets from to) block.old }
{
    block.sort_unstable_by_key(|ends| ends.from);
    raise(block);
}

/// Whether one of the ranges has a number in common with the range from `from` to `to`. Of the ranges that begin at or
/// before `to`, the last one ends last, so it alone is compared.
fn some_meets(block: &[Ends], from: u64, to: u64) -> bool
    requires from_rises { IsNonDecreasingBy (λ ends. ends.from) block.now }
    requires to_rises { IsNonDecreasingBy (λ ends. ends.to) block.now }
    ensures { result ≡ list_any (meets from to) block.now }
{
    let begun = block.partition_point(|ends| ends.from <= to);
    begun > 0 && from <= block[begun - 1].to
}

/// Whether the part is a range that contradicts one of the block's ranges, which are of this kind.
fn part_contradicts_some(block: &[Ends], inheritable: bool, part: &[u8]) -> bool
    requires from_rises { IsNonDecreasingBy (λ ends. ends.from) block.now }
    requires to_rises { IsNonDecreasingBy (λ ends. ends.to) block.now }
    ensures { result ≡ block_contradicts inheritable block.now (range_of part.now) }
{
    match range(part) {
        Some(other) => {
            inheritable != other.inheritable && some_meets(block, other.from, other.to)
        }
        None => false,
    }
}

/// Whether a part of the list is a range that contradicts one of the block's ranges, which are of this kind.
fn list_contradicts_some(block: &[Ends], inheritable: bool, list: &[u8]) -> bool
    requires from_rises { IsNonDecreasingBy (λ ends. ends.from) block.now }
    requires to_rises { IsNonDecreasingBy (λ ends. ends.to) block.now }
    ensures { result ≡ list_any
        (λ part. block_contradicts inheritable block.now (range_of part)) (range_parts list.now) }
{
    list.split(|b| *b == b',')
        .any(|part| part_contradicts_some(block, inheritable, part))
}

/// The same, if the block isn't sorted yet.
fn arranged_contradicts_some(block: &mut [Ends], inheritable: bool, list: &[u8]) -> bool
    ensures { result ≡ list_any
        (λ part. block_contradicts inheritable block.old (range_of part)) (range_parts list.now) }
{
    arrange(block);
    list_contradicts_some(block, inheritable, list)
}

/// Whether the list has fewer parts without a star than with one.
fn lacks_few_stars(list: &[u8]) -> bool {
    let stars = list.iter().filter(|b| **b == b'*').count();
    let commas = list.iter().filter(|b| **b == b',').count();
    stars > commas / 2
}

/// Whether all parts of the list are ranges and no two of them contradict each other, in any order.
pub(crate) fn each_part_agrees(list: &[u8]) -> bool
    ensures { result ≡ parts_agree (range_parts list.now) (range_parts list.now) }
{
    let inheritable = lacks_few_stars(list);
    let mut block = [NO_ENDS; BLOCK_SIZE];
    let mut rest = Some(list);
    while let Some(parts) = rest {
        let Some((count, behind)) = fill(&mut block, inheritable, parts) else {
            return false;
        };
        if arranged_contradicts_some(&mut block[..count], inheritable, list) {
            return false;
        }
        rest = behind;
    }
    true
}
