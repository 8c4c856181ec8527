//! A row of places for items that arrive out of order.
//!
//! 1. There are as many places as the window is wide. The place of a number is its remainder modulo the window.
//! 2. Numbers less than a window apart have different places, so there is room for all items of one window.
//! 3. If the place of an item is taken, the caller gets the item back: nothing in the row is overwritten.
//! 4. A lift returns what is in the place of its number, and frees the place.
ghost use Rattle.std.specs.Prelude.{◌≡◌, ◌<◌, ◌≤◌, ◌↔◌, ◌%◌, Some, None, length, replicate, IsOk, IsNone, IfSome, IfOk, IfErr, OnOk, OnErr};
ghost use Rattle.dump_lanes.specs.declared.limits.TheConstants.{MOST_WINDOW};
ghost use Rattle.dump_lanes.specs.steps.SlotRow.{slot_item, with_slot_item};

use crate::ends::Memory;
use std::alloc::Global;

/// A row of places; numbers with the same remainder share a place.
///
/// ```text
/// slots.place(0, 10);     // Ok(()), in a row of two places
/// slots.place(2, 12);     // Err(12): 0 and 2 share a place
/// slots.place(1, 11);     // Ok(())
/// slots.lift(0);          // Some(10)
/// slots.place(2, 12);     // Ok(())
/// ```
///
/// `place` and `lift` allocate and free nothing.
#[derive(Drop)]
pub struct Slots<T> {
    places: Vec<Option<T>>,
    ghost some_places: { 0 < length places.items },
}

impl<T: Drop> Slots<T> {
    ghost use Rattle.dump_lanes.specs.steps.SlotViews.{slot_places};

    /// Makes the row, and allocates all the memory that it needs.
    pub fn new(alloc: Global, window: usize) -> Result<Slots<T>, Memory>
        requires some { 1 ≤ window }
        requires most { window ≤ MOST_WINDOW }
        ensures { IfOk result (λ slots. slot_places slots ≡ replicate window None) }
    {
        let places = empty_places(alloc, window)?;
        Ok(Slots { places })
    }

    /// Puts an item in the place of its number. If the place is taken, the error is the item.
    pub fn place(&mut self, number: u64, value: T) -> Result<(), T>
        ensures free { IsOk result ↔ IsNone (slot_item (slot_places self.old) number) }
        ensures placed { OnOk result
            (slot_places self.new ≡ with_slot_item (slot_places self.old) number (Some value)) }
        ensures back { IfErr result (λ v. v ≡ value) }
        ensures unchanged { OnErr result (slot_places self.new ≡ slot_places self.old) }
    {
        let index = place_of(number, self.places.len());
        if self.places[index].is_some() {
            return Err(value);
        }
        self.places[index] = Some(value);
        Ok(())
    }

    /// Takes what is in the place of a number.
    pub fn lift(&mut self, number: u64) -> Option<T>
        ensures value { result ≡ slot_item (slot_places self.old) number }
        ensures emptied { slot_places self.new ≡ with_slot_item (slot_places self.old) number None }
    {
        let index = place_of(number, self.places.len());
        if self.places[index].is_none() {
            return None;
        }
        self.places[index].take()
    }
}

/// The place of a number in a row with this many places.
fn place_of(number: u64, window: usize) -> usize
    requires { 0 < window }
    ensures place { result ≡ number % window }
    ensures within { result < window }
{
    (number % window as u64) as usize
}

/// A row of empty places, unless the allocation fails.
fn empty_places<T: Drop>(alloc: Global, window: usize) -> Result<Vec<Option<T>>, Memory>
    ensures { IfOk result (λ places. places.items ≡ replicate window None) }
{
    let mut places = Vec::<Option<T>>::with_capacity(alloc, window)?;
    for _ in 0..window {
        places.push(None)?;
    }
    Ok(places)
}
