use dump_lanes::{Memory, Slots};
use std::alloc::{AllocError, Global};
use std::test::*;

/// Whether three items pass through two places.
fn pass_through(slots: &mut Slots<u32>) -> bool {
    let front = slots.place(0, 10) == Ok(()) && slots.place(2, 12) == Err(12);
    let first = slots.place(1, 11) == Ok(()) && slots.lift(0) == Some(10);
    let gone = slots.lift(0).is_none() && slots.place(2, 12) == Ok(());
    front && first && gone && slots.lift(1) == Some(11) && slots.lift(2) == Some(12)
}

#[test]
fn three_items_in_two_places(rt: HostRuntime) -> Result<(), Fail> {
    let Ok(mut slots) = Slots::<u32>::new(rt.alloc(), 2) else {
        return Err(AllocError.into());
    };
    assert!(rt; pass_through(&mut slots));
    Ok(())
}

/// Whether two items with the largest numbers pass through one place.
fn pass_alone(slots: &mut Slots<u32>) -> bool {
    let first = slots.place(u64::MAX, 1) == Ok(()) && slots.place(u64::MAX - 1, 2) == Err(2);
    first && slots.lift(0) == Some(1) && slots.place(u64::MAX - 1, 2) == Ok(())
}

#[test]
fn the_greatest_numbers_and_one_place(rt: HostRuntime) -> Result<(), Fail> {
    let Ok(mut slots) = Slots::<u32>::new(rt.alloc(), 1) else {
        return Err(AllocError.into());
    };
    assert!(rt; pass_alone(&mut slots));
    Ok(())
}

/// Places two items, the second at first where the place is taken; returns whether `place` returned it then.
fn place_two(slots: &mut Slots<String>, alloc: Global) -> Result<bool, Fail> {
    let first = String::from_str(alloc, "first")?;
    let second = String::from_str(alloc, "second")?;
    let placed = slots.place(7, first).is_ok();
    match slots.place(9, second) {
        Err(back) => Ok(placed && back.as_str() == "second" && slots.place(8, back).is_ok()),
        Ok(()) => Ok(false),
    }
}

#[test]
fn items_that_own_memory(rt: HostRuntime) -> Result<(), Fail> {
    let Ok(mut slots) = Slots::<String>::new(rt.alloc(), 2) else {
        return Err(AllocError.into());
    };
    let placed = place_two(&mut slots, rt.alloc())?;
    // The second item is dropped with the row.
    let lifted = match slots.lift(7) {
        Some(text) => text.as_str() == "first",
        None => false,
    };
    assert!(rt; placed && lifted);
    Ok(())
}

/// Run with the only allocation failing, under `--fail-alloc 1`: the error of `new` is `Memory`.
#[test]
fn a_row_or_no_memory(rt: HostRuntime) {
    match Slots::<u32>::new(rt.alloc(), 4096) {
        Ok(mut slots) => {
            let placed = slots.place(5000, 1) == Ok(());
            assert!(rt; placed && slots.lift(5000) == Some(1));
        }
        Err(refused) => assert!(rt; refused == Memory),
    }
}
