ghost use Rattle.std.specs.Prelude.{◌≡◌};
ghost use Rattle.dump_lanes.specs.steps.LaneViews.{sending, sent, receiving};

mod drawing;
mod pooling;
mod slots;
mod stopping;

use dump_lanes::{LaneIn, LaneOut, Memory, Sent, Taken, lane};
use std::alloc::{AllocError, Global};
use std::sync::Wait;
use std::test::*;
use std::thread::{Threads, join};

#[test]
fn two_items_and_the_end(rt: HostRuntime) -> Result<(), Fail> {
    let Ok((mut input, mut output)) = lane::<u32>(rt.alloc(), 2) else {
        return Err(AllocError.into());
    };
    let put_one = input.put(&rt, 1).is_ok();
    let put_two = input.put(&rt, 2).is_ok();
    let sent = input.close(&rt);
    let one = output.take(&rt) == Taken::Item(1);
    let two = output.take(&rt) == Taken::Item(2);
    let closed = output.take(&rt) == Taken::Closed;
    let again = output.take(&rt) == Taken::Closed;
    output.settle(sent);
    assert!(rt; put_one && put_two && one && two && closed && again);
    Ok(())
}

#[test]
fn the_input_is_dropped(rt: HostRuntime) -> Result<(), Fail> {
    let Ok((mut input, mut output)) = lane::<u32>(rt.alloc(), 2) else {
        return Err(AllocError.into());
    };
    let put = input.put(&rt, 1).is_ok();
    drop(input);
    let taken = output.take(&rt) == Taken::Item(1);
    let lost = output.take(&rt) == Taken::Lost && output.take(&rt) == Taken::Lost;
    assert!(rt; put && taken && lost);
    Ok(())
}

#[test]
fn the_output_is_dropped(rt: HostRuntime) -> Result<(), Fail> {
    let Ok((mut input, output)) = lane::<u32>(rt.alloc(), 2) else {
        return Err(AllocError.into());
    };
    drop(output);
    assert!(rt; input.put(&rt, 1) == Err(1));
    Ok(())
}

/// Run with each allocation failing in turn, under `--fail-alloc 1` to `8`: the error of `lane` is `Memory`.
#[test]
fn a_lane_or_no_memory(rt: HostRuntime) {
    match lane::<u32>(rt.alloc(), 4096) {
        Ok((mut input, mut output)) => {
            let put = input.put(&rt, 1) == Ok(());
            assert!(rt; put && output.take(&rt) == Taken::Item(1));
        }
        Err(refused) => assert!(rt; refused == Memory),
    }
}

/// Puts two items, and returns whether the lane took both.
fn put_two<R: Wait>(rt: &R, alloc: Global, input: &mut LaneIn<String>) -> Result<bool, Fail> {
    let first = String::from_str(alloc, "first")?;
    let second = String::from_str(alloc, "second")?;
    Ok(input.put(rt, first).is_ok() && input.put(rt, second).is_ok())
}

fn is_next<R: Wait>(rt: &R, output: &mut LaneOut<String>, wanted: &str) -> bool {
    match output.take(rt) {
        Taken::Item(text) => text.as_str() == wanted,
        _ => false,
    }
}

/// Whether a put returns its item.
fn is_refused<R: Wait>(rt: &R, alloc: Global, input: &mut LaneIn<String>) -> Result<bool, Fail> {
    let third = String::from_str(alloc, "third")?;
    match input.put(rt, third) {
        Err(back) => Ok(back.as_str() == "third"),
        Ok(()) => Ok(false),
    }
}

#[test]
fn items_that_own_memory(rt: HostRuntime) -> Result<(), Fail> {
    let Ok((mut input, mut output)) = lane::<String>(rt.alloc(), 2) else {
        return Err(AllocError.into());
    };
    let put = put_two(&rt, rt.alloc(), &mut input)?;
    let first = is_next(&rt, &mut output, "first");
    // The second item is dropped with the lane.
    drop(output);
    let refused = is_refused(&rt, rt.alloc(), &mut input)?;
    assert!(rt; put && first && refused);
    Ok(())
}

fn put_all<R: Wait>(rt: &R, mut input: LaneIn<u32>) -> Sent<u32>
    ensures { (sent result).lane ≡ (sending input).lane }
{
    for number in 0..1000u32 {
        let _ = input.put(rt, number);
    }
    input.close(rt)
}

fn take_all<R: Wait>(rt: &R, mut output: LaneOut<u32>) -> (LaneOut<u32>, bool)
    ensures { (receiving result.0).lane ≡ (receiving output).lane }
{
    let mut right = true;
    for number in 0..1000u32 {
        right = right && output.take(rt) == Taken::Item(number);
    }
    right = right && output.take(rt) == Taken::Closed;
    right = right && output.take(rt) == Taken::Closed;
    (output, right)
}

fn through<R: Threads + Wait + Sync>(rt: &R, input: LaneIn<u32>, output: LaneOut<u32>) -> bool
    requires { (receiving output).lane ≡ (sending input).lane }
{
    let (sent, (output, right)) = join(
        rt,
        move || -> Sent<u32>
            ensures { (sent result).lane ≡ (sending input).lane }
        { put_all(rt, input) },
        move || -> (LaneOut<u32>, bool)
            ensures { (receiving result.0).lane ≡ (receiving output).lane }
        { take_all(rt, output) },
    );
    output.settle(sent);
    right
}

#[test]
fn a_thousand_in_order(rt: HostRuntime) -> Result<(), Fail> {
    let Ok((input, output)) = lane::<u32>(rt.alloc(), 1) else {
        return Err(AllocError.into());
    };
    assert!(rt; through(&rt, input, output));
    Ok(())
}
