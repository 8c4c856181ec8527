use dump_lanes::{Memory, StopWord};
use std::alloc::AllocError;
use std::test::*;

#[test]
fn one_seat_raises_and_the_other_sees(rt: HostRuntime) -> Result<(), Fail> {
    let Ok((word, seat)) = StopWord::new(rt.alloc()) else {
        return Err(AllocError.into());
    };
    let (mut one, mut other) = word.split(seat);
    let down = !word.look(&mut one);
    word.raise(&mut other);
    let seen = word.look(&mut one);
    word.raise(&mut other);
    let mut both = word.join(one, other);
    assert!(rt; down && seen && word.look(&mut both));
    Ok(())
}

/// Run with each allocation failing in turn, under `--fail-alloc 1` to `4`: the error of `new` is `Memory`.
#[test]
fn a_word_or_no_memory(rt: HostRuntime) {
    match StopWord::new(rt.alloc()) {
        Ok((word, mut seat)) => assert!(rt; !word.look(&mut seat)),
        Err(refused) => assert!(rt; refused == Memory),
    }
}
