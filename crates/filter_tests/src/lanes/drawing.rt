//! A draw that finds no credit reads the stop word before it tries again.
ghost use Rattle.std.specs.Prelude.{◌≡◌};
ghost use Rattle.dump_lanes.specs.steps.PortViews.{job_port};

use dump_lanes::{Drawn, JobPort, Pool, StopSeat, StopWord};
use std::alloc::AllocError;
use std::sync::Wait;
use std::test::*;
use std::thread;
use std::thread::{Threads, join};
use std::time::{Clock, Duration};

/// Draws the only credit, and then tries to draw another one. Returns whether the second call returned the stop.
fn draw_twice<R: Wait>(
    rt: &R,
    mut port: JobPort<u32, u32>,
    word: &StopWord,
    mut seat: StopSeat,
) -> bool
    requires open { (job_port port).marks ≡ 0 }
    requires seat { seat.word ≡ word.now }
{
    match port.draw(rt, word, &mut seat) {
        Drawn::Credit(_) => matches!(port.draw(rt, word, &mut seat), Drawn::Stop),
        Drawn::Stop => false,
    }
}

/// Raises the stop after the other thread has read it many times.
fn raise_later<R: Clock>(rt: &R, word: &StopWord, mut seat: StopSeat)
    requires { seat.word ≡ word.now }
{
    thread::sleep(rt, Duration::from_millis(50));
    word.raise(&mut seat);
}

fn both<R: Threads + Wait + Clock + Sync>(
    rt: &R,
    port: JobPort<u32, u32>,
    word: &StopWord,
    seats: (StopSeat, StopSeat),
) -> bool
    requires open { (job_port port).marks ≡ 0 }
    requires seats { (seats.0.word ≡ word.now) × (seats.1.word ≡ word.now) }
{
    let (one, other) = seats;
    let (told, ()) = join(
        rt,
        move || -> bool
            requires open { (job_port port).marks ≡ 0 }
            requires seat { one.word ≡ word.now }
        { draw_twice(rt, port, word, one) },
        move || -> ()
            requires { other.word ≡ word.now }
        { raise_later(rt, word, other) },
    );
    told
}

#[test]
fn a_draw_that_waits_sees_the_stop(rt: HostRuntime) -> Result<(), Fail> {
    let Ok(mut pool) = Pool::<u32, u32>::new(&rt, rt.alloc(), 1, 1) else {
        return Err(AllocError.into());
    };
    let Ok((word, seat)) = StopWord::new(rt.alloc()) else {
        return Err(AllocError.into());
    };
    let Ok(ports) = pool.ports(rt.alloc()) else {
        return Err(AllocError.into());
    };
    let seats = word.split(seat);
    assert!(rt; both(&rt, ports.cutter, &word, seats));
    Ok(())
}
