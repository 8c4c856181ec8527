//! One item through a pool of one worker, and allocations that fail.
ghost use Rattle.std.specs.Prelude.{◌≡◌, All, map, true, false, IfSome};
ghost use Rattle.dump_lanes.specs.steps.PortSides.{AreWorkersOf, IsDone};
ghost use Rattle.dump_lanes.specs.steps.PortViews.{job_port, worker_port, worker_ports, done_port, credit_port};

use dump_lanes::{Drawn, Memory, Pool, Ports, StopSeat, StopWord, WorkerPort};
use std::alloc::{AllocError, Global};
use std::sync::Wait;
use std::test::*;

/// Takes 7, gives 8, and ends.
fn answer<R: Wait>(rt: &R, mut port: WorkerPort<u32, u32>) -> Option<WorkerPort<u32, u32>>
    requires { (worker_port port).closed ≡ false }
    ensures pool { IfSome result (λ p. (worker_port p).pool ≡ (worker_port port).pool) }
    ensures index { IfSome result (λ p. (worker_port p).index ≡ (worker_port port).index) }
    ensures done { IfSome result (λ p. IsDone (worker_port p)) }
{
    if port.take(rt) != Some(7) {
        return None;
    }
    port.give(rt, 8);
    if port.take(rt).is_some() {
        return None;
    }
    port.close(rt);
    Some(port)
}

fn answer_all<R: Wait>(
    rt: &R,
    alloc: Global,
    ports: Vec<WorkerPort<u32, u32>>,
) -> Option<Vec<WorkerPort<u32, u32>>>
    requires { All (λ p. (worker_port p).closed ≡ false) ports.items }
    ensures pool { IfSome result (λ v. map (λ p. (worker_port p).pool) v.items ≡ map (λ p. (worker_port p).pool) ports.items) }
    ensures index { IfSome result (λ v. map (λ p. (worker_port p).index) v.items ≡ map (λ p. (worker_port p).index) ports.items) }
    ensures done { IfSome result (λ v. All (λ p. IsDone (worker_port p)) v.items) }
{
    let mut all = Vec::new(alloc);
    for port in ports {
        all.push(answer(rt, port)?).ok()?;
    }
    Some(all)
}

fn pass_one<R: Wait>(
    rt: &R,
    alloc: Global,
    ports: Ports<u32, u32>,
    word: &StopWord,
    mut seat: StopSeat,
) -> Option<bool>
    requires open { (job_port ports.cutter).marks ≡ 0 }
    requires seat { seat.word ≡ word.now }
    requires sequencer { (done_port ports.sequencer).pool ≡ (job_port ports.cutter).pool }
    requires writer { (credit_port ports.writer).pool ≡ (job_port ports.cutter).pool }
    requires workers { AreWorkersOf (job_port ports.cutter).pool (job_port ports.cutter).workers (worker_ports ports) }
    requires fresh { All (λ p. (worker_port p).closed ≡ false) ports.workers.items }
{
    let Ports {
        mut cutter,
        workers,
        mut sequencer,
        mut writer,
    } = ports;
    let Drawn::Credit(credit) = cutter.draw(rt, word, &mut seat) else {
        return None;
    };
    cutter.put(rt, 7);
    cutter.close(rt);
    let workers = answer_all(rt, alloc, workers)?;
    let first = sequencer.take(rt);
    writer.back(rt, credit);
    if sequencer.take(rt).is_some() {
        return None;
    }
    let ports = Ports {
        cutter,
        workers,
        sequencer,
        writer,
    };
    ports.settle();
    Some(first == Some(8))
}

#[test]
fn one_item_through_a_pool(rt: HostRuntime) -> Result<(), Fail> {
    let Ok(mut pool) = Pool::<u32, u32>::new(&rt, rt.alloc(), 1, 2) else {
        return Err(AllocError.into());
    };
    let Ok((word, seat)) = StopWord::new(rt.alloc()) else {
        return Err(AllocError.into());
    };
    let Ok(ports) = pool.ports(rt.alloc()) else {
        return Err(AllocError.into());
    };
    assert!(rt; pass_one(&rt, rt.alloc(), ports, &word, seat) == Some(true));
    Ok(())
}

/// Run with each allocation failing in turn, under `--fail-alloc 1` to `32`: the error of `new` is `Memory`, or that
/// of `ports` is, and a second call of `ports` then returns the ports.
#[test]
fn a_pool_or_no_memory(rt: HostRuntime) {
    let answered = match Pool::<u32, u32>::new(&rt, rt.alloc(), 2, 4) {
        Ok(mut pool) => match pool.ports(rt.alloc()) {
            Ok(_) => true,
            Err(refused) => refused == Memory && pool.ports(rt.alloc()).is_ok(),
        },
        Err(refused) => refused == Memory,
    };
    assert!(rt; answered);
}
