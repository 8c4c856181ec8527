//! Many runs with threads, each compared with the same run on one thread.

use super::running::{early_fault, everything, hundred, plan, renumbering};
use super::{DUMP, include_trunk};
use dump_pipeline::{Gate, run, run_plain};
use dump_rules::Options;
use dump_writer::{MemorySink, Trouble};
use std::alloc::Global;
use std::ops::Range;
use std::sync::Wait;
use std::test::Fail;
use std::thread;
use std::thread::Threads;

/// A number that looks random, and is the same in each run of the tests.
fn scatter(seed: u64) -> u64 {
    let mixed = (seed ^ (seed >> 30)).wrapping_mul(0xbf58476d1ce4e5b9);
    let mixed = (mixed ^ (mixed >> 27)).wrapping_mul(0x94d049bb133111eb);
    mixed ^ (mixed >> 31)
}

/// A gate at which each record yields its turn some times.
#[derive(Drop)]
struct Delaying {
    seed: u64,
}

impl Gate for Delaying {
    fn pass(&self, number: u64) {
        for _ in 0..scatter(self.seed ^ number) % 4 {
            thread::yield_now();
        }
    }
}

/// A sink that fails at some byte, or never.
fn sink_of(alloc: Global, seed: u64, len: usize) -> MemorySink {
    let at = scatter(seed) % (len as u64).max(1);
    let trouble = match scatter(seed.wrapping_add(1)) % 3 {
        0 => Trouble::Never,
        1 => Trouble::Once(at),
        _ => Trouble::From(at),
    };
    MemorySink::new(
        alloc,
        1 + (scatter(seed.wrapping_add(2)) % 512) as usize,
        trouble,
    )
}

/// Whether a run with threads gives the answer and the bytes of a run on one thread; the seed chooses the plan and the
/// sinks.
fn is_alike<R: Threads + Wait + Sync>(
    rt: &R,
    alloc: Global,
    dump: &[u8],
    options: &Options,
    seed: u64,
) -> Result<bool, Fail> {
    let most = if seed % 16 == 0 { 64 } else { 6 };
    let workers = 1 + (scatter(seed.wrapping_add(3)) % most) as usize;
    let window = 1 + (scatter(seed.wrapping_add(4)) % 40) as usize;
    let plan = plan(workers, window)?;
    let gate = Delaying { seed };
    let mut plain = sink_of(alloc, seed, dump.len());
    let mut sink = sink_of(alloc, seed, dump.len());
    let wanted = run_plain(alloc, dump, options, &mut plain);
    let answer = run(rt, alloc, dump, options, plan, &gate, &mut sink);
    Ok(answer == wanted && sink.taken() == plain.taken())
}

/// The same for this many seeds.
fn agree<R: Threads + Wait + Sync>(
    rt: &R,
    alloc: Global,
    dump: &[u8],
    options: &Options,
    seeds: Range<u64>,
) -> Result<bool, Fail> {
    for seed in seeds {
        if !is_alike(rt, alloc, dump, options, seed)? {
            return Ok(false);
        }
    }
    Ok(true)
}

/// The same with options that include `trunk`.
fn agree_on_trunk<R: Threads + Wait + Sync>(
    rt: &R,
    alloc: Global,
    dump: &[u8],
    seeds: Range<u64>,
) -> Result<bool, Fail> {
    let options = include_trunk(alloc)?;
    agree(rt, alloc, dump, &options, seeds)
}

/// The same with a hundred revisions that are renumbered.
fn agree_on_hundred<R: Threads + Wait + Sync>(rt: &R, alloc: Global) -> Result<bool, Fail> {
    let dump = hundred(alloc)?;
    let options = renumbering(alloc)?;
    agree(rt, alloc, &dump, &options, 0..60)
}

#[test]
fn clean_dumps_are_filtered_as_on_one_thread(rt: HostRuntime) -> Result<(), Fail> {
    assert!(rt; agree_on_hundred(&rt, rt.alloc())?);
    assert!(rt; agree_on_trunk(&rt, rt.alloc(), DUMP, 1000..2500)?);
    Ok(())
}

/// The same with an early fault.
fn agree_on_early_fault<R: Threads + Wait + Sync>(rt: &R, alloc: Global) -> Result<bool, Fail> {
    let dump = early_fault(alloc)?;
    let options = everything(alloc)?;
    agree(rt, alloc, &dump, &options, 3000..3200)
}

/// The same with a cut header after the dump.
fn agree_on_junk<R: Threads + Wait + Sync>(rt: &R, alloc: Global) -> Result<bool, Fail> {
    let mut dump = Vec::from_slice(alloc, DUMP)?;
    dump.extend_from_slice(b"junk")?;
    agree_on_trunk(rt, alloc, &dump, 5000..6500)
}

#[test]
fn dumps_with_a_fault_are_filtered_as_on_one_thread(rt: HostRuntime) -> Result<(), Fail> {
    assert!(rt; agree_on_early_fault(&rt, rt.alloc())?);
    let cut = DUMP.get(..585).unwrap_or(DUMP);
    assert!(rt; agree_on_trunk(&rt, rt.alloc(), cut, 4000..4200)?);
    assert!(rt; agree_on_junk(&rt, rt.alloc())?);
    Ok(())
}
