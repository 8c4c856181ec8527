//! Gates and a sink for runs with threads.
ghost use Rattle.std.specs.Prelude.{Some};

use dump_pipeline::Gate;
use dump_writer::{MemorySink, Sink, SinkDown};
use std::sync::atomic::{AtomicU64, Ordering};
use std::thread;

/// For how many turns a gate holds a record at most.
const TURNS: u64 = 10_000_000;

/// A gate that stores which records pass, and holds one of them until others have passed. It distinguishes numbers
/// below 64.
#[derive(Drop)]
pub struct Holding {
    /// The number of the record that is held.
    held: u64,
    /// The records for which it waits, one bit each.
    until: u64,
    /// For how many more turns it is held then.
    more: u64,
    passed: AtomicU64,
    /// The records that had passed when the held one passed.
    before: AtomicU64,
    late: AtomicU64,
}

impl Holding {
    pub fn new(held: u64, until: u64, more: u64) -> Holding {
        Holding {
            held,
            until,
            more,
            passed: AtomicU64::new(0),
            before: AtomicU64::new(0),
            late: AtomicU64::new(0),
        }
    }

    /// The records that have passed, one bit each.
    pub fn passed(&self) -> u64 {
        self.passed.load(Ordering::SeqCst)
    }

    /// The records that had passed before the held one.
    pub fn before(&self) -> u64 {
        self.before.load(Ordering::SeqCst)
    }

    /// Whether the gate stopped waiting because the turns ran out.
    pub fn is_late(&self) -> bool {
        self.late.load(Ordering::SeqCst) > 0
    }

    fn hold(&self) {
        for _ in 0..TURNS {
            if self.passed() & self.until == self.until {
                return;
            }
            thread::yield_now();
        }
        self.late.store(1, Ordering::SeqCst);
    }
}

impl Gate for Holding {
    fn pass(&self, number: u64) {
        if number == self.held {
            self.hold();
            for _ in 0..self.more {
                thread::yield_now();
            }
            self.before.store(self.passed(), Ordering::SeqCst);
        }
        self.passed.fetch_or(1 << (number % 64), Ordering::SeqCst);
    }
}

/// A gate that counts how often each of the first 256 records passes.
#[derive(Drop)]
pub struct Counting {
    // One bit for each record, 64 in a word.
    first: AtomicU64,
    second: AtomicU64,
    third: AtomicU64,
    fourth: AtomicU64,
    again: AtomicU64,
}

impl Counting {
    pub fn new() -> Counting {
        Counting {
            first: AtomicU64::new(0),
            second: AtomicU64::new(0),
            third: AtomicU64::new(0),
            fourth: AtomicU64::new(0),
            again: AtomicU64::new(0),
        }
    }

    /// The records that have passed, one bit each, 64 in a word.
    pub fn words(&self) -> [u64; 4] {
        [
            self.first.load(Ordering::SeqCst),
            self.second.load(Ordering::SeqCst),
            self.third.load(Ordering::SeqCst),
            self.fourth.load(Ordering::SeqCst),
        ]
    }

    /// How many passed again, or have a larger number.
    pub fn others(&self) -> u64 {
        self.again.load(Ordering::SeqCst)
    }
}

impl Gate for Counting {
    fn pass(&self, number: u64) {
        let bit = 1 << (number % 64);
        let old = match number / 64 {
            0 => self.first.fetch_or(bit, Ordering::SeqCst),
            1 => self.second.fetch_or(bit, Ordering::SeqCst),
            2 => self.third.fetch_or(bit, Ordering::SeqCst),
            3 => self.fourth.fetch_or(bit, Ordering::SeqCst),
            _ => bit,
        };
        if old & bit > 0 {
            self.again.fetch_add(1, Ordering::SeqCst);
        }
    }
}

/// A sink that lets another thread read how many bytes it took.
#[derive(Drop)]
pub struct Telling<'c> {
    pub sink: MemorySink,
    pub count: &'c AtomicU64,
}

impl<'c> Sink for Telling<'c> {
    ghost taken = { λ s. Some s.sink.taken };

    ghost failure_count = { λ s. s.sink.failures };

    fn accept(&mut self, bytes: &[u8]) -> Result<usize, SinkDown> {
        let count = self.sink.accept(bytes)?;
        self.count.fetch_add(count as u64, Ordering::SeqCst);
        Ok(count)
    }

    fn failures(&self) -> u64 {
        self.sink.failures()
    }
}

/// A gate that stores how many bytes were taken when record 0 passes, and holds the last record until the first piece
/// was taken.
#[derive(Drop)]
pub struct Watching<'c> {
    pub count: &'c AtomicU64,
    pub last: u64,
    pub at_first: AtomicU64,
    pub late: AtomicU64,
}

impl<'c> Gate for Watching<'c> {
    fn pass(&self, number: u64) {
        if number == 0 {
            self.at_first.store(
                self.count.load(Ordering::SeqCst).saturating_add(1),
                Ordering::SeqCst,
            );
        }
        if number == self.last {
            for _ in 0..TURNS {
                if self.count.load(Ordering::SeqCst) >= 31 {
                    return;
                }
                thread::yield_now();
            }
            self.late.store(1, Ordering::SeqCst);
        }
    }
}
