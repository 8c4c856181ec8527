//! Bells, on which a port waits while its queue is full or empty.
//!
//! To sleep and to be woken costs more than to pass an item on. So a port that finds nothing tries again after some
//! short delays, and then some more times, between which it yields its turn. Only then it asks to be woken, tries once
//! more, and sleeps. A bell that no port has asked is only read, so busy ports don't slow each other down by it.
//!
//! No port sleeps when it should not. Before a port sleeps, it
//! 1. reads how often the bell rang,
//! 2. adds itself to the number of those that ask,
//! 3. tries its queue once more, and
//! 4. sleeps, unless the bell has rung since 1: the kernel compares the number.
//!
//! A thread that has changed the queue reads how many ask. If any do, it subtracts one, rings, and wakes one. Each of
//! these steps comes completely before or completely after each other one.
//! * If the thread found that none ask, its change came before 2, and 3 finds it.
//! * If it found some, and rang before 1, its change came before 3 too.
//! * If it found some, and rang after 1, the port doesn't sleep, or sleeps already, and one of those that sleep is
//!   woken. A ring subtracts one and wakes one, so no more ports still sleep than still ask.
//!
//! If a port read the rings after it asks, it could sleep although its request was already taken off; hence this
//! order. A port that finds its item at 3, or whose sleep ends by itself, leaves its request behind, which costs one
//! needless ring. One ring wakes one port, and a woken port tries at least once. If that try finds that another port
//! has taken the item, that port was busy. No contract mentions bells: they are no part of what is proved.
use crossbeam_utils::CachePadded;
use std::sync::Wait;
use std::sync::atomic::{AtomicU64, Ordering};
use std::time::Duration;
use std::{hint, thread};

/// How often a port tries again after a delay. Each delay is twice as long as the one before.
const DELAYS: u32 = 5;

/// How often it yields its turn after that: the thread for which it waits may need the core.
const TURNS: u32 = 60;

/// How long a port has already waited for one item or one place.
#[derive(Drop)]
pub struct Patience {
    looks: u32,
    /// If it has asked to be woken, how often the bell had rung before.
    heard: Option<u64>,
}

impl Patience {
    /// Nothing has been waited for yet.
    pub fn new() -> Patience {
        Patience {
            looks: 0,
            heard: None,
        }
    }
}

/// A bell for one side of a queue.
#[derive(Drop)]
pub struct Bell {
    rings: AtomicU64,
    asking: AtomicU64,
}

impl Bell {
    /// A bell that has not rung, in its own cache line.
    fn new() -> CachePadded<Bell> {
        CachePadded::new(Bell {
            rings: AtomicU64::new(0),
            asking: AtomicU64::new(0),
        })
    }

    /// Wakes one of those that ask, after a change of the queue.
    pub fn ring(&self) {
        let asking = self.asking.load(Ordering::SeqCst);
        if asking == 0 {
            return;
        }
        // If the number has changed since, nothing is subtracted: then it is one too high, but never too low.
        let _ = self
            .asking
            .compare_exchange(asking, asking - 1, Ordering::SeqCst, Ordering::SeqCst);
        self.rings.fetch_add(1, Ordering::SeqCst);
        self.rings.wake_one();
    }

    /// Waits a while after a try that failed. `most` is the longest time for a sleep.
    pub fn wait<R: Wait>(&self, rt: &R, patience: &mut Patience, most: Option<Duration>) {
        if patience.looks < DELAYS {
            pause(1 << patience.looks);
            patience.looks += 1;
        } else if patience.looks < DELAYS + TURNS {
            thread::yield_now();
            patience.looks += 1;
        } else if let Some(heard) = patience.heard {
            *patience = Patience::new();
            self.sleep(rt, heard, most);
        } else {
            patience.heard = Some(self.rings.load(Ordering::SeqCst));
            self.asking.fetch_add(1, Ordering::SeqCst);
        }
    }

    /// Sleeps until the bell has rung more often than `heard`, but not longer than `most`.
    fn sleep<R: Wait>(&self, rt: &R, heard: u64, most: Option<Duration>) {
        match most {
            Some(most) => self.rings.park_timeout(rt, low_half(heard), most),
            None => self.rings.park(rt, low_half(heard)),
        }
    }
}

/// The part of the counter that the kernel compares.
fn low_half(word: u64) -> u32 {
    (word % (1 << 32)) as u32
}

/// Pauses the processor this often.
fn pause(times: u32) {
    for _ in 0..times {
        hint::spin_loop();
    }
}

/// The bells of a queue: one rings for each item that is put, and one for each that is taken.
#[derive(Drop)]
pub struct Bells {
    pub puts: CachePadded<Bell>,
    pub takes: CachePadded<Bell>,
}

impl Bells {
    /// Bells that have not rung.
    pub fn new() -> Bells {
        Bells {
            puts: Bell::new(),
            takes: Bell::new(),
        }
    }
}
