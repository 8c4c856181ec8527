//! What threads share: lanes, a pool of queues, a row of slots, and a stop flag.
//!
//! # Lanes
//!
//! A lane carries items from one thread to another, in order, up to an end mark. `lane` makes its two
//! ends. The sending end puts items and is then closed; the receiving end takes them. When both ends are
//! back in one thread, `settle` drops them. Its contract says that what was taken is a prefix of what
//! was put. It is all of that if the receiving end has found the lane closed.
//!
//! ```
//! let Ok((mut input, mut output)) = lane::<u32>(rt.alloc(), 2) else {
//!     return Err(AllocError.into());
//! };
//! let put_one = input.put(&rt, 1).is_ok();
//! let put_two = input.put(&rt, 2).is_ok();
//! let sent = input.close(&rt);
//! let one = output.take(&rt) == Taken::Item(1);
//! let two = output.take(&rt) == Taken::Item(2);
//! let closed = output.take(&rt) == Taken::Closed;
//! let again = output.take(&rt) == Taken::Closed;
//! output.settle(sent);
//! assert!(rt; put_one && put_two && one && two && closed && again);
//! ```
//!
//! `lanes::two_items_and_the_end` of `filter_tests` runs this.
//!
//! # The pool
//!
//! A `Pool` has a queue of jobs from one cutter to many workers, a queue of dones from the workers to
//! one sequencer, and a queue of credits from one writer back to the cutter. `ports` returns a port for
//! each of them. The cutter draws a credit before each item, and the writer gives the credit back when
//! the item is finished: if callers do so, no more items are under way than there are credits. The
//! cutter closes its port, then each worker closes its own, and the sequencer finds out when all have.
//! When all ports are back in one thread, the contract of `settle` says that each job was taken as often
//! as it was put, and each done as often as it was given. It says too that no more credits were drawn
//! than there were at first and came back.
//!
//! ```
//! let Drawn::Credit(credit) = cutter.draw(rt, word, &mut seat) else {
//!     return None;
//! };
//! cutter.put(rt, 7);
//! cutter.close(rt);
//! // ..
//! let first = sequencer.take(rt);
//! writer.back(rt, credit);
//! if sequencer.take(rt).is_some() {
//!     return None;
//! }
//! let ports = Ports {
//!     cutter,
//!     workers,
//!     sequencer,
//!     writer,
//! };
//! ports.settle();
//! Some(first == Some(8))
//! ```
//!
//! `lanes::pooling::pass_one` of `filter_tests` runs this for `lanes::pooling::one_item_through_a_pool`.
//! In place of `// ..` each worker does this:
//!
//! ```
//! if port.take(rt) != Some(7) {
//!     return None;
//! }
//! port.give(rt, 8);
//! if port.take(rt).is_some() {
//!     return None;
//! }
//! port.close(rt);
//! ```
//!
//! `lanes::pooling::answer` of `filter_tests` runs this.
//!
//! # The stop flag
//!
//! Threads raise and read a `StopWord` from seats, one for each thread. A seat that raised the flag, or
//! saw it raised, sees it raised from then on. If seats are joined, and one seat holds the whole flag,
//! its contract says that it saw the flag raised only if a seat raised it. None of these calls waits.
//!
//! ```
//! let (mut one, mut other) = word.split(seat);
//! let down = !word.look(&mut one);
//! word.raise(&mut other);
//! let seen = word.look(&mut one);
//! word.raise(&mut other);
//! let mut both = word.join(one, other);
//! assert!(rt; down && seen && word.look(&mut both));
//! ```
//!
//! `lanes::stopping::one_seat_raises_and_the_other_sees` of `filter_tests` runs this.
//!
//! # Slots
//!
//! `Slots` is a row of places for items with rising numbers. The place of an item is its number modulo
//! the length of the row. If the place is taken, `place` returns the item.
//!
//! ```
//! let front = slots.place(0, 10) == Ok(()) && slots.place(2, 12) == Err(12);
//! let first = slots.place(1, 11) == Ok(()) && slots.lift(0) == Some(10);
//! let gone = slots.lift(0).is_none() && slots.place(2, 12) == Ok(());
//! front && first && gone && slots.lift(1) == Some(11) && slots.lift(2) == Some(12)
//! ```
//!
//! `lanes::slots::pass_through` of `filter_tests` runs this with a row of two places.
//!
//! # The laws of the pool
//!
//! [`laws`] describes the events of the pool, without threads or queues. Whatever happens, each item is
//! in one place, in order, and no two share a slot. Each event is a step that the rules of the queues,
//! of the lane and of the stop flag allow: one entry is put or taken, by the thread that makes the step.
//!
//! # What is not promised
//!
//! No contract says that a waiting call returns: not a put, a close, a take or a draw. None says when it
//! returns, which worker takes what, or that a thread ever sees a stop. No contract says when a put on a
//! lane returns its item, when a close finds that the receiver is gone, or when a take returns `Lost`;
//! the contracts only say what the ends have then put and taken. Items that are left when all ends or
//! ports are dropped are dropped too.
#![tactic(auto)]

mod ends;
pub mod laws;
mod limits;
mod passes;
mod pool;
mod protocol;
mod slots;
mod steps;
mod stop;

pub use ends::{LaneIn, LaneOut, Memory, Sent, Taken, lane};
pub use limits::{MOST_WINDOW, MOST_WORKERS};
pub use pool::{Credit, CreditPort, DonePort, Drawn, JobPort, Pool, Ports, WorkerPort};
pub use slots::Slots;
pub use stop::{StopSeat, StopWord};
