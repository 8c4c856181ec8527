//! How a port waits while a queue is full or empty.
ghost use Rattle.crossbeam_queue.specs.Fifo.{Pushes, Pops, Learns};
ghost use Rattle.crossbeam_queue.specs.Passes.{view, IsSamePass, IsPassOf, ruled_capacity};

use super::bell::{Bells, Patience};
use crossbeam_queue::protocol::{Lesson, Outcome, Protocol};
use crossbeam_queue::{Pass, RuledArrayQueue};
use std::sync::Wait;

/// Puts an item at the back, as soon as there is a place.
pub fn push<M: Outcome<T, V> + Lesson<T, V>, T, V, P: Protocol<T, V>, R: Wait>(
    rt: &R,
    queue: &RuledArrayQueue<T, V, P>,
    bells: &Bells,
    pass: &mut Pass<T, V>,
    item: T,
)
    requires queue { IsPassOf queue.now pass.old }
    requires rule { Pushes P.holds (ruled_capacity queue.now) pass.old.id (view pass.old) item (M.then (view pass.old) item) }
    requires lesson { Learns P.holds pass.old.id (view pass.old) (M.fact (view pass.old)) }
    ensures queue { IsSamePass pass.old pass.new }
    ensures rule { M.then (view pass.old) item (view pass.new) }
{
    let mut waiting = item;
    let mut patience = Patience::new();
    for _ in rt.forever() {
        match queue.push_as::<M, R>(rt, pass, waiting) {
            Ok(()) => {
                bells.puts.ring();
                return;
            }
            Err(back) => {
                waiting = back;
                bells.takes.wait(rt, &mut patience, None);
            }
        }
    }
    unreachable!()
}

/// Takes the item at the front, as soon as there is one.
pub fn pop<M: Outcome<T, V> + Lesson<T, V>, T, V, P: Protocol<T, V>, R: Wait>(
    rt: &R,
    queue: &RuledArrayQueue<T, V, P>,
    bells: &Bells,
    pass: &mut Pass<T, V>,
) -> T
    requires queue { IsPassOf queue.now pass.old }
    requires rule { Pops P.holds pass.old.id (view pass.old) (M.then (view pass.old)) }
    requires lesson { Learns P.holds pass.old.id (view pass.old) (M.fact (view pass.old)) }
    ensures queue { IsSamePass pass.old pass.new }
    ensures rule { M.then (view pass.old) result (view pass.new) }
{
    let mut patience = Patience::new();
    for _ in rt.forever() {
        match queue.pop_as::<M, R>(rt, pass) {
            Some(item) => {
                bells.takes.ring();
                return item;
            }
            None => bells.puts.wait(rt, &mut patience, None),
        }
    }
    unreachable!()
}
