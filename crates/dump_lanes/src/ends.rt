//! The two ends of a lane.
ghost use Rattle.std.specs.Prelude.{◌≡◌, [], ◌∷◌, ◌++◌, IfErr, OnOk, OnErr};
ghost use Rattle.std.specs.Result.{is_ok};
ghost use Rattle.crossbeam_channel.specs.Claims.{IsSeatAt, view};
ghost use Rattle.crossbeam_channel.specs.Ends.{sends_on, receives_on};
ghost use Rattle.dump_lanes.specs.steps.LaneMarks.{IsPutting, IsTaking, mark_if, mark_of};

use crate::passes::{Roles, View};
use crate::protocol::{InOrder, Mark, Puts, Total};
use crossbeam_channel::{Pass, RuledReceiver, RuledSender};
use std::sync::Wait;

mod closing;
mod pair;
mod receiving;

use closing::{Unheard, put_end};
pub use pair::{Memory, lane};
use receiving::receive;

/// The sending end of a lane.
#[derive(Drop)]
pub struct LaneIn<T: Drop> {
    sender: RuledSender<Mark<T>, View<Mark<T>>, InOrder>,
    pass: Pass<Mark<T>, View<Mark<T>>>,
    ghost seated: { IsSeatAt (sends_on sender) pass },
    ghost puts: { IsPutting [] (view pass) },
}

/// A closed sending end. It holds the record of what was put, for `LaneOut::settle`.
#[derive(Drop)]
pub struct Sent<T: Drop> {
    sender: RuledSender<Mark<T>, View<Mark<T>>, InOrder>,
    pass: Pass<Mark<T>, View<Mark<T>>>,
    marked: Result<(), Unheard>,
    ghost seated: { IsSeatAt (sends_on sender) pass },
    ghost puts: { IsPutting (mark_if (is_ok marked)) (view pass) },
}

/// The receiving end of a lane.
#[derive(Drop)]
pub struct LaneOut<T: Drop> {
    receiver: RuledReceiver<Mark<T>, View<Mark<T>>, InOrder>,
    pass: Pass<Mark<T>, View<Mark<T>>>,
    told: Told,
    ghost seated: { IsSeatAt (receives_on receiver) pass },
    ghost takes: { IsTaking (mark_of told) (view pass) },
}

/// The result of a take.
#[derive(Debug, PartialEq, Eq, Drop)]
pub enum Taken<T> {
    Item(T),

    /// The lane was closed, and every item was taken.
    Closed,

    /// The sending end was dropped without a close.
    Lost,
}

/// What the receiving end has found so far.
#[derive(Clone, Copy)]
enum Told {
    MayCome,
    Ended,
    SenderGone,
}

impl<T: Drop> LaneIn<T> {
    ghost use Rattle.dump_lanes.specs.steps.LaneViews.{sending, sent};

    /// Puts an item at the back; waits while there is no place for it. The error holds an item that was not put. Once
    /// the receiving end is dropped, each put returns its item.
    pub fn put<R: Wait>(&mut self, rt: &R, value: T) -> Result<(), T>
        ensures ok { OnOk result
            (sending self.new ≡ record (sending self.old) { put = (sending self.old).put ++ value ∷ [] }) }
        ensures back { IfErr result (λ v. v ≡ value) }
        ensures err { OnErr result (sending self.new ≡ sending self.old) }
    {
        let mark = Mark::Item(value);
        match self.sender.send_as::<Puts, R>(rt, &mut self.pass, mark) {
            Ok(()) => Ok(()),
            Err(e) => match e.into_inner() {
                Mark::Item(value) => Err(value),
                Mark::End => unreachable!(),
            },
        }
    }

    /// Puts the end mark, after which nothing can be put; waits while there is no place for it. If the receiving end
    /// is dropped, the mark isn't put, but the list of items is complete all the same.
    pub fn close<R: Wait>(self, rt: &R) -> Sent<T>
        ensures { sent result ≡ sending self }
    {
        let LaneIn { sender, mut pass } = self;
        let marked = put_end(rt, &sender, &mut pass);
        Sent {
            sender,
            pass,
            marked,
        }
    }
}

impl<T: Drop> LaneOut<T> {
    ghost use Rattle.dump_lanes.specs.steps.LaneViews.{receiving, sent, Settles, TakeStep};

    /// Takes the item at the front; waits while there is none. After `Closed` or `Lost` it returns the same at each
    /// call.
    pub fn take<R: Wait>(&mut self, rt: &R) -> Taken<T>
        ensures { TakeStep (receiving self.old) result (receiving self.new) }
    {
        match self.told {
            Told::Ended => return Taken::Closed,
            Told::SenderGone => return Taken::Lost,
            Told::MayCome => {}
        }
        match receive(rt, &self.receiver, &mut self.pass) {
            Ok(Mark::Item(item)) => Taken::Item(item),
            Ok(Mark::End) => {
                self.told = Told::Ended;
                Taken::Closed
            }
            Err(_) => {
                self.told = Told::SenderGone;
                Taken::Lost
            }
        }
    }

    /// Drops both ends. Its contract says that what was taken is a prefix of what was put, and all of it after the end
    /// mark. It says too that the receiver found the end mark only if it was put, and that the two ends made exactly
    /// the steps of one history.
    pub fn settle(self, other: Sent<T>)
        requires { (receiving self).lane ≡ (sent other).lane }
        ensures { Settles self other }
    {
        let LaneOut {
            receiver,
            pass: taken,
            told: _,
        } = self;
        let Sent {
            sender,
            mut pass,
            marked: _,
        } = other;
        sender.absorb::<Roles>(&mut pass, taken);
        sender.learn_as::<Total>(&mut pass);
        drop(receiver);
    }
}
