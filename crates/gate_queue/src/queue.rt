//! The bounded queue, with the two calls that threads make on it: `put` and `take`.
ghost use Rattle.std.specs.Prelude.{◌≡◌, ◌<◌, ◌≤◌, length, IfSome, IfNone, IfErr, OnOk, OnErr};

use crate::fault::Full;
use crate::known::{Places, Puts, Takes};
use crate::seats::{Head, Tail};
use crate::tagged::Tagged;
use std::alloc::Global;
use std::marker::Model;
use std::sync::Wait;

/// A queue with a fixed number of places, which its senders and its taker share by reference. Contracts see which queue it is, how many
/// senders it has, and how many values it can hold.
#[derive(Drop)]
pub struct EventQueue<T> {
    pub(crate) places: Places<T>,
    pub(crate) senders: usize,
    pub(crate) alloc: Global,
}

impl<T> Model for EventQueue<T> {
    ghost use Rattle.gate_queue.specs.Seats.{in_table, Shape};
    ghost use Rattle.crossbeam_queue.specs.Passes.{ruled_capacity};

    ghost Value = { Shape };

    ghost view = { λ q. record {
      name = record { id = in_table q.places.table.shared.table_id; senders = q.senders };
      capacity = ruled_capacity q.places;
    } };
}

impl<T> EventQueue<T> {
    ghost use Rattle.gate_queue.specs.Seats.{IsTailOf, IsHeadOf, with_put, with_taken};
    ghost use Rattle.gate_queue.specs.States.{MayBeFull, MayBeEmpty};

    /// Puts a value at the back of the queue and at the end of this seat's list. No other seat's list changes. The call takes no memory.
    ///
    /// `Full` hands the value back. It comes only where the queue was full at some moment of the call: the queue's rule allows a state in
    /// which `capacity` values wait and this seat has put just what it has. So the only sender of a queue is never refused before it has
    /// put `capacity` values. The seat must be one of this queue's.
    pub fn put<R: Wait>(&self, rt: &R, tail: &mut Tail<T>, value: T) -> Result<(), Full<T>>
        requires { IsTailOf self.now tail.old }
        ensures ok { OnOk result (tail.new ≡ with_put tail.old value) }
        ensures full { IfErr result (λ refused. (refused.0 ≡ value) × (tail.new ≡ tail.old)) }
        ensures seat { (tail.new.queue ≡ tail.old.queue) × (tail.new.sender ≡ tail.old.sender) }
        ensures refused { OnErr result (MayBeFull self.now tail.old) }
        ensures only_sender { self.now.name.senders ≡ 1 → OnErr result (self.now.capacity ≤ length tail.old.put) }
    {
        let item = Tagged {
            sender: tail.sender,
            value,
        };
        match self.places.push_as::<Puts, R>(rt, &mut tail.right, item) {
            Ok(()) => Ok(()),
            Err(Tagged { sender: _, value }) => Err(Full(value)),
        }
    }

    /// Takes the value that has waited longest, with its sender's number, and adds it to the seat's list. The call takes no memory.
    ///
    /// `None` comes only where the queue was empty at some moment of the call: the queue's rule allows a state in which nothing waits and
    /// this seat has taken just what it has. The seat must be this queue's.
    pub fn take<R: Wait>(&self, rt: &R, head: &mut Head<T>) -> Option<Tagged<T>>
        requires { IsHeadOf self.now head.old }
        ensures some { IfSome result (λ x. head.new ≡ with_taken head.old x) }
        ensures sender { IfSome result (λ x. x.sender < self.now.name.senders) }
        ensures none { IfNone result (head.new ≡ head.old) }
        ensures seat { head.new.queue ≡ head.old.queue }
        ensures empty { IfNone result (MayBeEmpty self.now head.old) }
    {
        self.places.pop_as::<Takes, R>(rt, &mut head.right)
    }
}
