//! What the seats of a queue know, and what each step of a seat tells it, for the proofs alone: no value of these types is ever made.

use crate::tagged::Tagged;
use crossbeam_queue::protocol::{Join, Lesson, Outcome, Outcomes, Protocol, Split};
use crossbeam_queue::{Pass, RuledArrayQueue};
use std::collections::LinkedList;

/// What a sender's seat knows: its number, how many senders there are, and what it put.
pub struct Put<T> {
    /// The sender's number, from 0.
    pub sender: usize,
    /// How many senders the queue has.
    pub senders: usize,
    /// What the sender put, in order.
    pub put: LinkedList<T>,
}

/// What the taker's seat knows: how many senders there are and how many of them have their seat, what was taken, and what each joined seat
/// had put. Seats are joined to the taker's when the queue is settled, the last sender's first.
pub struct Got<T> {
    /// How many senders the queue has.
    pub senders: usize,
    /// How many of them have their seat: those from 0 on, below this number.
    pub made: usize,
    /// What was taken, in order.
    pub taken: LinkedList<Tagged<T>>,
    /// What each joined sender had put, in the order of the senders' numbers. The last one is the queue's last sender.
    pub joined: LinkedList<LinkedList<T>>,
}

/// What a seat knows.
pub enum Known<T> {
    /// A sender's seat.
    Sender(Put<T>),
    /// The taker's seat.
    Taker(Got<T>),
    /// A seat that was only counted so far, or that was joined to the taker's.
    Nothing,
}

/// The rule that every queue keeps, as a protocol of the threads that share it.
pub struct Sharing;

impl<T> Protocol<Tagged<T>, Known<T>> for Sharing {
    ghost use Rattle.gate_queue.specs.Sharing.{Shares};
    ghost use Rattle.gate_queue.specs.Inner.Sharing.{newcomer};

    ghost holds = { Shares };

    ghost first = { newcomer 0 };
}

/// The step of a sender that puts a value.
pub struct Puts;

impl<T> Outcome<Tagged<T>, Known<T>> for Puts {
    ghost use Rattle.gate_queue.specs.Inner.Sharing.{HasPut};

    ghost then = { HasPut };
}

impl<T> Lesson<Tagged<T>, Known<T>> for Puts {
    ghost use Rattle.gate_queue.specs.Inner.Sharing.{CanWait};

    ghost fact = { CanWait };
}

/// The step of the taker that takes one value, or several at once.
pub struct Takes;

impl<T> Outcome<Tagged<T>, Known<T>> for Takes {
    ghost use Rattle.gate_queue.specs.Inner.Sharing.{HasTaken};

    ghost then = { HasTaken };
}

impl<T> Outcomes<Tagged<T>, Known<T>> for Takes {
    ghost use Rattle.gate_queue.specs.Inner.Sharing.{HasTakenAll};

    ghost then_all = { HasTakenAll };
}

impl<T> Lesson<Tagged<T>, Known<T>> for Takes {
    ghost use Rattle.gate_queue.specs.Inner.Sharing.{CanWait};

    ghost fact = { CanWait };
}

/// The step that counts one more sender, which has no seat yet.
pub struct Plans;

impl<T> Split<Known<T>> for Plans {
    ghost use Rattle.gate_queue.specs.Inner.Sharing.{planned, nothing};

    ghost left = { planned };

    ghost right = { nothing };
}

/// The step that gives the next sender its seat.
pub struct Seats;

impl<T> Split<Known<T>> for Seats {
    ghost use Rattle.gate_queue.specs.Inner.Sharing.{seated, next_sender};

    ghost left = { seated };

    ghost right = { next_sender };
}

/// The step that joins to the taker's seat that of the last sender which isn't joined yet.
pub struct Joins;

impl<T> Join<Known<T>> for Joins {
    ghost use Rattle.gate_queue.specs.Sharing.{joined};
    ghost use Rattle.gate_queue.specs.declared.known.Known.TheVariants.{Nothing};

    ghost both = { joined };

    ghost spent = { Nothing };
}

/// The array in which the values of a queue stand.
pub type Places<T> = RuledArrayQueue<Tagged<T>, Known<T>, Sharing>;

/// A seat's right to take steps in the protocol.
pub type Right<T> = Pass<Tagged<T>, Known<T>>;
