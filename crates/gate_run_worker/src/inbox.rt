//! The seats by which a pipeline's worker takes management events and results.
ghost use Rattle.std.specs.Prelude.{◌≡◌, IfNone, IfSome};
ghost use Rattle.gate_queue.specs.Seats.{IsHeadOf, with_taken};

use gate_queue::{EventQueue, Head, Tagged};
use gate_record::Shared;
use std::marker::Model;
use std::sync::Wait;

/// The taker's seat of a queue, with the queue. Contracts see the seat.
#[derive(Drop)]
pub struct InboxSeat<T> {
    queue: Shared<EventQueue<T>>,
    head: Head<T>,
    ghost own: { IsHeadOf queue head },
}

impl<T> Model for InboxSeat<T> {
    ghost use Rattle.gate_queue.specs.Seats.{TakerSeat};

    ghost Value = { TakerSeat T };

    ghost view = { λ seat. seat.head };
}

impl<T> InboxSeat<T> {
    /// The seat of this queue's taker.
    pub fn new(queue: Shared<EventQueue<T>>, head: Head<T>) -> InboxSeat<T>
        requires { IsHeadOf queue head }
        ensures { result ≡ head }
    {
        InboxSeat { queue, head }
    }

    /// Takes the value that has waited longest, if one waits.
    pub fn take<R: Wait>(&mut self, rt: &R) -> Option<Tagged<T>>
        ensures some { IfSome result (λ taken. self.new ≡ with_taken self.old taken) }
        ensures none { IfNone result (self.new ≡ self.old) }
    {
        self.queue.get().take(rt, &mut self.head)
    }
}
