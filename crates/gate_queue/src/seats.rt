//! The seats of a bounded queue: one for each sender, and one for the taker. A thread owns its seat, so contracts can say what that thread
//! put or took.
ghost use Rattle.std.specs.Prelude.{◌≡◌};

use crate::known::Right;
use std::marker::Model;

/// A sender's seat, which is used with the queue that gave it (`IsTailOf`). Contracts see it as its queue, the sender's
/// number, and the list of what was put. It takes no memory, and may go to another thread.
pub struct Tail<T> {
    pub(crate) sender: usize,
    pub(crate) right: Right<T>,
}

impl<T> Model for Tail<T> {
    ghost use Rattle.gate_queue.specs.Seats.{SenderSeat};

    ghost Value = { SenderSeat T };

    ghost use Rattle.gate_queue.specs.Views.{sender_seat, IsSenderRight};

    ghost view = { λ t. sender_seat t.sender t.right };

    ghost invariant = { λ t. IsSenderRight t.sender t.right };
}

impl<T> Tail<T> {
    ghost use Rattle.gate_queue.specs.Views.{sender_seat, IsSenderRight};

    // Gives up the seat for its right to step.
    pub(crate) fn into_right(self) -> Right<T>
        ensures { IsSenderRight self.sender result × (sender_seat self.sender result ≡ self) }
    {
        let Self { sender: _, right } = self;
        right
    }
}

impl<T> Drop for Tail<T> {
    fn drop(self) {
        let Self {
            sender: _,
            right: _,
        } = self;
    }
}

/// The taker's seat, which is used with the queue that gave it (`IsHeadOf`). Contracts see it as its queue and the list
/// of what was taken. It takes no memory, and may go to another thread.
pub struct Head<T> {
    pub(crate) right: Right<T>,
}

impl<T> Model for Head<T> {
    ghost use Rattle.gate_queue.specs.Seats.{TakerSeat};

    ghost Value = { TakerSeat T };

    ghost use Rattle.gate_queue.specs.Views.{taker_seat, IsTakerRight};

    ghost view = { λ h. taker_seat h.right };

    ghost invariant = { λ h. IsTakerRight h.right };
}

impl<T> Head<T> {
    ghost use Rattle.gate_queue.specs.Views.{taker_seat, IsTakerRight};

    // Gives up the seat for its right to step.
    pub(crate) fn into_right(self) -> Right<T>
        ensures { IsTakerRight result × (taker_seat result ≡ self) }
    {
        let Self { right } = self;
        right
    }
}

impl<T> Drop for Head<T> {
    fn drop(self) {
        let Self { right: _ } = self;
    }
}
