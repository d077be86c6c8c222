//! The seats of a queue without a bound: one for each sender, and one for the taker. A thread owns its seat, so contracts can say what that
//! thread put or took.
ghost use Rattle.std.specs.Prelude.{◌≡◌, ◌<◌, IfSome, IfNone};

use super::batch::{BLOCK, fill};
use super::known::{Blocks, FreeRight};
use crate::tagged::Tagged;
use std::collections::VecDeque;
use std::marker::Model;
use std::sync::Wait;

/// A sender's seat, which is used with the queue that gave it (`IsTailOf`). Contracts see it as its queue, the sender's
/// number, and the list of what was put. It takes no memory, and may go to another thread.
pub struct FreeTail<T> {
    pub(crate) sender: usize,
    pub(crate) right: FreeRight<T>,
}

impl<T> Model for FreeTail<T> {
    ghost use Rattle.gate_queue.specs.Seats.{SenderSeat};

    ghost Value = { SenderSeat T };

    ghost use Rattle.gate_queue.specs.FreeViews.{free_sender_seat, IsFreeSenderRight};

    ghost view = { λ t. free_sender_seat t.sender t.right };

    ghost invariant = { λ t. IsFreeSenderRight t.sender t.right };
}

impl<T> FreeTail<T> {
    ghost use Rattle.gate_queue.specs.FreeViews.{free_sender_seat, IsFreeSenderRight};

    // Gives up the seat for its right to step.
    pub(crate) fn into_right(self) -> FreeRight<T>
        ensures { IsFreeSenderRight self.sender result × (free_sender_seat self.sender result ≡ self) }
    {
        let Self { sender: _, right } = self;
        right
    }
}

impl<T: Drop> Drop for FreeTail<T> {
    fn drop(self) {
        let Self {
            sender: _,
            right: _,
        } = self;
    }
}

/// The taker's seat, which is used with the queue that gave it (`IsHeadOf`). Contracts see it as its queue and the list of what was taken.
/// It may go to another thread. It keeps room for the values of one block.
pub struct FreeHead<T: Drop> {
    pub(crate) right: FreeRight<T>,
    // The values that were taken from the blocks in one step and not handed out yet. Contracts see them as waiting.
    pub(crate) ready: VecDeque<Tagged<T>>,
}

impl<T: Drop> Model for FreeHead<T> {
    ghost use Rattle.gate_queue.specs.Seats.{TakerSeat};

    ghost Value = { TakerSeat T };

    ghost use Rattle.std.specs.VecDeque.{deque_capacity};
    ghost use Rattle.gate_queue.specs.FreeViews.{free_taker_seat, IsFreeTakerRight};

    ghost view = { λ h. free_taker_seat h.right h.ready.items };

    ghost invariant = { λ h. IsFreeTakerRight h.right h.ready.items (deque_capacity h.ready) };
}

impl<T: Drop> FreeHead<T> {
    ghost use Rattle.std.specs.VecDeque.{deque_capacity};
    ghost use Rattle.gate_queue.specs.Seats.{in_blocks, with_taken};
    ghost use Rattle.gate_queue.specs.FreeViews.{free_taker_seat, IsFreeTakerRight};

    // Hands out the first value that is ready.
    pub(crate) fn hand_out(&mut self) -> Option<Tagged<T>>
        ensures some { IfSome result (λ x. self.new ≡ with_taken self.old x) }
        ensures sender { IfSome result (λ x. x.sender < self.old.queue.senders) }
        ensures none { IfNone result (self.new ≡ self.old) }
    {
        self.ready.pop_front()
    }

    // Takes up to `limit` values from the blocks where none is ready. The answer is how many values are ready then.
    pub(crate) fn fetch<R: Wait>(&mut self, rt: &R, blocks: &Blocks<T>, limit: usize) -> usize
        requires { self.old.queue.id ≡ in_blocks blocks.now.web }
        ensures { self.new ≡ self.old }
    {
        if limit == 0 || !self.ready.is_empty() {
            return self.ready.len();
        }
        let limit = limit.min(BLOCK);
        fill(rt, blocks, &mut self.right, &mut self.ready, limit);
        self.ready.len()
    }

    // Gives up the seat for its right to step and the values that are ready.
    pub(crate) fn into_parts(self) -> (FreeRight<T>, VecDeque<Tagged<T>>)
        ensures right { IsFreeTakerRight result.0 result.1.items (deque_capacity result.1) }
        ensures seen { free_taker_seat result.0 result.1.items ≡ self }
    {
        let Self { right, ready } = self;
        (right, ready)
    }
}

impl<T: Drop> Drop for FreeHead<T> {
    fn drop(self) {
        let Self { right: _, ready: _ } = self;
    }
}
