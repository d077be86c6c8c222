//! The queue without a bound, with the calls that threads make on it: `put`, `take` and `take_some`.
ghost use Rattle.std.specs.Prelude.{◌≡◌, ◌<◌, ◌≤◌, IfSome, IfNone, IfErr, OnOk};

use super::batch::Batch;
use super::fault::Memory;
use super::known::Blocks;
use super::seats::{FreeHead, FreeTail};
use crate::known::{Puts, Takes};
use crate::tagged::Tagged;
use std::alloc::Global;
use std::marker::Model;
use std::sync::Wait;

/// A queue that its senders and its taker share by reference, and that grows as long as there is memory. Contracts see it as they see a
/// bounded one, with a capacity that no memory has room for.
///
/// Values stand in blocks of 31. A put into a full block takes memory for the next one, and a block is freed once all its values are taken.
/// So a queue that was drained has one block, whatever it held before.
pub struct FreeQueue<T: Drop> {
    pub(crate) blocks: Blocks<T>,
    pub(crate) senders: usize,
    pub(crate) alloc: Global,
}

impl<T: Drop> Model for FreeQueue<T> {
    ghost use Rattle.gate_queue.specs.Seats.{Shape};
    ghost use Rattle.gate_queue.specs.FreeViews.{free_shape};

    ghost Value = { Shape };

    ghost view = { λ q. free_shape q.blocks q.senders };
}

impl<T: Drop> FreeQueue<T> {
    ghost use Rattle.gate_queue.specs.Seats.{IsTailOf, IsHeadOf, with_put, with_taken};
    ghost use Rattle.gate_queue.specs.States.{MayBeEmpty};
    ghost use Rattle.gate_queue.specs.FreeViews.{free_shape};
    ghost use Rattle.gate_queue.specs.Batches.{batch_head, batch_lender, batch_left};

    /// Puts a value at the back of the queue and at the end of this seat's list. No other seat's list changes. The seat must be one of this
    /// queue's.
    ///
    /// `Memory` hands the value back and changes no list. It comes where memory for a block is refused, or after nearly 2^62 puts.
    pub fn put<R: Wait>(&self, rt: &R, tail: &mut FreeTail<T>, value: T) -> Result<(), Memory<T>>
        requires { IsTailOf self.now tail.old }
        ensures ok { OnOk result (tail.new ≡ with_put tail.old value) }
        ensures memory { IfErr result (λ refused. (refused.0 ≡ value) × (tail.new ≡ tail.old)) }
        ensures seat { (tail.new.queue ≡ tail.old.queue) × (tail.new.sender ≡ tail.old.sender) }
    {
        let item = Tagged {
            sender: tail.sender,
            value,
        };
        match self.blocks.push_as::<Puts, R>(rt, &mut tail.right, item) {
            Ok(()) => Ok(()),
            Err(Tagged { sender: _, value }) => Err(Memory(value)),
        }
    }

    /// Takes the value that has waited longest, with its sender's number, and adds it to the seat's list. The call takes no memory.
    ///
    /// `None` comes only where the queue was empty at some moment of the call: the queue's rule allows a state in which nothing waits and
    /// this seat has taken just what it has. The seat must be this queue's.
    pub fn take<R: Wait>(&self, rt: &R, head: &mut FreeHead<T>) -> Option<Tagged<T>>
        requires { IsHeadOf self.now head.old }
        ensures some { IfSome result (λ x. head.new ≡ with_taken head.old x) }
        ensures sender { IfSome result (λ x. x.sender < self.now.name.senders) }
        ensures none { IfNone result (head.new ≡ head.old) }
        ensures seat { head.new.queue ≡ head.old.queue }
        ensures empty { IfNone result (MayBeEmpty self.now head.old) }
    {
        if let Some(item) = head.ready.pop_front() {
            return Some(item);
        }
        self.blocks.pop_as::<Takes, R>(rt, &mut head.right)
    }

    /// Takes the values that have waited longest, at most `k` and at most the 31 of a block, in one step. The batch gives them in their
    /// order. The call takes no memory. Each value joins the seat's list when the batch gives it, and those that the batch doesn't give
    /// stay with the seat (`Batch`).
    ///
    /// A batch without a value doesn't mean that the queue was empty. The seat must be this queue's.
    pub fn take_some<'h, R: Wait>(
        &self,
        rt: &R,
        head: &'h mut FreeHead<T>,
        k: usize,
    ) -> Batch<'h, T>
        requires { IsHeadOf self.now head.old }
        ensures same_reference { batch_lender result ≡ head.entry.ghost_name }
        ensures head { batch_head result ≡ head.old }
        ensures count { batch_left result ≤ k }
    {
        let ready = head.fetch(rt, &self.blocks, k);
        Batch {
            head,
            left: ready.min(k),
        }
    }

    // Takes the queue apart into its blocks, its number of senders and its allocator.
    pub(crate) fn into_parts(self) -> (Blocks<T>, usize, Global)
        ensures { free_shape result.0 result.1 ≡ self }
    {
        let Self {
            blocks,
            senders,
            alloc,
        } = self;
        (blocks, senders, alloc)
    }
}

impl<T: Drop> Drop for FreeQueue<T> {
    fn drop(self) {
        let Self {
            blocks,
            senders: _,
            alloc: _,
        } = self;
        blocks.destroy();
    }
}
