//! Takes several values of a queue without a bound in one step.
ghost use Rattle.std.specs.Prelude.{◌≡◌, ◌<◌, ◌≤◌, List, []};
ghost use Rattle.std.specs.VecDeque.{deque_capacity};
ghost use Rattle.crossbeam_queue.specs.SegBatches.{Holds};
ghost use Rattle.crossbeam_queue.specs.SegTies.{IsSegPassOf};
ghost use Rattle.gate_queue.specs.States.{AreFrom};
ghost use Rattle.gate_queue.specs.declared.known.Known.TheVariants.{Taker};
ghost use Rattle.gate_queue.specs.Views.{as_taker};
ghost use Rattle.gate_queue.specs.Inner.Views.{with_more};
ghost use Rattle.gate_queue.specs.FreeViews.{known_by};

use super::known::{Blocks, FreeRight};
use super::seats::FreeHead;
use crate::known::{Known, Takes};
use crate::tagged::Tagged;
use crossbeam_queue::SegBatch;
use std::alloc::Global;
use std::collections::VecDeque;
use std::sync::Wait;
use std::thread;

/// How many values one block of a queue holds, and so how many a batch has at most.
pub(crate) const BLOCK: usize = 31;

/// An iterator over values that were taken in one step. It gives them the oldest first, each with its sender's number.
///
/// A value joins the list of the taker's seat when the batch gives it (`BatchSteps`). Where a batch is dropped before its end, the values
/// that it has not given stay with the seat and count as waiting: the next `take`, `take_some` or `settle` gives them first, so none is
/// lost.
#[derive(Drop)]
pub struct Batch<'h, T: Drop> {
    pub(crate) head: &'h mut FreeHead<T>,
    pub(crate) left: usize,
}

impl<'h, T: Drop> Iterator for Batch<'h, T> {
    ghost use Rattle.std.specs.Iterator.{at_most};
    ghost use Rattle.gate_queue.specs.Batches.{BatchSteps, batch_left};

    type Item = Tagged<T>;

    ghost next_gives = { BatchSteps };

    ghost remaining = { λ b. at_most (batch_left b) };

    fn next(&mut self) -> Option<Tagged<T>> {
        if self.left == 0 {
            return None;
        }
        self.left -= 1;
        self.head.hand_out()
    }
}

// Takes up to `limit` values in one step. Where the step can't be made at once, the thread yields and tries again.
pub(super) fn fill<T: Drop, R: Wait>(
    rt: &R,
    blocks: &Blocks<T>,
    right: &mut FreeRight<T>,
    ready: &mut VecDeque<Tagged<T>>,
    limit: usize,
)
    requires right { IsSegPassOf blocks.now right.old × (known_by right.old ≡ Taker (as_taker (known_by right.old))) }
    requires room { (ready.old.items ≡ []) × (limit ≤ deque_capacity ready.old) × (0 < limit) }
    ensures right { IsSegPassOf blocks.now right.new ×
        (known_by right.new ≡ Taker (with_more (as_taker (known_by right.old)) ready.new.items)) }
    ensures from { AreFrom (as_taker (known_by right.old)).senders ready.new.items }
    ensures room { deque_capacity ready.new ≡ deque_capacity ready.old }
{
    'attempts: for _ in rt.forever() {
        let first = blocks.head(right);
        let Ok(taken) = blocks.try_pop_batch::<Takes, R>(rt, right, first, limit as u64) else {
            thread::yield_now();
            continue;
        };
        let Some(batch) = taken else {
            return;
        };
        return read_out(rt, blocks, right, ready, batch);
    }
    unreachable!()
}

// Moves the values that were taken out of their block.
fn read_out<T: Drop, R: Wait>(
    rt: &R,
    blocks: &Blocks<T>,
    right: &mut FreeRight<T>,
    ready: &mut VecDeque<Tagged<T>>,
    mut batch: SegBatch<Tagged<T>, Known<T>, Global>,
)
    requires right { IsSegPassOf blocks.now right.old }
    requires batch { (xs : List (Tagged T)) × Holds blocks.now right.old batch xs }
    requires room { (ready.old.items ≡ []) × (batch.len ≤ deque_capacity ready.old) }
    ensures right { IsSegPassOf blocks.now right.new × (known_by right.new ≡ known_by right.old) }
    ensures ready { (xs : List (Tagged T)) → Holds blocks.now right.old batch xs → ready.new.items ≡ xs }
    ensures room { deque_capacity ready.new ≡ deque_capacity ready.old }
{
    'values: while batch.len() > 0 {
        let item = blocks.next_of(rt, right, &mut batch);
        ready.push_back_reserved(item);
    }
    batch.finish();
}
