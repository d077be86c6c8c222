//! Ends a queue without a bound: gives the values that still wait, and accounts for all that each sender put.
ghost use Rattle.std.specs.Prelude.{◌≡◌, ℕ, ◌+◌, ◌<◌, ◌≤◌, List, [], ◌++◌, map, length, All, IfOk, IfErr, slice_index_or};
ghost use Rattle.std.specs.Vec.{vec_capacity};
ghost use Rattle.crossbeam_queue.specs.Fifo.{Held};
ghost use Rattle.crossbeam_queue.specs.SegTies.{IsSegPassOf};
ghost use Rattle.gate_queue.specs.Seats.{in_blocks, IsHeadOf, AreAllTailsOf};
ghost use Rattle.gate_queue.specs.States.{AreFrom, IsDelivered};
ghost use Rattle.gate_queue.specs.Inner.Sharing.{CanWait};
ghost use Rattle.gate_queue.specs.declared.known.Known.TheVariants.{Taker};
ghost use Rattle.gate_queue.specs.Views.{as_taker, KnowsTaker};
ghost use Rattle.gate_queue.specs.Inner.Views.{with_joined, seats_from, AreSeats};
ghost use Rattle.gate_queue.specs.FreeViews.{known_by};

use super::fault::UnsettledFree;
use super::known::{Blocks, FreeRight, Parts};
use super::queue::FreeQueue;
use super::seats::{FreeHead, FreeTail};
use crate::known::{Joins, Takes};
use crate::tagged::Tagged;
use std::collections::VecDeque;
use std::sync::Wait;

impl<T: Drop> FreeQueue<T> {
    /// Ends the queue and gives the values that still wait, the oldest first. The caller hands in all seats, the senders' in the order of
    /// their numbers.
    ///
    /// For each sender, the values taken from it, followed by those of its that wait, are the values that it put, and no other value was
    /// taken or waits. Where there is no memory for the values that wait, the queue and its seats come back, and all values wait as before.
    pub fn settle<R: Wait>(
        self,
        rt: &R,
        mut tails: Vec<FreeTail<T>>,
        head: FreeHead<T>,
    ) -> Result<Vec<Tagged<T>>, UnsettledFree<T>>
        requires tails { AreAllTailsOf self tails.items }
        requires head { IsHeadOf self head }
        ensures delivered { IfOk result (λ rest.
            All (λ tail. IsDelivered head.taken rest.items tail.sender tail.put) tails.items) }
        ensures from { IfOk result (λ rest. AreFrom self.name.senders head.taken × AreFrom self.name.senders rest.items) }
        ensures memory { IfErr result (λ back. (back.queue ≡ self) × (back.tails.items ≡ tails.items) × (back.head ≡ head)) }
    {
        let (blocks, senders, alloc) = self.into_parts();
        let (right, ready) = head.into_parts();
        let mut right = join(&blocks, right, &mut tails);
        let count = blocks.len_as::<Takes, R>(rt, &mut right);
        let Ok(rest) = Vec::with_capacity(alloc, ready.len().saturating_add(count)) else {
            let right = part(&blocks, right, &mut tails, senders);
            return Err(UnsettledFree {
                queue: FreeQueue {
                    blocks,
                    senders,
                    alloc,
                },
                tails,
                head: FreeHead { right, ready },
            });
        };
        let rest = drain(rt, &blocks, right, move_all(ready, rest), count);
        blocks.destroy();
        Ok(rest)
    }
}

// Moves over the values that are ready, which are the oldest ones.
fn move_all<T: Drop>(ready: VecDeque<Tagged<T>>, mut rest: Vec<Tagged<T>>) -> Vec<Tagged<T>>
    requires { (rest.items ≡ []) × (length ready.items ≤ vec_capacity rest) }
    ensures items { result.items ≡ ready.items }
    ensures room { vec_capacity result ≡ vec_capacity rest }
{
    for item in ready {
        rest.push_reserved(item);
    }
    rest
}

// Joins the senders' seats to the taker's, the last one first. The taker's seat knows afterwards what each sender had put.
fn join<T: Drop>(
    blocks: &Blocks<T>,
    mut right: FreeRight<T>,
    tails: &mut Vec<FreeTail<T>>,
) -> FreeRight<T>
    requires right { IsSegPassOf blocks.now right × KnowsTaker (known_by right) }
    requires tails { AreSeats (in_blocks blocks.now.web) (as_taker (known_by right)).senders tails.old.items }
    requires all { length tails.old.items ≡ (as_taker (known_by right)).senders }
    ensures right { IsSegPassOf blocks.now result ×
        (known_by result ≡ Taker (with_joined (as_taker (known_by right)) (map (λ tail. tail.put) tails.old.items))) }
    ensures tails { (tails.new.items ≡ []) × (vec_capacity tails.new ≡ vec_capacity tails.old) }
{
    while let Some(tail) = tails.pop() {
        blocks.absorb::<Joins>(&mut right, tail.into_right());
    }
    right
}

// Gives the senders' seats back, from sender 0 on, because memory was refused.
fn part<T: Drop>(
    blocks: &Blocks<T>,
    mut right: FreeRight<T>,
    tails: &mut Vec<FreeTail<T>>,
    senders: usize,
) -> FreeRight<T>
    requires right { IsSegPassOf blocks.now right × (known_by right ≡ Taker (as_taker (known_by right))) }
    requires senders { let v = as_taker (known_by right) in (v.senders ≡ senders) × (v.made ≡ senders) × (length v.joined ≡ senders) }
    requires room { (tails.old.items ≡ []) × (senders ≤ vec_capacity tails.old) }
    ensures right { IsSegPassOf blocks.now result × (known_by result ≡ Taker (with_joined (as_taker (known_by right)) [])) }
    ensures tails { tails.new.items ≡ seats_from (in_blocks blocks.now.web) senders 0 (as_taker (known_by right)).joined }
{
    for sender in 0..senders {
        let own = blocks.another::<Parts>(&mut right);
        tails.push_reserved(FreeTail { sender, right: own });
    }
    right
}

// Takes out all `count` values that wait in the blocks, and adds them after those that are in `rest` already.
fn drain<T: Drop, R: Wait>(
    rt: &R,
    blocks: &Blocks<T>,
    mut right: FreeRight<T>,
    mut rest: Vec<Tagged<T>>,
    count: usize,
) -> Vec<Tagged<T>>
    requires right { IsSegPassOf blocks.now right × (known_by right ≡ Taker (as_taker (known_by right))) }
    requires all_joined { length (as_taker (known_by right)).joined ≡ (as_taker (known_by right)).senders }
    requires count { Held count (CanWait (known_by right)) }
    requires room { length rest.items + count ≤ vec_capacity rest }
    ensures delivered { let v = as_taker (known_by right) in
        (before : List (Tagged T)) → v.taken ≡ before ++ rest.items → (s : ℕ) → s < v.senders →
        IsDelivered before result.items s (slice_index_or v.joined s []) }
    ensures from { let v = as_taker (known_by right) in
        (before : List (Tagged T)) → v.taken ≡ before ++ rest.items → AreFrom v.senders before × AreFrom v.senders result.items }
{
    while let Some(item) = blocks.pop_as::<Takes, R>(rt, &mut right) {
        rest.push_reserved(item);
    }
    rest
}
