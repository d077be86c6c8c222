//! Ends a bounded queue: gives the values that still wait, and accounts for all that each sender put.
ghost use Rattle.std.specs.Prelude.{◌≡◌, ℕ, ◌<◌, ◌≤◌, [], ◌++◌, map, length, All, IfOk, IfErr, slice_index_or};
ghost use Rattle.std.specs.Vec.{vec_capacity};
ghost use Rattle.crossbeam_queue.specs.Passes.{view, IsPassOf, ruled_capacity};
ghost use Rattle.gate_queue.specs.Seats.{in_table, IsHeadOf, AreAllTailsOf, AreTailsOf};
ghost use Rattle.gate_queue.specs.States.{AreFrom, IsDelivered};
ghost use Rattle.gate_queue.specs.declared.known.Known.TheVariants.{Taker};
ghost use Rattle.gate_queue.specs.Views.{as_taker, IsTakerRight};
ghost use Rattle.gate_queue.specs.Inner.Views.{with_joined, AreSeats};

use crate::fault::Unsettled;
use crate::known::{Joins, Places, Right, Takes};
use crate::queue::EventQueue;
use crate::seats::{Head, Tail};
use crate::tagged::Tagged;
use std::sync::Wait;

impl<T: Drop> EventQueue<T> {
    /// Ends the queue and gives the values that still wait, the oldest first. The caller hands in all seats, the senders' in the order of
    /// their numbers.
    ///
    /// For each sender, the values taken from it, followed by those of its that wait, are the values that it put, and no other value was
    /// taken or waits. Where there is no memory for `capacity` values, the queue and its seats come back, and all values wait as before.
    pub fn settle<R: Wait>(
        self,
        rt: &R,
        tails: Vec<Tail<T>>,
        head: Head<T>,
    ) -> Result<Vec<Tagged<T>>, Unsettled<T>>
        requires tails { AreAllTailsOf self tails.items }
        requires head { IsHeadOf self head }
        ensures delivered { IfOk result (λ rest.
            All (λ tail. IsDelivered head.taken rest.items tail.sender tail.put) tails.items) }
        ensures from { IfOk result (λ rest. AreFrom self.name.senders head.taken × AreFrom self.name.senders rest.items) }
        ensures room { IfOk result (λ rest. length rest.items ≤ self.capacity) }
        ensures memory { IfErr result (λ back. (back.queue ≡ self) × (back.tails ≡ tails) × (back.head ≡ head)) }
    {
        let Ok(rest) = Vec::with_capacity(self.alloc, self.places.capacity()) else {
            return Err(Unsettled {
                queue: self,
                tails,
                head,
            });
        };
        let Self {
            places,
            senders: _,
            alloc: _,
        } = self;
        let right = join(&places, head.into_right(), tails);
        Ok(drain(rt, &places, right, rest))
    }
}

// Joins the senders' seats to the taker's, the last one first. The taker's seat knows afterwards what each sender had put.
fn join<T>(places: &Places<T>, mut right: Right<T>, mut tails: Vec<Tail<T>>) -> Right<T>
    requires right { IsPassOf places.now right × IsTakerRight right }
    requires tails { AreSeats (in_table places.now.table.shared.table_id) (as_taker (view right)).senders tails.items }
    requires all { length tails.items ≡ (as_taker (view right)).senders }
    ensures { IsPassOf places.now result ×
        (view result ≡ Taker (with_joined (as_taker (view right)) (map (λ tail. tail.put) tails.items))) }
{
    while let Some(tail) = tails.pop() {
        places.absorb::<Joins>(&mut right, tail.into_right());
    }
    right
}

// Takes out all values that wait.
fn drain<T, R: Wait>(
    rt: &R,
    places: &Places<T>,
    mut right: Right<T>,
    mut rest: Vec<Tagged<T>>,
) -> Vec<Tagged<T>>
    requires right { IsPassOf places.now right × (view right ≡ Taker (as_taker (view right))) }
    requires all_joined { length (as_taker (view right)).joined ≡ (as_taker (view right)).senders }
    requires room { (rest.items ≡ []) × (ruled_capacity places.now ≤ vec_capacity rest) }
    ensures delivered { let v = as_taker (view right) in
        (s : ℕ) → s < v.senders → IsDelivered v.taken result.items s (slice_index_or v.joined s []) }
    ensures from { let v = as_taker (view right) in
        AreFrom v.senders v.taken × AreFrom v.senders result.items }
    ensures room { length result.items ≤ ruled_capacity places.now }
{
    // The proof needs this count: so many values wait and no more can come, so all of them find room.
    let count = places.len_as::<Takes, R>(rt, &mut right);
    while let Some(item) = places.pop_as::<Takes, R>(rt, &mut right) {
        rest.push_reserved(item);
    }
    rest
}
