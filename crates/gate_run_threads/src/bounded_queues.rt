//! Lanes: queues with a bound and one sender each, as the ones between readers and forwarders.
ghost use Rattle.std.specs.Prelude.{◌≡◌, ◌<◌, ◌∷◌, [], IfOk, OnOk, map};
ghost use Rattle.gate_queue.specs.Seats.{IsHeadOf};
ghost use Rattle.gate_queue.specs.States.{AreFrom};
ghost use Rattle.gate_run_threads.specs.Seats.{fresh_head, fresh_tail, seat_in, seat_of};
ghost use Rattle.gate_run_threads.specs.QueueGroups.{HavePlaces, AreOpenQueues, IsSettled, AreQueuesSettled};

use crate::lists::next_of;
use gate_queue::{EventQueue, Head, Tail, open};
use gate_record::Memory;
use std::alloc::Global;
use std::sync::Wait;

/// Queues with a bound and one sender each, with all their seats.
#[derive(Drop)]
pub struct BoundedQueues<T> {
    /// The queues, by number.
    pub queues: Vec<EventQueue<T>>,
    /// The taker's seat of each queue.
    pub heads: Vec<Head<T>>,
    /// The sender's seat of each queue.
    pub tails: Vec<Tail<T>>,
}

/// Opens `count` queues with `places` places each.
pub fn open_bounded_queues<T: Drop>(
    alloc: Global,
    places: usize,
    count: usize,
) -> Result<BoundedQueues<T>, Memory>
    requires places { 0 < places }
    ensures opened { IfOk result (λ group. AreOpenQueues count 1 group.queues.items group.heads.items (group.tails.items ∷ [])) }
    ensures places { IfOk result (λ group. HavePlaces places group.queues.items) }
{
    let mut queues = Vec::new(alloc);
    let mut heads = Vec::new(alloc);
    let mut tails = Vec::new(alloc);
    for _queue in 0..count {
        let (queue, head, tail) = open_queue(alloc, places)?;
        queues.push(queue)?;
        heads.push(head)?;
        tails.push(tail)?;
    }
    Ok(BoundedQueues {
        queues,
        heads,
        tails,
    })
}

/// Opens a queue with one sender. The answer has the queue, the taker's seat and the sender's seat.
pub fn open_queue<T>(
    alloc: Global,
    places: usize,
) -> Result<(EventQueue<T>, Head<T>, Tail<T>), Memory>
    requires places { 0 < places }
    ensures capacity { IfOk result (λ opened. opened.0.capacity ≡ places) }
    ensures only_sender { IfOk result (λ opened. opened.0.name.senders ≡ 1) }
    ensures head { IfOk result (λ opened. opened.1 ≡ fresh_head opened.0) }
    ensures tail { IfOk result (λ opened. opened.2 ≡ fresh_tail 0 opened.0) }
{
    let Ok((queue, mut tails, head)) = open(alloc, places, 1) else {
        return Err(Memory);
    };
    let Some(tail) = tails.pop() else {
        unreachable!()
    };
    Ok((queue, head, tail))
}

/// Ends these queues with their seats. `Memory` comes where there is no room for the values that wait.
pub fn settle_bounded_queues<T: Drop, R: Wait>(
    rt: &R,
    alloc: Global,
    queues: Vec<EventQueue<T>>,
    heads: Vec<Head<T>>,
    tails: Vec<Tail<T>>,
) -> Result<(), Memory>
    requires senders { map (λ queue. queue.name.senders) queues.items ≡ map (λ queue. 1) queues.items }
    requires heads { map (λ head. head.queue) heads.items ≡ map (λ queue. queue.name) queues.items }
    requires tails { map seat_of tails.items ≡ map (seat_in 0) queues.items }
    ensures { OnOk result (AreQueuesSettled queues.items heads.items (tails.items ∷ [])) }
{
    let mut heads = heads.into_iter();
    let mut tails = tails.into_iter();
    for queue in queues {
        let head = next_of(&mut heads);
        let tail = next_of(&mut tails);
        settle_queue(rt, alloc, queue, head, tail)?;
    }
    Ok(())
}

// Ends a queue with its seats.
fn settle_queue<T: Drop, R: Wait>(
    rt: &R,
    alloc: Global,
    queue: EventQueue<T>,
    head: Head<T>,
    tail: Tail<T>,
) -> Result<(), Memory>
    requires sender { queue.name.senders ≡ 1 }
    requires head { IsHeadOf queue head }
    requires tail { seat_of tail ≡ seat_in 0 queue }
    ensures from { OnOk result (AreFrom queue.name.senders head.taken) }
    ensures settled { OnOk result (IsSettled queue head tail) }
{
    let mut tails = Vec::new(alloc);
    tails.push(tail)?;
    let Ok(_waiting) = queue.settle(rt, tails, head) else {
        return Err(Memory);
    };
    Ok(())
}
