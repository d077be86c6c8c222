//! QueueGroups: queues without a bound between threads of two kinds, each with the same senders.
ghost use Rattle.std.specs.Prelude.{◌≡◌, ◌∷◌, [], IfOk, OnOk, length, map};
ghost use Rattle.std.specs.List.{range_with_len};
ghost use Rattle.gate_run_threads.specs.Seats.{seat_in, seat_of};
ghost use Rattle.gate_run_threads.specs.QueueGroups.{AreGroupsSettled, AreSettled, AreOpenQueues, AreQueuesSettled, seats_in};

use crate::lists::{columns_of, next_of};
use gate_queue::{FreeHead, FreeQueue, FreeTail, open_free};
use gate_record::Memory;
use std::alloc::Global;
use std::sync::Wait;

/// Queues that have the same senders, with all their seats.
#[derive(Drop)]
pub struct FreeQueues<T: Drop> {
    /// The queues, by number.
    pub queues: Vec<FreeQueue<T>>,
    /// The taker's seat of each queue.
    pub heads: Vec<FreeHead<T>>,
    /// The senders' seats, by sender and then by queue.
    pub tails: Vec<Vec<FreeTail<T>>>,
}

/// Opens `count` queues with `senders` senders each.
pub fn open_free_queues<T: Drop>(
    alloc: Global,
    count: usize,
    senders: usize,
) -> Result<FreeQueues<T>, Memory>
    ensures { IfOk result (λ opened. AreOpenQueues count senders opened.queues.items opened.heads.items (map (λ row. row.items) opened.tails.items)) }
{
    let mut queues = Vec::new(alloc);
    let mut heads = Vec::new(alloc);
    let mut rows = Vec::new(alloc);
    for _queue in 0..count {
        let (queue, tails, head) = open_free(alloc, senders)?;
        queues.push(queue)?;
        heads.push(head)?;
        rows.push(tails)?;
    }
    let tails = columns_of(alloc, senders, rows)?;
    Ok(FreeQueues {
        queues,
        heads,
        tails,
    })
}

/// Ends queues that have the same senders, with all their seats. `Memory` comes where there is no room for the values that wait.
pub fn settle_free_queues<T: Drop, R: Wait>(
    rt: &R,
    alloc: Global,
    queues: Vec<FreeQueue<T>>,
    heads: Vec<FreeHead<T>>,
    tails: Vec<Vec<FreeTail<T>>>,
) -> Result<(), Memory>
    requires senders { map (λ queue. queue.name.senders) queues.items ≡ map (λ queue. length tails.items) queues.items }
    requires heads { map (λ head. head.queue) heads.items ≡ map (λ queue. queue.name) queues.items }
    requires tails { map (λ row. map seat_of row.items) tails.items ≡ map (λ s. map (seat_in s) queues.items) (range_with_len 0 (length tails.items)) }
    ensures { OnOk result (AreQueuesSettled queues.items heads.items (map (λ row. row.items) tails.items)) }
{
    let seats = columns_of(alloc, queues.len(), tails)?;
    settle_all(rt, queues, heads, seats)
}

// Ends each of these queues with its seats.
fn settle_all<T: Drop, R: Wait>(
    rt: &R,
    queues: Vec<FreeQueue<T>>,
    heads: Vec<FreeHead<T>>,
    seats: Vec<Vec<FreeTail<T>>>,
) -> Result<(), Memory>
    requires heads { map (λ head. head.queue) heads.items ≡ map (λ queue. queue.name) queues.items }
    requires seats { map (λ tails. map seat_of tails.items) seats.items ≡ map seats_in queues.items }
    ensures { OnOk result (AreSettled queues.items heads.items (map (λ tails. tails.items) seats.items)) }
{
    let mut heads = heads.into_iter();
    let mut seats = seats.into_iter();
    for queue in queues {
        let head = next_of(&mut heads);
        let tails = next_of(&mut seats);
        let Ok(_waiting) = queue.settle(rt, tails, head) else {
            return Err(Memory);
        };
    }
    Ok(())
}

/// Ends groups of queues, of which each has one sender. `Memory` comes where there is no room for the values that wait.
pub fn settle_groups<T: Drop, R: Wait>(
    rt: &R,
    alloc: Global,
    groups: Vec<Vec<FreeQueue<T>>>,
    heads: Vec<Vec<FreeHead<T>>>,
    tails: Vec<Vec<FreeTail<T>>>,
) -> Result<(), Memory>
    requires senders { map (λ queues. map (λ queue. queue.name.senders) queues.items) groups.items ≡ map (λ queues. map (λ queue. 1) queues.items) groups.items }
    requires heads { map (λ row. map (λ head. head.queue) row.items) heads.items ≡ map (λ queues. map (λ queue. queue.name) queues.items) groups.items }
    requires tails { map (λ row. map seat_of row.items) tails.items ≡ map (λ queues. map (seat_in 0) queues.items) groups.items }
    ensures { OnOk result (AreGroupsSettled (map (λ queues. queues.items) groups.items) (map (λ row. row.items) heads.items) (map (λ row. row.items) tails.items)) }
{
    let mut heads = heads.into_iter();
    let mut tails = tails.into_iter();
    for queues in groups {
        let own_heads = next_of(&mut heads);
        let own_tails = next_of(&mut tails);
        settle_single(rt, alloc, queues, own_heads, own_tails)?;
    }
    Ok(())
}

// Ends a group of queues that have one sender.
fn settle_single<T: Drop, R: Wait>(
    rt: &R,
    alloc: Global,
    queues: Vec<FreeQueue<T>>,
    heads: Vec<FreeHead<T>>,
    tails: Vec<FreeTail<T>>,
) -> Result<(), Memory>
    requires senders { map (λ queue. queue.name.senders) queues.items ≡ map (λ queue. 1) queues.items }
    requires heads { map (λ head. head.queue) heads.items ≡ map (λ queue. queue.name) queues.items }
    requires tails { map seat_of tails.items ≡ map (seat_in 0) queues.items }
    ensures { OnOk result (AreQueuesSettled queues.items heads.items (tails.items ∷ [])) }
{
    let mut senders = Vec::new(alloc);
    senders.push(tails)?;
    settle_free_queues(rt, alloc, queues, heads, senders)
}
