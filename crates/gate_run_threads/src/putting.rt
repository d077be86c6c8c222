//! What forwarders and tenants' workers have in common: they take from one queue, and put into several.
ghost use Rattle.std.specs.Prelude.{◌≡◌, ℕ, map, IfErr, OnOk};
ghost use Rattle.gate_run_threads.specs.Seats.{PutAt, seat_of};

use gate_queue::{FreeQueue, FreeTail, Memory};
use std::sync::Wait;

/// The seats of a thread that took from one queue and put into several, as the thread hands them back.
#[derive(Drop)]
pub struct PassedOn<H, T> {
    /// The taker's seat.
    pub head: H,
    /// The sender's seat in each queue, by queue number.
    pub tails: Vec<FreeTail<T>>,
}

/// Puts a value into the queue of this number by the seat of the same number. The value comes back where memory was refused, and where
/// there is no such queue.
pub fn put_at<T: Drop, R: Wait>(
    rt: &R,
    queues: &[FreeQueue<T>],
    tails: &mut Vec<FreeTail<T>>,
    number: u32,
    value: T,
) -> Result<(), T>
    requires seats { map (λ tail. tail.queue) tails.old.items ≡ map (λ queue. queue.name) queues.now }
    ensures puts { OnOk result (PutAt number value tails.old.items tails.new.items) }
    ensures refused { IfErr result (λ back. (back ≡ value) × (tails.new.items ≡ tails.old.items)) }
    ensures seats { map seat_of tails.new.items ≡ map seat_of tails.old.items }
{
    let place = number as usize;
    if place >= queues.len() || place >= tails.len() {
        return Err(value);
    }
    match queues[place].put(rt, &mut tails[place], value) {
        Ok(()) => Ok(()),
        Err(Memory(value)) => Err(value),
    }
}
