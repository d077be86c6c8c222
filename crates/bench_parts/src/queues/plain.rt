//! Values through plain queues.
use anyhow::Result;
use crossbeam_queue::{ArrayQueue, SegQueue};
use std::alloc::Global;
use std::sync::Wait;
use std::thread;
use std::thread::Threads;
use std::time::{Clock, Duration, Instant};

/// A plain queue, with a bound or without one.
pub trait Plain {
    /// Whether there was room for the value.
    fn put<R: Wait>(&self, rt: &R, value: u64) -> bool;

    fn take<R: Wait>(&self, rt: &R) -> Option<u64>;
}

impl Plain for ArrayQueue<u64> {
    fn put<R: Wait>(&self, rt: &R, value: u64) -> bool {
        self.push(rt, value).is_ok()
    }

    fn take<R: Wait>(&self, rt: &R) -> Option<u64> {
        self.pop(rt)
    }
}

impl Plain for SegQueue<u64> {
    fn put<R: Wait>(&self, rt: &R, value: u64) -> bool {
        self.push(rt, value).is_ok()
    }

    fn take<R: Wait>(&self, rt: &R) -> Option<u64> {
        self.pop(rt)
    }
}

/// The time in which so many senders put `each` values each and one thread takes them all.
pub fn run<Q: Plain + Sync, R: Threads + Wait + Clock + Sync>(
    rt: &R,
    alloc: Global,
    queue: &Q,
    senders: usize,
    each: u64,
) -> Result<Duration> {
    let all = each.saturating_mul(senders as u64);
    let start = Instant::now(rt)?;
    let (put, _) = thread::join(
        rt,
        || thread::map_indices(rt, alloc, senders, &|_| put_all(rt, queue, each)),
        || take_all(rt, queue, all),
    );
    put?;
    Ok(start.elapsed(rt)?)
}

fn put_all<Q: Plain, R: Wait>(rt: &R, queue: &Q, each: u64) -> u64 {
    let mut next = 0;
    for _ in rt.forever() {
        if next >= each {
            break;
        }
        if queue.put(rt, next) {
            next += 1;
        } else {
            thread::yield_now();
        }
    }
    next
}

fn take_all<Q: Plain, R: Wait>(rt: &R, queue: &Q, all: u64) -> u64 {
    let mut taken = 0;
    for _ in rt.forever() {
        if taken >= all {
            break;
        }
        match queue.take(rt) {
            Some(_) => taken += 1,
            None => thread::yield_now(),
        }
    }
    taken
}
