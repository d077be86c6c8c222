//! Values through the shared queue without a bound, taken one by one or in batches.
ghost use Rattle.std.specs.Prelude.{◌≡◌, IfOk};
ghost use Rattle.gate_queue.specs.Seats.{IsTailOf, IsHeadOf, AreAllTailsOf};

use anyhow::{Context, Result};
use gate_queue::{FreeHead, FreeQueue, FreeTail, open_free};
use std::alloc::{AllocError, Global};
use std::sync::Wait;
use std::thread;
use std::thread::Threads;
use std::time::{Clock, Duration, Instant};

// A batch has at most so many values.
const BATCH: usize = 256;

/// How values are taken.
#[derive(Clone, Copy, Debug, PartialEq)]
pub enum Taking {
    Singly,
    InBatches,
}

/// The time in which so many senders put `each` values each and one thread takes them all.
pub fn run<R: Threads + Wait + Clock + Sync>(
    rt: &R,
    alloc: Global,
    senders: usize,
    each: u64,
    taking: Taking,
) -> Result<Duration> {
    let (queue, tails, head) = open_free(alloc, senders).ok().context("opening the queue")?;
    let shared = &queue;
    let all = each.saturating_mul(senders as u64);
    let start = Instant::now(rt)?;
    let (tails, _) = thread::join(
        rt,
        move || -> std::result::Result<Vec<FreeTail<u64>>, AllocError>
            requires { AreAllTailsOf shared.now tails.items }
        { thread::map_vec(rt, tails, &|tail| put_all(rt, shared, tail, each)) },
        move || -> FreeHead<u64>
            requires { IsHeadOf shared.now head }
        { take_all(rt, shared, head, all, taking) },
    );
    tails?;
    Ok(start.elapsed(rt)?)
}

fn put_all<R: Wait>(
    rt: &R,
    queue: &FreeQueue<u64>,
    mut tail: FreeTail<u64>,
    each: u64,
) -> FreeTail<u64>
    requires { IsTailOf queue.now tail }
{
    let mut next = 0;
    for _ in rt.forever() {
        if next >= each {
            break;
        }
        match queue.put(rt, &mut tail, next) {
            Ok(()) => next += 1,
            Err(_) => thread::yield_now(),
        }
    }
    tail
}

fn take_all<R: Wait>(
    rt: &R,
    queue: &FreeQueue<u64>,
    mut head: FreeHead<u64>,
    all: u64,
    taking: Taking,
) -> FreeHead<u64>
    requires { IsHeadOf queue.now head }
{
    let mut taken = 0u64;
    for _ in rt.forever() {
        if taken >= all {
            break;
        }
        let count = match taking {
            Taking::Singly => take_one(rt, queue, &mut head),
            Taking::InBatches => take_batch(rt, queue, &mut head),
        };
        if count == 0 {
            thread::yield_now();
        }
        taken = taken.saturating_add(count);
    }
    head
}

fn take_one<R: Wait>(rt: &R, queue: &FreeQueue<u64>, head: &mut FreeHead<u64>) -> u64
    requires { IsHeadOf queue.now head.old }
    ensures { head.new.queue ≡ head.old.queue }
{
    match queue.take(rt, head) {
        Some(_) => 1,
        None => 0,
    }
}

fn take_batch<R: Wait>(rt: &R, queue: &FreeQueue<u64>, head: &mut FreeHead<u64>) -> u64
    requires { IsHeadOf queue.now head.old }
    ensures { head.new.queue ≡ head.old.queue }
{
    let mut count = 0u64;
    for _taken in queue.take_some(rt, head, BATCH) {
        count = count.saturating_add(1);
    }
    count
}
