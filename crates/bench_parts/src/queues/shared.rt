//! Values through the shared queue.
ghost use Rattle.std.specs.Prelude.{◌≡◌, IfOk};
ghost use Rattle.gate_queue.specs.Seats.{IsTailOf, IsHeadOf, AreAllTailsOf};

use super::PLACES;
use anyhow::{Context, Result};
use gate_queue::{EventQueue, Head, Tail};
use std::alloc::{AllocError, Global};
use std::sync::Wait;
use std::thread;
use std::thread::Threads;
use std::time::{Clock, Duration, Instant};

/// The time in which so many senders put `each` values each and one thread takes them all.
pub fn run<R: Threads + Wait + Clock + Sync>(
    rt: &R,
    alloc: Global,
    senders: usize,
    each: u64,
) -> Result<Duration> {
    let (queue, tails, head) = gate_queue::open(alloc, PLACES, senders)
        .ok()
        .context("opening the queue")?;
    let shared = &queue;
    let all = each.saturating_mul(senders as u64);
    let start = Instant::now(rt)?;
    let (tails, _) = thread::join(
        rt,
        move || -> std::result::Result<Vec<Tail<u64>>, AllocError>
            requires { AreAllTailsOf shared.now tails.items }
        { thread::map_vec(rt, tails, &|tail| put_all(rt, shared, tail, each)) },
        move || -> Head<u64>
            requires { IsHeadOf shared.now head }
        { take_all(rt, shared, head, all) },
    );
    tails?;
    Ok(start.elapsed(rt)?)
}

fn put_all<R: Wait>(rt: &R, queue: &EventQueue<u64>, mut tail: Tail<u64>, each: u64) -> Tail<u64>
    requires { IsTailOf queue.now tail }
{
    let mut next = 0;
    for _ in rt.forever() {
        if next >= each {
            break;
        }
        match queue.put(rt, &mut tail, next) {
            Ok(()) => next += 1,
            Err(_) => thread::yield_now(),
        }
    }
    tail
}

fn take_all<R: Wait>(rt: &R, queue: &EventQueue<u64>, mut head: Head<u64>, all: u64) -> Head<u64>
    requires { IsHeadOf queue.now head }
{
    let mut taken = 0;
    for _ in rt.forever() {
        if taken >= all {
            break;
        }
        match queue.take(rt, &mut head) {
            Some(_) => taken += 1,
            None => thread::yield_now(),
        }
    }
    head
}
