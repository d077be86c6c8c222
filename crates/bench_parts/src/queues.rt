//! Times the shared queues beside the plain ones: the one with a bound beside `ArrayQueue`, and the one without beside `SegQueue`.
//! Its word is how many values each sender puts.

mod free;
mod plain;
mod shared;

use self::free::Taking;
use anyhow::{Context, Result};
use crossbeam_queue::{ArrayQueue, SegQueue};
use std::alloc::Global;
use std::io::Print;
use std::sync::Wait;
use std::thread::Threads;
use std::time::{Clock, Duration};

// The places of each queue that is timed.
const PLACES: usize = 4096;

pub(crate) fn time<R: Threads + Wait + Clock + Print + Sync>(
    rt: &R,
    alloc: Global,
    count: &str,
) -> Result<()> {
    let each = count.parse::<u64>().context("the number of values")?;
    for (name, senders) in [("pair", 1), ("four", 4)] {
        time_each(rt, alloc, name, senders, each)?;
    }
    Ok(())
}

fn time_each<R: Threads + Wait + Clock + Print + Sync>(
    rt: &R,
    alloc: Global,
    name: &str,
    senders: usize,
    each: u64,
) -> Result<()> {
    let took = plain::run(rt, alloc, &ArrayQueue::new(alloc, PLACES)?, senders, each)?;
    println!(rt; "{name} plain {}", per_second(senders, each, took))?;
    let took = shared::run(rt, alloc, senders, each)?;
    println!(rt; "{name} shared {}", per_second(senders, each, took))?;
    let took = plain::run(rt, alloc, &SegQueue::new(alloc)?, senders, each)?;
    println!(rt; "{name} plain-free {}", per_second(senders, each, took))?;
    let took = free::run(rt, alloc, senders, each, Taking::Singly)?;
    println!(rt; "{name} free {}", per_second(senders, each, took))?;
    let took = free::run(rt, alloc, senders, each, Taking::InBatches)?;
    println!(rt; "{name} batches {}", per_second(senders, each, took))?;
    Ok(())
}

// Values per second, when each sender put so many in this time.
fn per_second(senders: usize, each: u64, took: Duration) -> u64 {
    let all = each.saturating_mul(senders as u64);
    let millis = took
        .as_secs()
        .saturating_mul(1000)
        .saturating_add(u64::from(took.subsec_millis()));
    all.saturating_mul(1000) / millis.max(1)
}
