//! A run whose feeds have nothing for a while.
use crate::documents::configuration;
use crate::running::{Silent, processed, run_feeds};
use anyhow::Result;
use gate_run::{FeedStep, RecordFeed};
use std::alloc::Global;
use std::sync::Wait;
use std::thread;
use std::thread::Threads;
use std::time::{Clock, Duration};

// How many connections wait.
const CONNECTIONS: u32 = 4;

/// A feed without records, which waits before it says so.
#[derive(Drop)]
struct Blocked<C> {
    clock: C,
    seconds: u64,
}

impl<C: Clock> RecordFeed for Blocked<C> {
    ghost use Rattle.std.specs.Prelude.{None};

    ghost to_come = { λ feed. None };

    ghost fault_count = { λ feed. 0 };

    fn next<R: Wait>(&mut self, _rt: &R) -> FeedStep {
        thread::sleep(&self.clock, Duration::from_secs(self.seconds));
        FeedStep::Ended
    }

    fn faults(&self) -> u64 {
        0
    }
}

/// Runs connections whose feeds block for so many seconds and then end.
pub fn wait<R: Threads + Wait + Clock + Sync, C: Clock + Copy + Drop + Send>(
    rt: &R,
    alloc: Global,
    clock: C,
    seconds: u64,
) -> Result<()> {
    let gens = configuration(alloc, CONNECTIONS)?;
    let mut feeds = Vec::new(alloc);
    for _ in 0..CONNECTIONS {
        feeds.push(Blocked { clock, seconds })?;
    }
    processed(&run_feeds(rt, alloc, &gens, feeds, &Silent)?)?;
    Ok(())
}
