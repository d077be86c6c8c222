//! A feed of records in memory, which tells contracts its records.

use gate_record::{Memory, Queue, Record};
use gate_run::{FeedStep, RecordFeed};
use gate_test_lines::record_of;
use std::alloc::Global;
use std::sync::Wait;

/// A feed of records that it has, and that it tells. It never fails.
#[derive(Drop)]
pub struct Feed {
    records: Queue<Record>,
}

impl Feed {
    /// A feed without records.
    pub fn empty(alloc: Global) -> Feed {
        Feed {
            records: Queue::new(alloc),
        }
    }

    /// Adds the record of a line.
    pub fn push(&mut self, alloc: Global, line: &str) -> Result<(), Memory> {
        self.records.push(record_of(alloc, line)?)?;
        Ok(())
    }

    /// The records of these lines.
    pub fn of(alloc: Global, lines: &[&str]) -> Result<Feed, Memory> {
        let mut feed = Feed::empty(alloc);
        for line in lines {
            feed.push(alloc, line)?;
        }
        Ok(feed)
    }

    /// The record of one line so many times.
    pub fn repeated(alloc: Global, line: &str, count: u32) -> Result<Feed, Memory> {
        let mut feed = Feed::empty(alloc);
        for _ in 0..count {
            feed.push(alloc, line)?;
        }
        Ok(feed)
    }
}

impl RecordFeed for Feed {
    ghost use Rattle.std.specs.Prelude.{Some};

    ghost to_come = { λ feed. Some feed.records };

    ghost fault_count = { λ feed. 0 };

    fn next<R: Wait>(&mut self, _rt: &R) -> FeedStep {
        match self.records.pop() {
            Some(record) => FeedStep::Got(record),
            None => FeedStep::Ended,
        }
    }

    fn faults(&self) -> u64 {
        0
    }
}
