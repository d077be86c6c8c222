//! Feeds in memory.
use gate_record::{Memory, Record};
use gate_run::{FeedStep, RecordFeed};
use std::alloc::Global;
use std::sync::Wait;

/// A new patch set of a change.
pub const LINE: &str =
    "{\"type\":\"patchset-created\",\"change\":{\"project\":\"demo\",\"branch\":\"master\",\"number\":7},\"patchSet\":{\"number\":1}}";

/// A feed that has one record so many times. It never fails.
#[derive(Drop)]
pub struct Repeated {
    alloc: Global,
    record: Record,
    left: u32,
}

impl Repeated {
    pub fn new(alloc: Global, count: u32) -> Result<Repeated, Memory> {
        Ok(Repeated {
            alloc,
            record: record(alloc)?,
            left: count,
        })
    }
}

/// The record of `LINE`.
pub fn record(alloc: Global) -> Result<Record, Memory> {
    let bytes = gate_record::Sequence::new(LINE.as_bytes().to_vec(alloc)?);
    Ok(Record::Line(bytes))
}

impl RecordFeed for Repeated {
    ghost use Rattle.std.specs.Prelude.{None};

    ghost to_come = { λ feed. None };

    ghost fault_count = { λ feed. 0 };

    fn next<R: Wait>(&mut self, _rt: &R) -> FeedStep {
        if self.left == 0 {
            return FeedStep::Ended;
        }
        match self.record.copy(self.alloc) {
            Ok(record) => {
                self.left -= 1;
                FeedStep::Got(record)
            }
            Err(_) => FeedStep::Memory,
        }
    }

    fn faults(&self) -> u64 {
        0
    }
}
