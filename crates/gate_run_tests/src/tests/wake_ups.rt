//! That a wake-up isn't owed for ever.
use gate_pipeline::Pipeline;
use gate_record::{Memory, PipelineId, Record, TenantId};
use gate_run::{FeedStep, Gate, RecordFeed};
use gate_test_lines::record_of;
use gate_test_runs::{FOREIGN, ONE, Run, SEVENTH};
use std::alloc::Global;
use std::sync::Wait;
use std::sync::atomic::{AtomicBool, Ordering};
use std::test::Fail;

// Which record is selected: so many stand before it that its forwarder is far behind its reader.
const SELECTED_AT: u64 = 4_000;

// How many records the feed has at the most.
const MOST: u64 = 400_000;

// A feed that always has one more record, until the selected one was seen by its pipeline, or it has given up.
#[derive(Drop)]
struct Endless<'a> {
    alloc: Global,
    seen: &'a AtomicBool,
    given: u64,
}

impl<'a> Endless<'a> {
    fn record(&self) -> Result<Record, Memory> {
        let line = if self.given == SELECTED_AT {
            SEVENTH
        } else {
            FOREIGN
        };
        Ok(record_of(self.alloc, line)?)
    }
}

impl<'a> RecordFeed for Endless<'a> {
    ghost use Rattle.std.specs.Prelude.{None};

    ghost to_come = { λ feed. None };

    ghost fault_count = { λ feed. 0 };

    fn next<R: Wait>(&mut self, _rt: &R) -> FeedStep {
        self.given = self.given.saturating_add(1);
        if self.given > MOST || self.seen.load(Ordering::SeqCst) {
            return FeedStep::Ended;
        }
        match self.record() {
            Ok(record) => FeedStep::Got(record),
            Err(Memory) => FeedStep::Memory,
        }
    }

    fn faults(&self) -> u64 {
        0
    }
}

// A gate that says that an action is seen.
#[derive(Drop)]
struct Sees<'a> {
    seen: &'a AtomicBool,
}

impl<'a> Gate for Sees<'a> {
    fn before<R: Wait>(&self, _: &R, _: TenantId, _: PipelineId, _: &Pipeline) {
        self.seen.store(true, Ordering::SeqCst);
    }
}

#[test]
fn an_event_is_seen_though_others_come_behind_it(rt: HostRuntime) -> Result<(), Fail> {
    let seen = AtomicBool::new(false);
    let endless = Endless {
        alloc: rt.alloc(),
        seen: &seen,
        given: 0,
    };
    let run = Run::without_posts(rt.alloc(), &[ONE])?;
    let accepted = run.serve(&rt, endless, &Sees { seen: &seen })?.accepted()?;
    assert!(&rt; accepted < MOST);
    Ok(())
}
