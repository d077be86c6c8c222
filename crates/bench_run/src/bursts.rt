//! Runs in which a pipeline is held while a burst of events comes to wait for it.
use crate::documents::one_generation;
use crate::running::run_feeds;
use anyhow::Result;
use gate_config::Generations;
use gate_core::{PipelineReport, RunReport};
use gate_pipeline::Pipeline;
use gate_record::{PipelineId, Record, Sequence, TenantId};
use gate_run::{FeedStep, Gate, RecordFeed};
use std::alloc::Global;
use std::sync::Wait;
use std::sync::atomic::{AtomicU32, Ordering};
use std::thread;
use std::thread::Threads;
use std::time::Clock;

// How many events come to wait.
const BURST: u32 = 200_000;

// A record has so many lines of comment, so that what waits is large beside the numbers that are kept of it.
const COMMENT: u32 = 32;

// The pipeline that is held, by number.
const HELD: u32 = 0;

// Two pipelines that select each record. No job runs there, so nothing is kept of an event but its number.
const CONFIGURATION: &str = r#"{
    "tenants": [{"name": "main", "source": {"gerrit": {"untrusted-projects": ["demo"]}}}],
    "config": {"main": [
        {"pipeline": {"name": "held", "manager": "independent", "trigger": {"gerrit": [{"event": "patchset-created"}]}}},
        {"pipeline": {"name": "free", "manager": "independent", "trigger": {"gerrit": [{"event": "patchset-created"}]}}}
    ]}
}"#;

/// How many events each pipeline has begun to process. As a gate it holds the one pipeline before a burst until the other has begun
/// with all of it. An event is given to the one that is held first, so as many wait there then.
#[derive(Drop)]
struct Begun {
    held: AtomicU32,
    free: AtomicU32,
}

impl Gate for Begun {
    fn before<R: Wait>(&self, rt: &R, _tenant: TenantId, pipeline: PipelineId, _state: &Pipeline) {
        if pipeline.0 != HELD {
            self.free.fetch_add(1, Ordering::SeqCst);
            return;
        }
        let before = self.held.fetch_add(1, Ordering::SeqCst);
        if before % BURST != 0 {
            return;
        }
        let all = before.saturating_add(BURST);
        for _ in rt.forever() {
            if self.free.load(Ordering::SeqCst) >= all {
                break;
            }
            thread::yield_now();
        }
    }
}

/// A feed that has one record so many times. Between two bursts it has none until the pipeline that is held has come to the last
/// record of the first one.
#[derive(Drop)]
struct Bursts<'a> {
    alloc: Global,
    record: Record,
    next: u32,
    count: u32,
    begun: &'a Begun,
}

impl<'a> RecordFeed for Bursts<'a> {
    ghost use Rattle.std.specs.Prelude.{None};

    ghost to_come = { λ feed. None };

    ghost fault_count = { λ feed. 0 };

    fn next<R: Wait>(&mut self, _rt: &R) -> FeedStep {
        if self.next >= self.count {
            return FeedStep::Ended;
        }
        if self.next % BURST == 0 && self.begun.held.load(Ordering::SeqCst) < self.next {
            return FeedStep::Pending;
        }
        match self.record.copy(self.alloc) {
            Ok(record) => {
                self.next += 1;
                FeedStep::Got(record)
            }
            Err(_) => FeedStep::Memory,
        }
    }

    fn faults(&self) -> u64 {
        0
    }
}

/// Runs so many bursts, and says whether both pipelines have processed all events in order.
pub fn run<R: Threads + Wait + Clock + Sync>(rt: &R, alloc: Global, bursts: u32) -> Result<String> {
    let gens = one_generation(alloc, CONFIGURATION)?;
    let begun = Begun {
        held: AtomicU32::new(0),
        free: AtomicU32::new(0),
    };
    let count = BURST.saturating_mul(bursts);
    let report = run_bursts(rt, alloc, &gens, &begun, count)?;
    let has_passed = report.pipelines.as_slice().iter().all(|tenant| tenant
        .as_slice()
        .iter()
        .all(|it| is_whole(it, count)));
    let verdict = if has_passed { "passed" } else { "FAILED" };
    Ok(format!(in alloc; "{verdict}: {bursts} times {BURST} events waited for a pipeline")?)
}

fn run_bursts<R: Threads + Wait + Clock + Sync>(
    rt: &R,
    alloc: Global,
    gens: &Generations,
    begun: &Begun,
    count: u32,
) -> Result<RunReport> {
    let mut feeds = Vec::new(alloc);
    feeds.push(Bursts {
        alloc,
        record: record(alloc)?,
        next: 0,
        count,
        begun,
    })?;
    run_feeds(rt, alloc, gens, feeds, begun)
}

// A new patch set, with its comment.
fn record(alloc: Global) -> Result<Record> {
    let mut line = String::new(alloc);
    line.push_str(
        r#"{"type":"patchset-created","change":{"project":"demo","number":7},"comment":""#,
    )?;
    for _ in 0..COMMENT {
        line.push_str("a line of thirty-two characters.")?;
    }
    line.push_str(r#""}"#)?;
    Ok(Record::Line(Sequence::new(line.into_bytes())))
}

// Whether a pipeline is finished and has processed so many records, each once and in order.
fn is_whole(pipeline: &PipelineReport, count: u32) -> bool {
    pipeline.finished
        && pipeline.done.len() == count as usize
        && (0u64..)
            .zip(pipeline.done.as_slice())
            .all(|(number, stamp)| stamp.number == number)
}
