//! Runs of many threads, with results that are posted, and renewals and stops that are asked for while they work.
use crate::mixed::{CONNECTIONS, GENERATIONS, Mixed, RECORDS, TENANTS, configuration};
use crate::wanted::{accepted, complete, renewals};
use anyhow::{Context, Result, bail};
use gate_config::{Generations, read_generations};
use gate_core::{EndCause, RunReport};
use gate_items::JobResult;
use gate_pipeline::Pipeline;
use gate_record::{Memory, PipelineId, TenantId, Text};
use gate_run::{Gate, Inbox, Posts, Served, serve};
use gate_source::StopCause;
use std::alloc::Global;
use std::sync::atomic::{AtomicU32, Ordering};
use std::sync::{Mutex, Wait};
use std::thread::Threads;
use std::time::Clock;

/// Before which action a stop is asked for, if at all.
pub const STOPS: [Option<u32>; 8] = [
    None,
    Some(0),
    Some(1),
    Some(10),
    Some(100),
    Some(1_000),
    Some(10_000),
    Some(100_000),
];

// One result is posted in so many actions.
const ACTIONS: u32 = 16;

// And the next generation is asked for in so many.
const RENEWAL: u32 = 499;

/// A gate that posts results of the build sets that it sees, and asks for the next generation and for a stop.
#[derive(Drop)]
struct Stresses {
    alloc: Global,
    posts: Mutex<Posts>,
    actions: AtomicU32,
    stop: Option<u32>,
}

impl Gate for Stresses {
    fn before<R: Wait>(&self, rt: &R, tenant: TenantId, pipeline: PipelineId, state: &Pipeline) {
        let action = self.actions.fetch_add(1, Ordering::SeqCst);
        if self.stop == Some(action) {
            let _ = self.posts.lock(rt).stop(StopCause::Caller);
        }
        if action % RENEWAL == RENEWAL - 1 {
            let _ = self.posts.lock(rt).renew();
        }
        if action % ACTIONS == 0 {
            if let Ok(Some(ended)) = first_ended(self.alloc, state) {
                let _ = self.posts.lock(rt).result(rt, tenant, pipeline, ended);
            }
        }
    }
}

// A result of the first item's job, if there is an item. One of five has failed.
fn first_ended(alloc: Global, state: &Pipeline) -> Result<Option<JobResult>, Memory> {
    let Some(item) = state.state().items().next() else {
        return Ok(None);
    };
    Ok(Some(JobResult {
        set: item.set,
        job: Text::copy(alloc, "build")?,
        success: item.set % 5 != 0,
    }))
}

/// Runs all records, with a stop if one is asked for, and says what came of it: how many pipelines are complete, of how many.
pub fn run<R: Threads + Wait + Clock + Sync>(
    rt: &R,
    alloc: Global,
    stop: Option<u32>,
) -> Result<String> {
    let gens = generations(alloc)?;
    let (posts, inbox) = Posts::open(alloc, &gens).ok().context("memory")?;
    let gate = Stresses {
        alloc,
        posts: Mutex::new(posts),
        actions: AtomicU32::new(0),
        stop,
    };
    let served = run_feeds(rt, alloc, &gens, inbox, &gate)?;
    told(alloc, stop, &served)
}

fn generations(alloc: Global) -> Result<Generations> {
    let mut documents = Vec::new(alloc);
    for generation in 0..GENERATIONS {
        documents.push(configuration(alloc, generation)?.into_bytes())?;
    }
    read_generations(alloc, documents.as_slice())
        .ok()
        .context("the configuration")
}

fn run_feeds<R: Threads + Wait + Clock + Sync>(
    rt: &R,
    alloc: Global,
    gens: &Generations,
    inbox: Inbox,
    gate: &Stresses,
) -> Result<Served<Mixed>>
    requires inbox { IsInboxFor gens.now.first inbox }
{
    let mut feeds = Vec::new(alloc);
    for connection in 0..CONNECTIONS {
        feeds.push(Mixed::new(alloc, connection))?;
    }
    if feeds.len() != gens.first().connections().len() {
        bail!("a feed for each connection");
    }
    serve(rt, alloc, gens, feeds, inbox, gate)
        .ok()
        .context("the run")
}

ghost use Rattle.gate_run_posts.specs.Ports.{IsInboxFor};

// What came of a run. It has failed where a pipeline isn't complete, a connection ended for a wrong cause, or nothing was
// reported.
fn told(alloc: Global, stop: Option<u32>, served: &Served<Mixed>) -> Result<String> {
    let complete = complete(&served.report);
    let accepted = accepted(&served.report);
    let renewals = renewals(&served.report);
    let has_passed = complete == TENANTS * 4
        && has_ended(&served.report, stop)
        && (stop.is_some() || is_whole(served, accepted));
    let verdict = if has_passed { "passed" } else { "FAILED" };
    let moment = match stop {
        None => format!(in alloc; "to the end")?,
        Some(action) => format!(in alloc; "a stop before action {action}")?,
    };
    Ok(format!(in alloc;
        "{verdict}: {moment}, {accepted} records accepted, {renewals} marks put, {complete} pipelines complete"
    )?)
}

// Whether all records were accepted, items were reported, and each connection came to a later generation.
fn is_whole(served: &Served<Mixed>, accepted: u64) -> bool {
    let connections = served.report.connections.as_slice();
    accepted == u64::from(CONNECTIONS * RECORDS)
        && has_reported(served)
        && connections
            .iter()
            .all(|it| !it.renewals.as_slice().is_empty())
}

// Whether each connection ended because its records did or, where one was asked for, because of a stop, which then has reached one
// of them at least.
fn has_ended(report: &RunReport, stop: Option<u32>) -> bool {
    let connections = report.connections.as_slice();
    let has_stopped = connections
        .iter()
        .any(|it| matches!(it.cause, EndCause::Stopped));
    has_stopped == stop.is_some()
        && connections.iter().all(|it| match it.cause {
            EndCause::Ended => it.accepted == u64::from(RECORDS),
            EndCause::Stopped => true,
            _ => false,
        })
}

// Whether the first two pipelines of each tenant, which have jobs, have reported items.
fn has_reported(served: &Served<Mixed>) -> bool {
    served.pipelines.iter().all(|tenant| tenant
        .iter()
        .take(2)
        .all(|it| !it.state().reported().is_empty()))
}
