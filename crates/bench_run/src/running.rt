//! Runs in threads.
ghost use Rattle.std.specs.Prelude.{◌-◌, ◌<◌, ◌^◌, All};

use crate::documents::configuration;
use crate::repeated::Repeated;
use anyhow::{Context, Result, bail};
use gate_config::Generations;
use gate_core::RunReport;
use gate_run::{Gate, Posts, RecordFeed, serve};
use std::alloc::Global;
use std::sync::Wait;
use std::thread::Threads;
use std::time::Clock;

/// A gate that does nothing.
#[derive(Drop)]
pub struct Silent;

impl Gate for Silent {}

/// Runs so many connections with so many records each, and says how many trigger events were processed.
pub fn serve_all<R: Threads + Wait + Clock + Sync>(
    rt: &R,
    alloc: Global,
    connections: u32,
    records: u32,
) -> Result<u64> {
    let gens = configuration(alloc, connections)?;
    let mut feeds = Vec::new(alloc);
    for _ in 0..connections {
        feeds.push(Repeated::new(alloc, records).ok().context("memory")?)?;
    }
    processed(&run_feeds(rt, alloc, &gens, feeds, &Silent)?)
}

/// Runs over these feeds, one for each connection, and gives the report.
pub fn run_feeds<F: RecordFeed + Drop + Send, G: Gate + Sync, R: Threads + Wait + Clock + Sync>(
    rt: &R,
    alloc: Global,
    gens: &Generations,
    feeds: Vec<F>,
    gate: &G,
) -> Result<RunReport>
    requires few { All (λ feed. F.fault_count feed < 2 ^ 64 - 1) feeds.items }
{
    if feeds.len() != gens.first().connections().len() {
        bail!("a feed for each connection");
    }
    let (_posts, inbox) = Posts::open(alloc, gens).ok().context("memory")?;
    let served = serve(rt, alloc, gens, feeds, inbox, gate)
        .ok()
        .context("the run")?;
    Ok(served.report)
}

/// How many trigger events were processed by pipelines that are all finished.
pub fn processed(report: &RunReport) -> Result<u64> {
    let mut processed = 0u64;
    for tenant in report.pipelines.as_slice() {
        for pipeline in tenant.as_slice() {
            if !pipeline.finished {
                bail!("a pipeline isn't finished");
            }
            processed = processed.saturating_add(pipeline.done.len() as u64);
        }
    }
    Ok(processed)
}
