//! The same records by the steps of the core, in one thread.
use crate::documents::{TENANTS, configuration};
use crate::repeated::record;
use crate::running::processed;
use anyhow::Context;
use gate_core::{Step, play};
use gate_record::{ConnId, Memory, PipelineId, Queue, TenantId};
use std::alloc::Global;

/// Plays so many connections with so many records each, and says how many trigger events were processed.
pub fn play_all(alloc: Global, connections: u32, records: u32) -> anyhow::Result<u64> {
    let gens = configuration(alloc, connections)?;
    let steps = steps(alloc, connections, records).ok().context("memory")?;
    let played = play(alloc, &gens, steps).ok().context("the run")?;
    let report = played.world.report().ok().context("memory")?;
    processed(&report)
}

// The steps that bring record by record its whole way, and then the end marks.
fn steps(alloc: Global, connections: u32, records: u32) -> Result<Queue<Step>, Memory> {
    let mut steps = Queue::new(alloc);
    for _ in 0..records {
        for connection in 0..connections {
            steps.push(Step::Offer(ConnId(connection), record(alloc)?))?;
            push_way(&mut steps, ConnId(connection))?;
        }
    }
    for connection in 0..connections {
        steps.push(Step::Close(ConnId(connection)))?;
        push_way(&mut steps, ConnId(connection))?;
    }
    Ok(steps)
}

// The way of one entry: it is taken and sent to each tenant, which matches it and gives it to each pipeline.
fn push_way(steps: &mut Queue<Step>, connection: ConnId) -> Result<(), Memory> {
    steps.push(Step::Take(connection))?;
    for _ in 0..TENANTS {
        steps.push(Step::Send(connection))?;
    }
    for tenant in 0..TENANTS {
        push_tenant(steps, TenantId(tenant))?;
    }
    Ok(())
}

fn push_tenant(steps: &mut Queue<Step>, tenant: TenantId) -> Result<(), Memory> {
    steps.push(Step::Fetch(tenant, 1))?;
    steps.push(Step::Match(tenant))?;
    for pipeline in 0..TENANTS {
        steps.push(Step::Give(tenant))?;
        for _ in 0..3 {
            steps.push(Step::Turn(tenant, PipelineId(pipeline)))?;
        }
    }
    Ok(())
}
