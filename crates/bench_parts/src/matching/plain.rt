//! Matches a load event by event and rule by rule, the plain way beside that in batches.

use super::TENANT;
use super::load::Load;
use anyhow::Result;
use gate_config::{Config, Generations};
use gate_record::{ConnId, Event, Memory, PipelineId};
use gate_rule::Rule;
use std::alloc::Global;

/// How many events pipelines select, rule by rule.
pub(crate) fn selected(alloc: Global, gens: &Generations, load: &Load) -> Result<u64> {
    let mut selected: u64 = 0;
    for ((event, generation), conn) in load.events.iter().zip(&load.gens).zip(&load.conns) {
        let config = gens.generation(*generation);
        let pipelines = pipelines(alloc, config, event.get(), ConnId(*conn))?;
        selected = selected.saturating_add(pipelines);
    }
    Ok(selected)
}

// How many pipelines select an event.
fn pipelines(alloc: Global, config: &Config, event: &Event, conn: ConnId) -> Result<u64, Memory> {
    let mut selected: u64 = 0;
    if is_listed(config, event, conn) {
        for pipeline in 0..config.pipelines(TENANT).len() {
            let rules = config.rules(TENANT, PipelineId(pipeline as u32), conn);
            selected = selected.saturating_add(u64::from(meets_any(alloc, rules, event)?));
        }
    }
    Ok(selected)
}

fn is_listed(config: &Config, event: &Event, conn: ConnId) -> bool {
    match &event.project {
        Some(project) => config.belongs(TENANT, conn, project.as_str()),
        None => false,
    }
}

fn meets_any(alloc: Global, rules: &[Rule], event: &Event) -> Result<bool, Memory> {
    for rule in rules {
        if rule.matches(alloc, event)? {
            return Ok(true);
        }
    }
    Ok(false)
}
