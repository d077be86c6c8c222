//! Matches a load in batches, as a tenant's worker does.

use super::load::Load;
use anyhow::{Result, bail};
use gate_intern::{Columns, MAX_ROWS};
use gate_match::Program;
use gate_record::{Event, Shared};
use std::alloc::Global;

/// How many events pipelines select of batches of this size.
pub(crate) fn selected(
    alloc: Global,
    program: &Program<'_>,
    load: &Load,
    size: usize,
) -> Result<u64> {
    let mut selected: u64 = 0;
    let size = size.max(1);
    let numbers = load.gens.chunks(size).zip(load.conns.chunks(size));
    for (events, (gens, conns)) in load.events.chunks(size).zip(numbers) {
        selected = selected.saturating_add(selected_of(alloc, program, events, gens, conns)?);
    }
    Ok(selected)
}

fn selected_of(
    alloc: Global,
    program: &Program<'_>,
    events: &[Shared<Event>],
    gens: &[u32],
    conns: &[u32],
) -> Result<u64> {
    if events.len() > MAX_ROWS || gens.len() != events.len() || conns.len() != events.len() {
        bail!("a batch has at most 256 events");
    }
    let columns = Columns::build(alloc, events)?;
    let masks = program.select(alloc, &columns, gens, conns)?;
    Ok(marked(masks.as_slice()))
}

fn marked(masks: &[Vec<u32>]) -> u64 {
    let mut marked: u64 = 0;
    for mask in masks {
        for word in mask {
            marked = marked.saturating_add(u64::from(*word != 0));
        }
    }
    marked
}
