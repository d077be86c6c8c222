//! The events that the benchmark of matching matches, read from lines.

use anyhow::{Result, bail};
use gate_config::Generations;
use gate_record::{Event, Memory, Reading, Record, Sequence, Shared, read_record};
use std::alloc::Global;

/// Events, and of each the generation that forwarded it and its connection.
#[derive(Drop)]
pub(crate) struct Load {
    pub(crate) events: Vec<Shared<Event>>,
    pub(crate) gens: Vec<u32>,
    pub(crate) conns: Vec<u32>,
}

/// The events of these lines, of the connections in turn, and by the generations in turn.
pub(crate) fn read_load(alloc: Global, records: &str, gens: &Generations) -> Result<Load> {
    let events = read_events(alloc, records)?;
    let count = events.len();
    Ok(Load {
        events,
        gens: in_turn(alloc, count, gens.count())?,
        conns: in_turn(alloc, count, gens.first().connections().len() as u32)?,
    })
}

fn read_events(alloc: Global, records: &str) -> Result<Vec<Shared<Event>>> {
    let mut events = Vec::new(alloc);
    for line in records.lines() {
        events.push(read_event(alloc, line)?)?;
    }
    Ok(events)
}

// So many numbers, which rise from 0 and begin anew at the limit.
fn in_turn(alloc: Global, count: usize, limit: u32) -> Result<Vec<u32>, Memory> {
    let mut numbers = Vec::new(alloc);
    let mut next: u32 = 0;
    for _place in 0..count {
        numbers.push(next)?;
        next = next.saturating_add(1);
        if next >= limit {
            next = 0;
        }
    }
    Ok(numbers)
}

fn read_event(alloc: Global, line: &str) -> Result<Shared<Event>> {
    let record = Record::Line(Sequence::new(line.as_bytes().to_vec(alloc)?));
    match read_record(alloc, &record)? {
        Reading::Event(event) => Ok(Shared::new(alloc, event)?),
        Reading::Nothing(_) => bail!("a record is no event"),
    }
}
