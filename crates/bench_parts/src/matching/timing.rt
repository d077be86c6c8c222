//! Measures the processor time of matching a load, in batches or rule by rule.

use super::load::Load;
use super::{batches, plain};
use crate::clock::micros;
use anyhow::{Result, bail};
use gate_config::Generations;
use gate_match::Program;
use std::alloc::Global;
use std::time::CpuClock;

/// So much processor time is enough for a measurement.
const ENOUGH: u64 = 100_000;

/// How the pipelines' events are found.
#[derive(Clone, Copy)]
pub(crate) enum Way<'p, 'c> {
    /// In batches of this size, by the rules of all pipelines at once.
    Batches(&'p Program<'c>, usize),
    /// Event by event, and rule by rule.
    Rules(&'c Generations),
}

impl Way<'_, '_> {
    /// How many events pipelines select of the load.
    pub(crate) fn round(&self, alloc: Global, load: &Load) -> Result<u64> {
        match self {
            Way::Batches(program, size) => batches::selected(alloc, program, load, *size),
            Way::Rules(gens) => plain::selected(alloc, gens, load),
        }
    }
}

/// What rounds over a load take.
#[derive(Clone, Copy)]
pub(crate) struct Time {
    pub(crate) rounds: u64,
    pub(crate) micros: u64,
}

/// The processor time of rounds, as many as are enough. Each is to select so many events.
pub(crate) fn timed(
    clock: &impl CpuClock,
    alloc: Global,
    way: &Way<'_, '_>,
    load: &Load,
    selected: u64,
) -> Result<Time> {
    let start = clock.thread_cpu_time()?;
    for rounds in 1..u64::MAX {
        if way.round(alloc, load)? != selected {
            bail!("the two ways don't select the same events");
        }
        let micros = micros(clock.thread_cpu_time()?.saturating_sub(start));
        if micros >= ENOUGH {
            return Ok(Time { rounds, micros });
        }
    }
    bail!("the clock stands")
}
