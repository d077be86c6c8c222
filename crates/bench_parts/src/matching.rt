//! Times the matching of events in batches, beside that by each rule by itself. Its words: a file with a configuration, or several
//! joined by commas, which are its generations; a file of records, one a line, which are of the connections in turn and by the
//! generations in turn; and how many events a batch has.

mod batches;
mod load;
mod plain;
mod timing;

use self::load::{Load, read_load};
use self::timing::{Time, Way, timed};
use anyhow::{Context, Result, bail};
use gate_config::{Generations, read_generations};
use gate_match::Program;
use gate_record::TenantId;
use std::alloc::Global;
use std::fs;
use std::fs::File;
use std::io::Print;
use std::rt::Files;
use std::time::CpuClock;

/// The tenant whose rules are timed.
const TENANT: TenantId = TenantId(0);

pub(crate) fn time<R: Files<File = File> + CpuClock + AllocGlobal + Print>(
    rt: &R,
    files: &str,
    records: &str,
    size: &str,
) -> Result<()> {
    let size = size.parse::<usize>().context("the size of a batch")?;
    let times = compare_files(rt, files, records, size)?;
    println!(rt;
        "{} selected: {} rounds in {} us by gate_match, {} rounds in {} us by each rule",
        times.selected,
        times.batches.rounds,
        times.batches.micros,
        times.rules.rounds,
        times.rules.micros
    )?;
    Ok(())
}

/// How many events pipelines select in a round, and what rounds take by either way.
#[derive(Clone, Copy)]
struct Compared {
    selected: u64,
    batches: Time,
    rules: Time,
}

fn compare_files<R: Files<File = File> + CpuClock + AllocGlobal>(
    rt: &R,
    files: &str,
    records: &str,
    size: usize,
) -> Result<Compared> {
    let documents = read_documents(rt, files)?;
    let records = fs::read_to_string(rt, records)?;
    compare(rt, rt.alloc(), documents.as_slice(), records.as_str(), size)
}

fn read_documents<R: Files<File = File> + AllocGlobal>(
    rt: &R,
    files: &str,
) -> Result<Vec<Vec<u8>>> {
    let mut documents = Vec::new(rt.alloc());
    for file in files.split(',') {
        documents.push(fs::read(rt, file)?)?;
    }
    Ok(documents)
}

fn compare(
    clock: &impl CpuClock,
    alloc: Global,
    documents: &[Vec<u8>],
    records: &str,
    size: usize,
) -> Result<Compared> {
    let Ok(gens) = read_generations(alloc, documents) else {
        bail!("the configuration is refused");
    };
    compare_on(clock, alloc, &gens, records, size)
}

fn compare_on(
    clock: &impl CpuClock,
    alloc: Global,
    gens: &Generations,
    records: &str,
    size: usize,
) -> Result<Compared> {
    let load = read_load(alloc, records, gens)?;
    let program = Program::new(alloc, gens, TENANT)?;
    both(
        clock,
        alloc,
        &Way::Batches(&program, size),
        &Way::Rules(gens),
        &load,
    )
}

// A first round isn't timed. All other ones are to select as many events.
fn both(
    clock: &impl CpuClock,
    alloc: Global,
    batches: &Way<'_, '_>,
    rules: &Way<'_, '_>,
    load: &Load,
) -> Result<Compared> {
    let selected = batches.round(alloc, load)?;
    let batches = timed(clock, alloc, batches, load, selected)?;
    let rules = timed(clock, alloc, rules, load, selected)?;
    Ok(Compared {
        selected,
        batches,
        rules,
    })
}
