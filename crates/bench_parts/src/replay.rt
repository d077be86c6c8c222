//! Times `replay` of scripts. Its words: how many records are offered, and how many tenants there are, each with so many pipelines; or, as
//! the second word, `independent` or `dependent`, for one pipeline of that manager whose items are reset, taken out and have results,
//! or `mixed`, for sixteen generations of a configuration that come into force one after another while records are offered.

mod documents;
mod mixed;
mod queues;

use self::documents::{configuration, script_of};
use self::mixed::{mixed_configurations, mixed_script};
use self::queues::{queue_configuration, queue_script};
use crate::clock::micros;
use anyhow::{Context, Result, bail};
use gate_core::replay;
use std::alloc::{AllocError, Global};
use std::io::Print;
use std::time::{Clock, Instant};

pub(crate) fn time<R: Clock + Print>(rt: &R, alloc: Global, count: &str, kind: &str) -> Result<()> {
    let records = count.parse::<u32>().context("the number of records")?;
    let played = time_replay(rt, alloc, kind, records)?;
    let micros = played.micros;
    let rate = played.lines.saturating_mul(1_000_000) / micros.max(1);
    println!(rt;
        "{kind}: {records} records, {micros} us, {rate} lines a second, {} bytes printed",
        played.printed
    )?;
    Ok(())
}

/// How many lines a script has, what its replay takes, and how much it prints.
#[derive(Clone, Copy)]
struct Played {
    lines: u64,
    micros: u64,
    printed: usize,
}

fn time_replay(clock: &impl Clock, alloc: Global, kind: &str, records: u32) -> Result<Played> {
    let (documents, script) = match kind {
        "mixed" => mixed_documents(alloc, records)?,
        "independent" | "dependent" => queue_documents(alloc, kind, records)?,
        _ => way_documents(
            alloc,
            kind.parse::<u32>().context("the number of tenants")?,
            records,
        )?,
    };
    time_documents(clock, alloc, documents.as_slice(), &script)
}

fn time_documents(
    clock: &impl Clock,
    alloc: Global,
    documents: &[Vec<u8>],
    script: &Script,
) -> Result<Played> {
    let start = Instant::now(clock)?;
    let printed = replayed(alloc, documents, script.0.as_bytes())?;
    Ok(Played {
        lines: script.1,
        micros: micros(start.elapsed(clock)?),
        printed,
    })
}

fn replayed(alloc: Global, documents: &[Vec<u8>], script: &[u8]) -> Result<usize> {
    match replay(alloc, documents, script) {
        Ok(text) => Ok(text.len()),
        Err(_) => bail!("the script isn't replayed"),
    }
}

// A script, and how many lines it has.
type Script = (String, u64);

// Generations of a configuration, a document each, and a script.
type Documents = (Vec<Vec<u8>>, Script);

fn queue_documents(alloc: Global, kind: &str, changes: u32) -> Result<Documents, AllocError> {
    let script = queue_script(alloc, changes, kind == "dependent")?;
    Ok((one(alloc, queue_configuration(alloc, kind)?)?, script))
}

fn way_documents(alloc: Global, each: u32, records: u32) -> Result<Documents, AllocError> {
    let script = script_of(alloc, records, each)?;
    Ok((one(alloc, configuration(alloc, each)?)?, script))
}

fn mixed_documents(alloc: Global, records: u32) -> Result<Documents, AllocError> {
    let script = mixed_script(alloc, records)?;
    Ok((mixed_configurations(alloc)?, script))
}

fn one(alloc: Global, document: String) -> Result<Vec<Vec<u8>>, AllocError> {
    let mut documents = Vec::new(alloc);
    documents.push(document.into_bytes())?;
    Ok(documents)
}
