//! A configuration with many equal tenants and pipelines, and a script that brings records to all of them.

use std::alloc::{AllocError, Global};

const RECORD: &str =
    "offer 0 {\"type\":\"patchset-created\",\"change\":{\"project\":\"demo\",\"branch\":\"master\",\"number\":7},\"patchSet\":{\"number\":1}}\ntake 0\n";

/// So many tenants that list the project `demo` under one connection, each with so many pipelines that ask for new patch
/// sets.
pub fn configuration(alloc: Global, each: u32) -> Result<String, AllocError> {
    let tenants = numbered(
        alloc,
        each,
        "{\"name\":\"t",
        "\",\"source\":{\"gerrit\":{\"untrusted-projects\":[\"demo\"]}}}",
    )?;
    let pipelines = numbered(
        alloc,
        each,
        "{\"pipeline\":{\"name\":\"p",
        "\",\"manager\":\"independent\",\"trigger\":{\"gerrit\":[{\"event\":\"patchset-created\"}]}}}",
    )?;
    let items = format!(in alloc; "\":[{pipelines}]")?;
    let lists = numbered(alloc, each, "\"t", items.as_str())?;
    format!(in alloc; "{{\"tenants\":[{tenants}],\"config\":{{{lists}}}}}")
}

// So many elements with commas between them: each has its number, from 0, between these texts.
fn numbered(alloc: Global, count: u32, front: &str, back: &str) -> Result<String, AllocError> {
    let mut elements = String::new(alloc);
    for number in 0..count {
        let comma = if number > 0 { "," } else { "" };
        write!(elements, "{comma}{front}{number}{back}")?;
    }
    Ok(elements)
}

/// The lines that bring so many records from their offer to all pipelines, one record after another, and how many lines
/// these are.
pub fn script_of(alloc: Global, records: u32, each: u32) -> Result<(String, u64), AllocError> {
    let round = round_of(alloc, each)?;
    let script = repeated(alloc, round.as_str(), records)?;
    Ok((script, lines_of(each).saturating_mul(u64::from(records))))
}

fn repeated(alloc: Global, round: &str, records: u32) -> Result<String, AllocError> {
    let mut script = String::new(alloc);
    for _ in 0..records {
        script.push_str(round)?;
    }
    Ok(script)
}

// How many lines bring one record its whole way.
fn lines_of(each: u32) -> u64 {
    let ways = u64::from(each).saturating_mul(u64::from(each));
    ways.saturating_mul(4)
        .saturating_add(u64::from(each).saturating_mul(3))
        .saturating_add(2)
}

// The lines of one record: it is offered, taken and sent; each tenant fetches, matches and gives it; each pipeline turns.
fn round_of(alloc: Global, each: u32) -> Result<String, AllocError> {
    let mut round = String::new(alloc);
    push_round(&mut round, each)?;
    Ok(round)
}

fn push_round(round: &mut String, each: u32) -> Result<(), AllocError> {
    round.push_str(RECORD)?;
    for _ in 0..each {
        round.push_str("send 0\n")?;
    }
    for tenant in 0..each {
        push_tenant(round, tenant, each)?;
    }
    Ok(())
}

fn push_tenant(round: &mut String, tenant: u32, each: u32) -> Result<(), AllocError> {
    write!(round, "fetch {tenant} 1\nmatch {tenant}\n")?;
    for pipeline in 0..each {
        push_turns(round, tenant, pipeline)?;
    }
    Ok(())
}

fn push_turns(round: &mut String, tenant: u32, pipeline: u32) -> Result<(), AllocError> {
    write!(round, "give {tenant}\n")?;
    for _ in 0..3 {
        write!(round, "turn {tenant} {pipeline}\n")?;
    }
    Ok(())
}
