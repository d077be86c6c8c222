//! A configuration of sixteen generations and connections, and a script with records and renewals for it.

use std::alloc::{AllocError, Global};

// How many connections there are, and how many records come before each mark.
const CONNECTIONS: u32 = 16;

const ROUND: u32 = 64;

const GENERATIONS: u32 = 16;

/// Sixteen generations, two by turns: one asks for new patch sets of `demo`, the other for those of `docs`. Each has one tenant with
/// sixteen connections and one pipeline.
pub fn mixed_configurations(alloc: Global) -> Result<Vec<Vec<u8>>, AllocError> {
    let mut documents = Vec::new(alloc);
    for generation in 0..GENERATIONS {
        documents.push(mixed_configuration(alloc, project_of(generation))?.into_bytes())?;
    }
    Ok(documents)
}

fn project_of(number: u32) -> &'static str {
    if number % 2 == 0 { "demo" } else { "docs" }
}

fn mixed_configuration(alloc: Global, project: &str) -> Result<String, AllocError> {
    let mut document = String::new(alloc);
    push_configuration(&mut document, project)?;
    Ok(document)
}

fn push_configuration(document: &mut String, project: &str) -> Result<(), AllocError> {
    document.push_str("{\"tenants\":[{\"name\":\"main\",\"source\":{")?;
    for conn in 0..CONNECTIONS {
        push_comma(document, conn)?;
        write!(
            document,
            "\"g{conn}\":{{\"untrusted-projects\":[\"{project}\"]}}"
        )?;
    }
    document.push_str(
        "}}],\"config\":{\"main\":[{\"pipeline\":{\"name\":\"check\",\"manager\":\"independent\",\"trigger\":{",
    )?;
    for conn in 0..CONNECTIONS {
        push_comma(document, conn)?;
        write!(document, "\"g{conn}\":[{{\"event\":\"patchset-created\"}}]")?;
    }
    document.push_str("}}}]}}")
}

fn push_comma(document: &mut String, number: u32) -> Result<(), AllocError> {
    if number > 0 {
        document.push_str(",")?;
    }
    Ok(())
}

/// The lines that bring so many records to the pipeline, in rounds of 64, and how many lines these are. The records are of the
/// connections in turn, and of both projects; behind each round one connection moves on to its next generation, so a batch has
/// events of several.
pub fn mixed_script(alloc: Global, records: u32) -> Result<(String, u64), AllocError> {
    let mut script = String::new(alloc);
    let rounds = records / ROUND;
    for round in 0..rounds {
        push_round(&mut script, round)?;
    }
    Ok((script, u64::from(rounds).saturating_mul(LINES)))
}

// How many lines a round has: four for each record and three turns, two for a mark, and two for the batch.
const LINES: u64 = 64 * 7 + 4;

fn push_round(script: &mut String, round: u32) -> Result<(), AllocError> {
    for record in 0..ROUND {
        push_record(script, round, record)?;
    }
    let conn = round % CONNECTIONS;
    write!(script, "renew {conn}\ntake {conn}\n")?;
    script.push_str("fetch 0 256\nmatch 0\n")?;
    for _ in 0..ROUND {
        script.push_str("give 0\nturn 0 0\nturn 0 0\nturn 0 0\n")?;
    }
    Ok(())
}

fn push_record(script: &mut String, round: u32, record: u32) -> Result<(), AllocError> {
    let (conn, project) = (record % CONNECTIONS, project_of(round.wrapping_add(record)));
    write!(
        script,
        "offer {conn} {{\"type\":\"patchset-created\",\"change\":{{\"project\":\"{project}\",\"branch\":\"master\",\"number\":{record}}},\"patchSet\":{{\"number\":1}}}}\ntake {conn}\nsend {conn}\n"
    )
}
