//! Times the reading of a large configuration: 16 tenants, each with the same 16 connections, with 16 pipelines and with
//! 4 rules in each pipeline for each connection. Its word is the number of projects that a tenant lists under each
//! connection.

use crate::clock::micros;
use anyhow::{Context, Result};
use gate_config::{Config, read_config};
use gate_rule::Pattern;
use serde_json::Value;
use std::alloc::{AllocError, Global};
use std::io::Print;
use std::time::{Clock, Instant};

const TENANTS: u32 = 16;

const CONNECTIONS: u32 = 16;

const PIPELINES: u32 = 16;

const RULES: u32 = 4;

/// How many distinct texts the patterns of a document have.
const TEXTS: u32 = 40;

pub(crate) fn time<R: Clock + Print>(rt: &R, alloc: Global, count: &str) -> Result<()> {
    let projects = count.parse::<u32>().context("the number of projects")?;
    let document = document(alloc, projects)?;
    time_document(rt, alloc, projects, document.as_str())
}

fn time_document<R: Clock + Print>(
    rt: &R,
    alloc: Global,
    projects: u32,
    document: &str,
) -> Result<()> {
    let read = by_config(rt, alloc, document.as_bytes())?;
    let (by_reading, by_freeing) = by_value(rt, alloc, document.as_bytes())?;
    let by_patterns = by_patterns(rt, alloc)?;
    println!(rt;
        "{projects} projects, {} bytes, {} tenants of {} connections, {} us by read_config, serde_json {by_reading} us to read and {by_freeing} us to free, patterns {by_patterns} us",
        document.len(),
        read.tenants,
        read.connections,
        read.micros
    )?;
    Ok(())
}

/// What the reading of a configuration takes, and how much of it there is.
#[derive(Clone, Copy)]
struct Read {
    micros: u64,
    tenants: usize,
    connections: usize,
}

fn by_config(clock: &impl Clock, alloc: Global, document: &[u8]) -> Result<Read> {
    let start = Instant::now(clock)?;
    let config = read_config(alloc, document)?;
    read_since(clock, start, &config)
}

fn read_since(clock: &impl Clock, start: Instant, config: &Config) -> Result<Read> {
    Ok(Read {
        micros: micros(start.elapsed(clock)?),
        tenants: config.tenants().len(),
        connections: config.connections().len(),
    })
}

// What serde_json takes to read a value, and to free it.
fn by_value(clock: &impl Clock, alloc: Global, document: &[u8]) -> Result<(u64, u64)> {
    let start = Instant::now(clock)?;
    let value = Value::from_slice(alloc, document)?;
    freed_since(clock, start, value)
}

fn freed_since(clock: &impl Clock, start: Instant, value: Value) -> Result<(u64, u64)> {
    let read = Instant::now(clock);
    drop(value);
    let read = read?;
    let by_freeing = micros(read.elapsed(clock)?);
    Ok((micros(read.duration_since(start)), by_freeing))
}

fn by_patterns(clock: &impl Clock, alloc: Global) -> Result<u64> {
    let start = Instant::now(clock)?;
    build_patterns(alloc)?;
    Ok(micros(start.elapsed(clock)?))
}

fn document(alloc: Global, projects: u32) -> Result<String, AllocError> {
    let mut text = String::new(alloc);
    push_document(alloc, &mut text, projects)?;
    Ok(text)
}

fn push_document(alloc: Global, text: &mut String, projects: u32) -> Result<(), AllocError> {
    text.push_str("{\"tenants\":[")?;
    for tenant in 0..TENANTS {
        push_tenant(text, tenant, projects)?;
    }
    text.push_str("],\"config\":{")?;
    for tenant in 0..TENANTS {
        push_items(alloc, text, tenant)?;
    }
    text.push_str("}}")
}

fn comma(number: u32) -> &'static str {
    if number > 0 { "," } else { "" }
}

fn push_tenant(text: &mut String, tenant: u32, projects: u32) -> Result<(), AllocError> {
    let comma = comma(tenant);
    write!(text, "{comma}{{\"name\":\"tenant{tenant}\",\"source\":{{")?;
    for connection in 0..CONNECTIONS {
        push_connection(text, connection, projects)?;
    }
    text.push_str("}}")
}

fn push_connection(text: &mut String, connection: u32, projects: u32) -> Result<(), AllocError> {
    let comma = comma(connection);
    write!(
        text,
        "{comma}\"review{connection}\":{{\"untrusted-projects\":["
    )?;
    push_projects(text, projects)?;
    text.push_str("]}")
}

// The projects, in no order of their names.
fn push_projects(text: &mut String, projects: u32) -> Result<(), AllocError> {
    for number in 0..projects {
        let name = number.wrapping_mul(2_654_435_761);
        write!(text, "{}\"openstack/project-{name:08x}\"", comma(number))?;
    }
    Ok(())
}

fn push_items(alloc: Global, text: &mut String, tenant: u32) -> Result<(), AllocError> {
    write!(text, "{}\"tenant{tenant}\":[", comma(tenant))?;
    for pipeline in 0..PIPELINES {
        push_pipeline(alloc, text, pipeline)?;
    }
    text.push_str("]")
}

fn push_pipeline(alloc: Global, text: &mut String, pipeline: u32) -> Result<(), AllocError> {
    let comma = comma(pipeline);
    write!(
        text,
        "{comma}{{\"pipeline\":{{\"name\":\"pipeline{pipeline}\",\"manager\":\"independent\",\"trigger\":{{"
    )?;
    for connection in 0..CONNECTIONS {
        push_rules(alloc, text, pipeline, connection)?;
    }
    text.push_str("}}}")
}

fn push_rules(
    alloc: Global,
    text: &mut String,
    pipeline: u32,
    connection: u32,
) -> Result<(), AllocError> {
    let first = pipeline.wrapping_add(connection);
    write!(text, "{}\"review{connection}\":[", comma(connection))?;
    for number in 0..RULES {
        push_rule(alloc, text, number, first.wrapping_add(number) % TEXTS)?;
    }
    text.push_str("]")
}

fn push_rule(alloc: Global, text: &mut String, number: u32, branch: u32) -> Result<(), AllocError> {
    let branch = pattern_text(alloc, branch)?;
    write!(
        text,
        "{}{{\"event\":[\"patchset-created\",\"change-restored\"],\"branch\":\"{branch}\"}}",
        comma(number)
    )
}

fn pattern_text(alloc: Global, number: u32) -> Result<String, AllocError> {
    format!(in alloc; "^(master|stable/series-{number}[a-z]*)$")
}

// Each distinct pattern of a document.
fn build_patterns(alloc: Global) -> Result<()> {
    for number in 0..TEXTS {
        Pattern::new(alloc, pattern_text(alloc, number)?.as_str())?;
    }
    Pattern::new(alloc, "patchset-created")?;
    Pattern::new(alloc, "change-restored")?;
    Ok(())
}
