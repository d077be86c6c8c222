//! Times what the crates do, part by part, most of it beside a plain way of doing the same. Without words it prints nothing.
#![tactic(auto)]

mod clock;
mod config;
mod items;
mod matching;
mod queues;
mod records;
mod replay;

use anyhow::{Context, Result, bail};
use std::env;
use std::env::Args;
use std::fs::File;
use std::io::Print;
use std::rt::Files;
use std::sync::Wait;
use std::thread::Threads;
use std::time::{Clock, CpuClock};

/// The first word says what is timed, and those behind it are as its module says.
fn main(rt: HostRuntime) -> Result<()> {
    let mut words = env::args(&rt)?;
    match words.nth(1) {
        Some(part) => time(&rt, part.as_str(), &mut words),
        None => Ok(()),
    }
}

fn time<R>(rt: &R, part: &str, words: &mut Args) -> Result<()>
where
    R: Threads + Wait + Clock + CpuClock + Print + Files<File = File> + AllocGlobal + Sync,
{
    let first = word(words)?;
    let first = first.as_str();
    match part {
        "config" => config::time(rt, rt.alloc(), first),
        "items" => time_items(rt, first, words),
        "match" => time_matching(rt, first, words),
        "queue" => queues::time(rt, rt.alloc(), first),
        "records" => records::time(rt, rt.alloc(), first),
        "replay" => time_replay(rt, first, words),
        _ => bail!("nothing that is timed is called so"),
    }
}

fn time_items<R: Clock + Print + AllocGlobal>(rt: &R, count: &str, words: &mut Args) -> Result<()> {
    let manager = word(words)?;
    items::time(rt, rt.alloc(), count, manager.as_str())
}

fn time_matching<R: Files<File = File> + CpuClock + AllocGlobal + Print>(
    rt: &R,
    files: &str,
    words: &mut Args,
) -> Result<()> {
    let records = word(words)?;
    let size = word(words)?;
    matching::time(rt, files, records.as_str(), size.as_str())
}

fn time_replay<R: Clock + Print + AllocGlobal>(
    rt: &R,
    count: &str,
    words: &mut Args,
) -> Result<()> {
    let kind = word(words)?;
    replay::time(rt, rt.alloc(), count, kind.as_str())
}

fn word(words: &mut Args) -> Result<String> {
    words.next().context("a word more")
}
