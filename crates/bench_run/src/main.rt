//! Times `serve`, and puts it under stress. Without words it prints nothing.
#![tactic(auto)]

mod bursts;
mod documents;
mod idle;
mod mixed;
mod playing;
mod repeated;
mod running;
mod stress;
mod wanted;

use anyhow::{Context, Result, bail};
use std::env;

/// The words: `serve` or `play`, how many connections there are, and how many records each of them has; or `idle` and a
/// number of seconds, for which feeds have nothing; or `stress`; or `bursts` and a number of bursts.
fn main(rt: HostRuntime) -> Result<()> {
    let mut words = env::args(&rt)?;
    let Some(kind) = words.nth(1) else {
        return Ok(());
    };
    match kind.as_str() {
        "serve" => {
            let (connections, records) = (number(words.next())?, number(words.next())?);
            let processed = running::serve_all(&rt, rt.alloc(), connections, records)?;
            println!(rt;
                "serve: {connections} connections, {records} records each, {processed} processed"
            )?;
        }
        "play" => {
            let (connections, records) = (number(words.next())?, number(words.next())?);
            let processed = playing::play_all(rt.alloc(), connections, records)?;
            println!(rt;
                "play: {connections} connections, {records} records each, {processed} processed"
            )?;
        }
        "idle" => {
            let seconds = number(words.next())?;
            idle::wait(&rt, rt.alloc(), rt, u64::from(seconds))?;
            println!(rt; "idle: {seconds} seconds")?;
        }
        "stress" => {
            for stop in stress::STOPS {
                let told = stress::run(&rt, rt.alloc(), stop)?;
                println!(rt; "{told}")?;
            }
        }
        "bursts" => {
            let told = bursts::run(&rt, rt.alloc(), number(words.next())?)?;
            println!(rt; "{told}")?;
        }
        _ => bail!("no such word"),
    }
    Ok(())
}

fn number(word: Option<String>) -> Result<u32> {
    let word = word.context("a number")?;
    word.as_str().parse::<u32>().context("a number")
}
