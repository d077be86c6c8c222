//! Makes each public call that may be refused memory, in scenarios, and tells what comes of it. `tools/refusals calls` refuses memory to
//! it, allocation by allocation, and judges what is told. The words are a scenario and the files that it reads: mostly the documents of
//! a configuration, and a script or a stream as the last. Without words the program prints nothing.
#![tactic(auto)]

mod log;
mod queues;
mod serving;
mod values;
mod worlds;

use crate::log::{Ended, Log, TOLD};
use gate_record::Memory;
use std::process::ExitCode;
use std::rt::{Env, Files};
use std::sync::Wait;
use std::thread::Threads;
use std::time::Clock;
use std::{env, fs};

/// The exit status is 0, 1 where the scenario ended early, or 2 where not all of it was told.
fn main(rt: HostRuntime) -> ExitCode {
    let Ok(mut log) = Log::new(rt.alloc()) else {
        return ExitCode::from(tell(&rt, "elsewhere\n", 1));
    };
    let mut status = 0;
    if let Err(Memory) = read_and_run(&rt, &mut log) {
        say!(log.told, "elsewhere\n");
        status = 1;
    }
    // There may have been no room for a line of a refusal, none of which is longer, and it is missing then.
    if log.told.len() > TOLD - 256 {
        status = 2;
    }
    ExitCode::from(tell(&rt, log.told.as_str(), status))
}

fn tell(rt: &impl Print, text: &str, status: u8) -> u8 {
    match rt.print(text) {
        Ok(()) => status,
        Err(_) => 2,
    }
}

fn read_and_run<R: Env + Files + AllocGlobal + Threads + Wait + Clock + Sync>(
    rt: &R,
    log: &mut Log,
) -> Ended {
    let words: Vec<String> = env::args(rt).ok().ok_or(Memory)?.collect(log.alloc)?;
    let Some(word) = words.get(1) else {
        return Ok(());
    };
    let mut files = Vec::new(log.alloc);
    for path in words.iter().skip(2) {
        files.push(fs::read(rt, path.as_str()).ok().ok_or(Memory)?)?;
    }
    let last = files.pop().unwrap_or(Vec::new(log.alloc));
    match String::from_utf8(last) {
        Ok(last) => run(rt, log, word.as_str(), files.as_slice(), last.as_str()),
        Err(_) => Err(log.end("unexpected", "bytes of a file")),
    }
}

fn run<R: AllocGlobal + Threads + Wait + Clock + Sync>(
    rt: &R,
    log: &mut Log,
    word: &str,
    documents: &[Vec<u8>],
    last: &str,
) -> Ended {
    match word {
        "texts" => values::copy_texts(log),
        "patterns" => values::build_patterns(log),
        "records" => values::read_records(log, last),
        "lines" => Ok(values::read_lines(log, last)),
        "documents" => values::read_documents(log, documents),
        "replay" => Ok(worlds::replay_script(log, documents, last.as_bytes())),
        "queue" => queues::run_bounded(rt, log),
        "free_queue" => queues::run_free(rt, log),
        "streams" => queues::run_streams(rt, log),
        _ => {
            let gens = values::gens_of(log, documents)?;
            match word {
                "posts" => serving::ask(log, &gens),
                "sessions" => serving::talk(rt, log, &gens),
                "serve" => serving::run(rt, log, &gens, "gate_run serve"),
                "serve_over" => serving::run(rt, log, &gens, "gate_run serve_over"),
                "batches" => values::match_batches(log, &gens, last),
                _ => {
                    let steps = worlds::steps_of(log, last.as_bytes())?;
                    match word {
                        "way" => worlds::go_all(log, &gens, steps.as_slice()),
                        "worlds" => worlds::run(log, &gens, steps.as_slice()),
                        "transcripts" => worlds::run_and_play(log, &gens, steps.as_slice()),
                        _ => Err(log.end("unexpected", "scenario")),
                    }
                }
            }
        }
    }
}
