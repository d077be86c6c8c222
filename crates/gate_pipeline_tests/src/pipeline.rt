//! One tenant with an independent and a dependent pipeline, and scripts of the turns of either.
mod turns;

use gate_config::{Config, ConfigFault, read_config};
use gate_pipeline::{PHASE, Pipeline};
use gate_record::{PipelineId, TenantId};
use gate_test_lines::{comes_to, halves};
use std::alloc::{AllocError, Global};
use std::test::Fail;

const MAIN: TenantId = TenantId(0);

// The independent pipeline, whose jobs of the project `demo` are `build` and `lint`.
const CHECK: PipelineId = PipelineId(0);

// The dependent pipeline, whose job of the project `demo` is `build`.
const GATE: PipelineId = PipelineId(1);

fn config(alloc: Global) -> Result<Config, ConfigFault> {
    let document =
        r#"{"tenants":[{"name":"main","source":{"gerrit":{"untrusted-projects":["demo"]}}}],"config":{"main":[{"pipeline":{"name":"check","manager":"independent"}},{"pipeline":{"name":"gate","manager":"dependent"}},{"project":{"name":"demo","check":{"jobs":["build","lint"]},"gate":{"jobs":["build"]}}}]}}"#;
    read_config(alloc, document.as_bytes())
}

// Plays a script from the start of a pipeline.
fn play(alloc: Global, pipeline: PipelineId, script: &str) -> Result<(), Fail> {
    let config = config(alloc)?;
    play_with(alloc, &config, pipeline, script)
}

fn play_with(
    alloc: Global,
    config: &Config,
    pipeline: PipelineId,
    script: &str,
) -> Result<(), Fail> {
    let mut worker = Pipeline::new(alloc, config, MAIN, pipeline);
    play_over(alloc, &mut worker, config, script)
}

// Takes each turn of a script, and compares what it comes to with what stands behind the arrow.
fn play_over(
    alloc: Global,
    worker: &mut Pipeline,
    config: &Config,
    script: &str,
) -> Result<(), Fail> {
    for line in script.trim().lines() {
        play_line(alloc, worker, config, line)?;
    }
    Ok(())
}

fn play_line(
    alloc: Global,
    worker: &mut Pipeline,
    config: &Config,
    line: &str,
) -> Result<(), Fail> {
    let (turn, wanted) = halves(line);
    let mut found = String::new(alloc);
    turns::take(&mut found, worker, config, turn)?;
    comes_to(line, found.as_str(), wanted)
}

// As many results of a build set that is no item's as a phase takes.
fn late_results(alloc: Global) -> Result<String, AllocError> {
    let mut script = String::new(alloc);
    for _ in 0..PHASE {
        script.push_str("ended 5 build -> Discarded(NotCurrent)\n")?;
    }
    Ok(script)
}

#[test]
fn moves_on_after_a_whole_phase(rt: HostRuntime) -> Result<(), Fail> {
    let late = late_results(rt.alloc())?;
    let script = format!(in rt.alloc();
        "
        dequeue 9 -> Discarded(NoItem)
        empty
        {late}wants -> Trigger
    "
    )?;
    play(rt.alloc(), CHECK, script.as_str())
}

#[test]
fn finishes_with_the_end_mark(rt: HostRuntime) -> Result<(), Fail> {
    let script = "
        empty 2
        finished -> false
        end
        finished -> true
        wants -> Finished
        done -> 0
    ";
    play(rt.alloc(), CHECK, script)
}

#[test]
fn makes_an_action_of_an_event(rt: HostRuntime) -> Result<(), Fail> {
    let script = r#"
        empty 2
        event {"type":"patchset-created","change":{"project":"demo","number":7},"patchSet":{"number":2}} -> change 0 7 2 build lint
        event {"type":"ref-updated","patchSet":{"number":2},"refUpdate":{"project":"demo","refName":"refs/heads/a","newRev":"12ab"}} -> ref 0 12ab refs/heads/a demo 0 build lint
        event {"type":"x","change":{"number":7},"refUpdate":{"refName":"refs/heads/a","newRev":"12ab"}} -> change 0 7 0
        event {"type":"x","refUpdate":{"refName":"refs/heads/a","newRev":"12ab"}} -> ref 0 12ab refs/heads/a  0
    "#;
    play(rt.alloc(), CHECK, script)
}

#[test]
fn makes_an_action_of_an_event_in_a_queue(rt: HostRuntime) -> Result<(), Fail> {
    let script = r#"
        empty 2
        event {"type":"change-restored","change":{"project":"demo","number":"-7"}} -> change 0 -7 0 build
        event {"type":"ref-updated","refUpdate":{"project":"demo","refName":"refs/heads/a"}} -> none 0 build
        event {"type":"ref-updated","refUpdate":{"project":"other","newRev":"12ab"}} -> none 0
    "#;
    play(rt.alloc(), GATE, script)
}
