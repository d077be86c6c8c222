//! Scripts that are read, and faults in words.
use gate_config::{ConfigFault, GenerationFault};
use gate_core::{ReplayFault, ScriptFault, read_script};
use gate_test_lines::comes_to;
use std::alloc::{AllocError, Global};
use std::test::Fail;

// How many lines a script has that stand for something, or its fault.
fn told(alloc: Global, script: &[u8]) -> Result<String, AllocError> {
    match read_script(alloc, script) {
        Ok(steps) => format!(in alloc; "{} lines", steps.len()),
        Err(fault) => format!(in alloc; "{fault}"),
    }
}

fn tells(alloc: Global, script: &[u8], wanted: &str) -> Result<(), Fail> {
    let found = told(alloc, script)?;
    comes_to("a script", found.as_str(), wanted)
}

#[test]
fn reads_scripts(rt: HostRuntime) -> Result<(), Fail> {
    tells(rt.alloc(), b"give 0\nturn 0 0\n", "2 lines")?;
    tells(rt.alloc(), b"show", "script 1")
}

#[test]
fn writes_what_a_script_lacks(rt: HostRuntime) -> Result<(), Fail> {
    let text = faults(rt.alloc())?;
    comes_to(
        "faults",
        text.as_str(),
        "script 7, memory; script 7, memory, generations, not-json, generation 1 not-json",
    )
}

fn faults(alloc: Global) -> Result<String, AllocError> {
    let (script, memory) = (ScriptFault::Script(7), ScriptFault::Memory);
    let mut text = format!(in alloc; "{script}, {memory}; ")?;
    push_replay_faults(&mut text)?;
    Ok(text)
}

fn push_replay_faults(text: &mut String) -> Result<(), AllocError> {
    let (script, memory) = (ReplayFault::Script(7), ReplayFault::Memory);
    write!(text, "{script}, {memory}")?;
    push_generation_fault(text, GenerationFault::Count)?;
    push_generation_fault(text, GenerationFault::Document(0, ConfigFault::NotJson))?;
    push_generation_fault(text, GenerationFault::Document(1, ConfigFault::NotJson))
}

fn push_generation_fault(text: &mut String, fault: GenerationFault) -> Result<(), AllocError> {
    write!(text, ", {}", ReplayFault::Generations(fault))
}
