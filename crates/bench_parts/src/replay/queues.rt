//! A configuration with one pipeline, and a script that fills the pipeline's queue with changes and then lets all of them leave.

use std::alloc::{AllocError, Global};

// The steps of a record behind its offer, by which it comes to the pipeline and is processed.
const WAY: &str = "take 0\nsend 0\nfetch 0 1\nmatch 0\ngive 0\nturn 0 0\nturn 0 0\nturn 0 0\n";

// Turns enough to come to what was posted, and how many lines a post and these are.
const TURNS: &str = "turn 0 0\nturn 0 0\nturn 0 0\n";

const POSTED: u64 = 4;

/// A tenant with one pipeline of this manager, which asks for new patch sets of the project `demo` and has one job for it.
pub fn queue_configuration(alloc: Global, manager: &str) -> Result<String, AllocError> {
    format!(in alloc;
        "{{\"tenants\":[{{\"name\":\"main\",\"source\":{{\"gerrit\":{{\"untrusted-projects\":[\"demo\"]}}}}}}],\"config\":{{\"main\":[{{\"pipeline\":{{\"name\":\"check\",\"manager\":\"{manager}\",\"trigger\":{{\"gerrit\":[{{\"event\":\"patchset-created\"}}]}}}}}},{{\"project\":{{\"name\":\"demo\",\"check\":{{\"jobs\":[\"build\"]}}}}}}]}}}}"
    )
}

/// So many changes that come into the queue and are shown there, all at once; then, with an independent manager, each is
/// reset and has its result; with a dependent one the first has its result and the last is taken out, in turn. And how many
/// lines these are.
pub fn queue_script(
    alloc: Global,
    changes: u32,
    dependent: bool,
) -> Result<(String, u64), AllocError> {
    let mut script = String::new(alloc);
    push_script(&mut script, changes, dependent)?;
    Ok((script, lines_of(changes, dependent)))
}

fn lines_of(changes: u32, dependent: bool) -> u64 {
    let ways = u64::from(changes).saturating_mul(9);
    let posts = u64::from(if dependent { changes / 2 } else { changes });
    ways.saturating_add(1)
        .saturating_add(posts.saturating_mul(2).saturating_mul(POSTED))
}

fn push_script(script: &mut String, changes: u32, dependent: bool) -> Result<(), AllocError> {
    for change in 0..changes {
        push_change(script, change)?;
    }
    script.push_str("show 0 0\n")?;
    if dependent {
        push_ends(script, changes)
    } else {
        push_resets(script, changes)
    }
}

fn push_change(script: &mut String, change: u32) -> Result<(), AllocError> {
    write!(
        script,
        "offer 0 {{\"type\":\"patchset-created\",\"change\":{{\"project\":\"demo\",\"branch\":\"master\",\"number\":{change}}},\"patchSet\":{{\"number\":1}}}}\n{WAY}"
    )
}

// Each change is reset, so that its build set has the next number, and then its job succeeds.
fn push_resets(script: &mut String, changes: u32) -> Result<(), AllocError> {
    for change in 0..changes {
        let set = u64::from(changes).saturating_add(u64::from(change));
        write!(script, "reset 0 0 change 0 {change}\n{TURNS}")?;
        write!(script, "result 0 0 {set} success build\n{TURNS}")?;
    }
    Ok(())
}

// The job of the first change succeeds, and the last change is taken out, until none is left.
fn push_ends(script: &mut String, changes: u32) -> Result<(), AllocError> {
    for change in 0..changes / 2 {
        let last = changes.saturating_sub(change).saturating_sub(1);
        write!(script, "result 0 0 {change} success build\n{TURNS}")?;
        write!(script, "dequeue 0 0 change 0 {last}\n{TURNS}")?;
    }
    Ok(())
}
