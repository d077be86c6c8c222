//! Each cause for which an action is discarded, with both managers, and that nothing changes then.
use super::playing::{BOTH, play_new};
use gate_items::ManagerKind;
use std::alloc::Global;
use std::test::Fail;

const LAST: u64 = 18446744073709551614;

// Plays each act after `front` and before `back`, with the jobs `build` and `lint`.
fn each(
    alloc: Global,
    manager: ManagerKind,
    first_set: u64,
    front: &str,
    acts: &str,
    back: &str,
) -> Result<(), Fail> {
    for act in acts.lines() {
        let script = format!(in alloc; "{front}\n{act}\n{back}")?;
        play_new(alloc, manager, first_set, "build lint", script.as_str())?;
    }
    Ok(())
}

// With either manager each act is discarded where two changes wait, and nothing changes.
fn causes(alloc: Global, acts: &str) -> Result<(), Fail> {
    let front = "
        trigger 7 2: Applied
        trigger 8 1: Applied
        ended 0 lint success: Applied";
    let left = "
        left
        item 7 2 set 0 build waiting lint success
        item 8 1 set 1 build waiting lint waiting";
    for manager in BOTH {
        each(alloc, manager, 0, front, acts, left)?;
    }
    Ok(())
}

#[test]
fn causes_of_triggers(rt: HostRuntime) -> Result<(), Fail> {
    causes(
        rt.alloc(),
        "
        keyless: Discarded(NoKey)
        jobless 7: Discarded(NoJobs)
        jobless 9: Discarded(NoJobs)
        trigger 7 2: Discarded(Known)
        trigger 7 1: Discarded(Older)
        trigger 7 -2: Discarded(Older)
        ",
    )
}

#[test]
fn causes_of_results_and_management(rt: HostRuntime) -> Result<(), Fail> {
    causes(
        rt.alloc(),
        "
        ended 2 build success: Discarded(NotCurrent)
        ended 0 docs success: Discarded(NoJob)
        ended 0 lint success: Discarded(Repeated)
        ended 0 lint failure: Discarded(Repeated)
        dequeue 9: Discarded(NoItem)
        reset 9: Discarded(NoItem)
        ",
    )
}

// Plays each act where two items have the last two numbers.
fn at_the_end(alloc: Global, manager: ManagerKind, acts: &str, back: &str) -> Result<(), Fail> {
    let front = "
        trigger 1 1: Applied
        trigger 2 1: Applied";
    each(alloc, manager, LAST - 1, front, acts, back)
}

fn with_both_at_the_end(alloc: Global, acts: &str, back: &str) -> Result<(), Fail> {
    for manager in BOTH {
        at_the_end(alloc, manager, acts, back)?;
    }
    Ok(())
}

// What is left at the end where nothing changes.
const UNCHANGED: &str = "
        left
        item 1 1 set 18446744073709551613 build waiting lint waiting
        item 2 1 set 18446744073709551614 build waiting lint waiting";

#[test]
fn other_causes_come_before_numbers(rt: HostRuntime) -> Result<(), Fail> {
    let acts = "
        keyless: Discarded(NoKey)
        jobless 9: Discarded(NoJobs)
        trigger 1 1: Discarded(Known)
        trigger 1 0: Discarded(Older)
        ended 0 build failure: Discarded(NotCurrent)
        ended 18446744073709551614 docs failure: Discarded(NoJob)
        dequeue 9: Discarded(NoItem)
        reset 9: Discarded(NoItem)
        ";
    with_both_at_the_end(rt.alloc(), acts, UNCHANGED)
}

#[test]
fn too_few_numbers(rt: HostRuntime) -> Result<(), Fail> {
    let acts = "
        trigger 1 2: Discarded(Numbers)
        trigger 3 1: Discarded(Numbers)
        reset 2: Discarded(Numbers)
        ";
    with_both_at_the_end(rt.alloc(), acts, UNCHANGED)
}

#[test]
fn too_few_numbers_in_a_queue_alone(rt: HostRuntime) -> Result<(), Fail> {
    let applied = "
        ended 18446744073709551613 build failure: Applied
        dequeue 1: Applied
        ";
    at_the_end(rt.alloc(), ManagerKind::Independent, applied, "")?;
    let discarded = "
        ended 18446744073709551613 build failure: Discarded(Numbers)
        dequeue 1: Discarded(Numbers)
        ";
    at_the_end(rt.alloc(), ManagerKind::Dependent, discarded, UNCHANGED)
}

#[test]
fn the_last_item_needs_no_number(rt: HostRuntime) -> Result<(), Fail> {
    let acts = "
        ended 18446744073709551614 build failure: Applied
        ended 18446744073709551613 build success: Applied
        dequeue 2: Applied
        ";
    with_both_at_the_end(rt.alloc(), acts, "")
}
