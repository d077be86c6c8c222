//! What a dependent pipeline finds after items left, were replaced and were renewed.
use super::playing::{check_behind, play};
use gate_items::{Items, ManagerKind};
use std::alloc::{AllocError, Global};
use std::process::Abort;
use std::test::Fail;

// Changes 1 to 5 came, of which 2 was taken out and 3 has a newer patch set, which was reset.
const FIVE: &str = "
        trigger 1 1: Applied
        trigger 2 1: Applied
        trigger 3 1: Applied
        trigger 4 1: Applied
        trigger 5 1: Applied
        dequeue 2: Applied
        trigger 3 2: Applied
        reset 3: Applied
        ";

#[test]
fn what_is_found_behind_five_changes(rt: HostRuntime) -> Result<(), Fail> {
    let script = "
        keys after a removal and a newer patch set: dependent 0 build
        dequeue 2: Discarded(NoItem)
        reset 2: Discarded(NoItem)
        trigger 3 2: Discarded(Known)
        trigger 3 1: Discarded(Older)
        trigger 4 1: Discarded(Known)
        left
        item 1 1 set 0 build waiting
        item 4 1 set 8 build waiting
        item 5 1 set 9 build waiting
        item 3 2 set 11 build waiting

        keys after the head has left: dependent 0 build
        ended 0 build success: Applied
        dequeue 1: Discarded(NoItem)
        trigger 1 1: Applied
        reset 5: Applied
        left
        item 4 1 set 8 build waiting
        item 5 1 set 13 build waiting
        item 3 2 set 14 build waiting
        item 1 1 set 15 build waiting
        report 1 1 set 0 success

        results after renewals: dependent 0 build
        ended 4 build success: Discarded(NotCurrent)
        ended 10 build success: Discarded(NotCurrent)
        ended 9 build success: Applied
        ended 11 build failure: Applied
        dequeue 1: Applied
        ended 9 build success: Discarded(NotCurrent)
        ended 13 build success: Applied
        ended 12 build failure: Applied
        left
        item 5 1 set 15 build waiting
        item 3 2 set 16 build waiting
        report 4 1 set 12 failure

        complete items wait for the head: dependent 0 build
        ended 8 build success: Applied
        ended 9 build success: Applied
        dequeue 3: Applied
        ended 0 build success: Applied
        trigger 5 1: Applied
        dequeue 4: Discarded(NoItem)
        left
        item 5 1 set 12 build waiting
        report 1 1 set 0 success
        report 4 1 set 8 success
        report 5 1 set 9 success
    ";
    check_behind(rt.alloc(), FIVE, script)
}

// Triggers patch set 1 of changes 1 to 40, each with this outcome.
fn forty(alloc: Global, items: &mut Items, outcome: &str) -> Result<(), Fail> {
    let script = forty_triggers(alloc, outcome)?;
    play(alloc, items, "build", script.as_str())
}

fn forty_triggers(alloc: Global, outcome: &str) -> Result<String, AllocError> {
    let mut script = String::new(alloc);
    for number in 1..41 {
        write!(script, "trigger {number} 1: {outcome}\n")?;
    }
    Ok(script)
}

// Changes 1 to 40 have sets 0 to 39, and from change 10 on then 40 to 70.
#[test]
fn each_set_and_each_key_of_forty(rt: HostRuntime) -> Result<(), Fail> {
    let mut items = Items::new(rt.alloc(), ManagerKind::Dependent, 0);
    each_of_forty(&rt, rt.alloc(), &mut items)
}

fn each_of_forty(rt: &impl Abort, alloc: Global, items: &mut Items) -> Result<(), Fail> {
    forty(alloc, items, "Applied")?;
    play(alloc, items, "build", "reset 10: Applied")?;
    for set in 0..80 {
        is_current(rt, items, set, set < 9 || set >= 40 && set < 71);
    }
    forty(alloc, items, "Discarded(Known)")?;
    let strangers = "
        dequeue 0: Discarded(NoItem)
        dequeue 41: Discarded(NoItem)
        ";
    play(alloc, items, "build", strangers)
}

fn is_current(rt: &impl Abort, items: &Items, set: u64, wanted: bool) {
    assert!(rt; items.current(set) == wanted, "{set}");
}
