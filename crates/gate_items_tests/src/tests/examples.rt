//! Worked examples: what comes of actions, and what is left.
use super::playing::check;
use std::test::Fail;

#[test]
fn what_comes_of_actions(rt: HostRuntime) -> Result<(), Fail> {
    let script = "
        a late result: independent 0 build lint
        trigger 7 1: Applied
        reset 7: Applied
        ended 0 build failure: Discarded(NotCurrent)
        ended 1 build success: Applied
        ended 1 build success: Discarded(Repeated)
        left
        item 7 1 set 1 build success lint waiting

        patch sets: independent 0 build
        trigger 7 1: Applied
        trigger 7 2: Applied
        trigger 7 1: Discarded(Older)
        trigger 7 2: Discarded(Known)
        left
        item 7 2 set 1 build waiting

        a failure in a queue: dependent 0 build lint
        trigger 1 1: Applied
        trigger 2 1: Applied
        trigger 3 1: Applied
        ended 0 build failure: Applied
        ended 1 build success: Discarded(NotCurrent)
        ended 0 lint success: Applied
        left
        item 2 1 set 3 build waiting lint waiting
        item 3 1 set 4 build waiting lint waiting
        report 1 1 set 0 failure

        reports from the head: dependent 0 build
        trigger 1 1: Applied
        trigger 2 1: Applied
        ended 1 build success: Applied
        left
        item 1 1 set 0 build waiting
        item 2 1 set 1 build success
        ended 0 build success: Applied
        left
        report 1 1 set 0 success
        report 2 1 set 1 success

        dequeued and back: independent 0 build
        trigger 7 1: Applied
        dequeue 7: Applied
        trigger 7 1: Applied
        ended 0 build success: Discarded(NotCurrent)
        left
        item 7 1 set 1 build waiting

        the last number: independent 18446744073709551614 build
        trigger 1 1: Applied
        trigger 2 1: Discarded(Numbers)
        left
        item 1 1 set 18446744073709551614 build waiting

        each change alone: independent 0 build lint
        trigger 1 1: Applied
        trigger 2 1: Applied
        trigger 3 1: Applied
        ended 0 build failure: Applied
        ended 1 build success: Applied
        ended 1 lint success: Applied
        ended 0 lint failure: Applied
        reset 3: Applied
        left
        item 3 1 set 3 build waiting lint waiting
        report 2 1 set 1 success
        report 1 1 set 0 failure

        only the first failure renews: dependent 0 build lint
        trigger 1 1: Applied
        trigger 2 1: Applied
        trigger 3 1: Applied
        ended 1 build failure: Applied
        ended 1 lint failure: Applied
        left
        item 1 1 set 0 build waiting lint waiting
        item 2 1 set 1 build failure lint failure
        item 3 1 set 3 build waiting lint waiting

        a newer patch set in a queue: dependent 5 build lint
        trigger 1 1: Applied
        trigger 2 1: Applied
        ended 6 build success: Applied
        trigger 1 2: Applied
        reset 2: Applied
        left
        item 2 1 set 9 build waiting lint waiting
        item 1 2 set 10 build waiting lint waiting

        items keep their order: independent 0 build
        trigger 1 1: Applied
        trigger 2 1: Applied
        trigger 3 1: Applied
        reset 2: Applied
        trigger 1 2: Applied
        left
        item 2 1 set 3 build waiting
        item 3 1 set 2 build waiting
        item 1 2 set 4 build waiting

        numbers of earlier build sets find nothing: independent 0 build
        trigger 1 1: Applied
        trigger 2 1: Applied
        trigger 3 1: Applied
        reset 2: Applied
        trigger 1 2: Applied
        ended 0 build success: Discarded(NotCurrent)
        ended 1 build success: Discarded(NotCurrent)
        ended 3 build failure: Applied
        ended 3 build failure: Discarded(NotCurrent)
        dequeue 2: Discarded(NoItem)
        dequeue 3: Applied
        ended 2 build success: Discarded(NotCurrent)
        trigger 3 1: Applied
        ended 4 build success: Applied
        left
        item 3 1 set 5 build waiting
        report 2 1 set 3 failure
        report 1 2 set 4 success

        current build sets: independent 3 build
        current 3: false
        trigger 1 1: Applied
        trigger 2 1: Applied
        reset 1: Applied
        current 3: false
        current 4: true
        current 5: true
        current 6: false
    ";
    check(rt.alloc(), script)
}
