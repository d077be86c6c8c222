//! Updates of refs, with both managers.
use super::playing::check_behind;
use std::test::Fail;

// Four updates of `demo` came, of which one was taken out, and repeated ones were discarded.
const FOUR: &str = "
        trigger ref 0 demo refs/heads/master 0123 0: Applied
        trigger ref 0 demo refs/heads/master 0123 0: Discarded(Known)
        trigger ref 0 demo refs/heads/master 4567 0: Applied
        trigger ref 1 demo refs/heads/master 0123 0: Applied
        trigger ref 0 demo refs/tags/1 0123 0: Applied
        trigger ref 0 demo refs/heads/master 4567 0: Discarded(Known)
        dequeue ref 0 demo refs/heads/master 4567: Applied
        dequeue ref 0 demo refs/heads/master 4567: Discarded(NoItem)
        ";

#[test]
fn updates_of_refs(rt: HostRuntime) -> Result<(), Fail> {
    let script = "
        updates of refs alone: independent 0 build
        ended 2 build success: Applied
        left
        item ref 0 demo refs/heads/master 0123 0 set 0 build waiting
        item ref 0 demo refs/tags/1 0123 0 set 3 build waiting
        report ref 1 demo refs/heads/master 0123 0 set 2 success
        trigger ref 1 demo refs/heads/master 0123 0: Applied
        left
        item ref 0 demo refs/heads/master 0123 0 set 0 build waiting
        item ref 0 demo refs/tags/1 0123 0 set 3 build waiting
        item ref 1 demo refs/heads/master 0123 0 set 4 build waiting
        report ref 1 demo refs/heads/master 0123 0 set 2 success

        updates of refs in a queue: dependent 0 build
        ended 4 build success: Applied
        left
        item ref 0 demo refs/heads/master 0123 0 set 0 build waiting
        item ref 1 demo refs/heads/master 0123 0 set 4 build success
        item ref 0 demo refs/tags/1 0123 0 set 5 build waiting
        reset ref 0 demo refs/heads/master 0123: Applied
        left
        item ref 0 demo refs/heads/master 0123 0 set 6 build waiting
        item ref 1 demo refs/heads/master 0123 0 set 7 build waiting
        item ref 0 demo refs/tags/1 0123 0 set 8 build waiting
        trigger ref 1 demo refs/heads/master 0123 0: Discarded(Known)
    ";
    check_behind(rt.alloc(), FOUR, script)
}
