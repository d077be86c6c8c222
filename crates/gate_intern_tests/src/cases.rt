//! Worked cases. 4294967295 is a word of all ones.
use crate::lines::events_of;
use crate::shown::shown;
use std::alloc::Global;
use std::process::Abort;
use std::test::Fail;

const NOTHING: &str = "rows 0
kind:
project:
branch:
refname:
username:
email:
comment:
approvals:
deletes
events
";

const ONE: &str =
    "ref-updated|docs|-|refs/heads/main|0000000000000000000000000000000000000000|ann||-";

const ONE_SHOWN: &str = "rows 1
kind 'ref-updated': 1
project 'docs': 1
branch: 0
refname 'refs/heads/main': 1
username 'ann': 1
email '': 1
comment: 0
approvals:
deletes 4294967295
events ref-updated
";

const SEVERAL: &str = "patchset-created|tools|main|-|-|ann|ann@x|-
comment-added|tools|stable|-|-|bob|-|recheck|Code-Review 2,Verified 1
ref-updated|docs|-|refs/heads/main|0000000000000000000000000000000000000000|ann|-|-
comment-added|tools|main|-|-|ann|ann@x|recheck|Verified 1,Code-Review 2,Code-Review -1,Verified 1
ref-updated|tools|-|refs/heads/main|2e9c7d04f8b15a63c0ad94e7f16b8352dd07be41|-|-||";

const SEVERAL_SHOWN: &str = "rows 5
kind 'patchset-created' 'comment-added' 'ref-updated': 1 2 3 2 3
project 'tools' 'docs': 1 1 2 1 1
branch 'main' 'stable': 1 2 0 1 0
refname 'refs/heads/main': 0 0 1 0 1
username 'ann' 'bob': 1 2 1 1 0
email 'ann@x': 1 0 0 1 0
comment 'recheck' '': 0 1 0 1 2
approvals 'Code-Review' 2 'Verified' 1 'Code-Review' -1: 0 1 0 2 0 0 2 0 1 0 0 0 0 3 0 0 0 0 2 0
deletes 0 0 4294967295 0 0
events patchset-created comment-added ref-updated comment-added ref-updated
";

const MISSING: &str = "a|-|x|-|-|-|-|-
a|-|-|-|-|-|-|-
b|-|y|-|-|-|-|-";

const MISSING_SHOWN: &str = "rows 3
kind 'a' 'b': 1 1 2
project: 0 0 0
branch 'x' 'y': 1 0 2
refname: 0 0 0
username: 0 0 0
email: 0 0 0
comment: 0 0 0
approvals:
deletes 0 0 0
events a a b
";

fn is(rt: &impl Abort, alloc: Global, lines: &str, wanted: &str) -> Result<(), Fail> {
    let events = events_of(alloc, lines)?;
    let found = shown(alloc, events.as_slice())?;
    assert!(rt; found.as_str() == wanted, "{found}");
    Ok(())
}

#[test]
fn columns_are_as_worked_by_hand(rt: HostRuntime) -> Result<(), Fail> {
    let alloc = rt.alloc();
    is(&rt, alloc, "", NOTHING)?;
    is(&rt, alloc, ONE, ONE_SHOWN)?;
    is(&rt, alloc, MISSING, MISSING_SHOWN)?;
    is(&rt, alloc, SEVERAL, SEVERAL_SHOWN)
}
