//! Lines of a status session, and what they ask for or why they ask for nothing.
use gate_status::parse_command;
use std::alloc::{AllocError, Global};
use std::process::Abort;
use std::test::Fail;

// What a line asks for, or its fault.
fn answer(alloc: Global, line: &[u8]) -> Result<String, AllocError> {
    match parse_command(alloc, line) {
        Ok(command) => format!(in alloc; "{command:?}"),
        Err(fault) => format!(in alloc; "{fault:?}"),
    }
}

// Sees what one line comes to.
fn comes_to(rt: &impl Abort, alloc: Global, line: &[u8], wanted: &str) -> Result<(), Fail> {
    let found = answer(alloc, line)?;
    assert_eq!(rt; found.as_str(), wanted, "{line:?}");
    Ok(())
}

// Plays a table of `LINE|ANSWER`, a line each; what stands before the LINE is left out.
fn play(rt: &impl Abort, alloc: Global, table: &str) -> Result<(), Fail> {
    for row in table.trim().lines() {
        let row = row.trim_start_matches('.');
        match row.split_once('|') {
            Some((line, wanted)) => comes_to(rt, alloc, line.as_bytes(), wanted)?,
            None => comes_to(rt, alloc, row.as_bytes(), "a row without an answer")?,
        }
    }
    Ok(())
}

#[test]
fn reads_commands(rt: HostRuntime) -> Result<(), Fail> {
    let table = r#"
status|Status
stop|Stop
renew|Renew
quit|Quit
dequeue 0 1 change 2 7|Manage(TenantId(0), PipelineId(1), Dequeue(Change { conn: ConnId(2), number: 7 }))
reset 0 1 change 2 -7|Manage(TenantId(0), PipelineId(1), Reset(Change { conn: ConnId(2), number: -7 }))
dequeue 00 4294967295 change 007 +9223372036854775807|Manage(TenantId(0), PipelineId(4294967295), Dequeue(Change { conn: ConnId(7), number: 9223372036854775807 }))
reset 3 1 ref 2 abc refs/heads/main a b|Manage(TenantId(3), PipelineId(1), Reset(Ref { conn: ConnId(2), project: "a b", refname: "refs/heads/main", newrev: "abc" }))
dequeue 0 1 ref 2 abc r  |Manage(TenantId(0), PipelineId(1), Dequeue(Ref { conn: ConnId(2), project: " ", refname: "r", newrev: "abc" }))
result 1 0 18446744073709551615 success build|Result(TenantId(1), PipelineId(0), JobResult { set: 18446744073709551615, job: "build", success: true })
result 1 0 5 failure  build é |Result(TenantId(1), PipelineId(0), JobResult { set: 5, job: " build é ", success: false })
"#;
    play(&rt, rt.alloc(), table)
}

#[test]
fn finds_the_first_fault(rt: HostRuntime) -> Result<(), Fail> {
    let table = "
.|Empty
.   |Empty
. status|Unknown
statu|Unknown
Status|Unknown
offer 0 x|Unknown
status |Arguments
status x|Arguments
stop |Arguments
renew |Arguments
renew x|Arguments
. renew|Unknown
renewal|Unknown
quit 0|Arguments
dequeue|Arguments
dequeue |Arguments
result|Arguments
result |Arguments
result x|Number
result 0|Arguments
result 0 x|Number
result 0 0 x success build|Number
result 0 0 18446744073709551616 success build|Number
result 0 0 1 maybe build|Arguments
result 0 0 1 success|Arguments
result 0 0 1 success |Arguments
result 4294967296 0 1 success build|Number
reset -1 0 change 0 7|Number
reset 0 4294967296 change 0 7|Number
reset 0 0 change 0|Arguments
reset 0 0 change 0 |Arguments
reset 0 0 change 0  7|Arguments
reset 0 0 change 0 x|Number
reset 0 0 change 0 7 8|Arguments
reset 0 0 change 0 7 |Arguments
reset 0 0 change 0 x 8|Number
reset 0 0 change x|Number
reset 0 0 change 0 9223372036854775808|Number
dequeue 0  change 0 7|Arguments
dequeue x  change 0 7|Number
dequeue 0 0|Arguments
dequeue 0 0 foo 0 7|Arguments
dequeue 0 0 foo x|Arguments
dequeue 0 0 ref|Arguments
dequeue 0 0 ref x|Number
dequeue 0 0 ref 0 abc|Arguments
dequeue 0 0 ref 0 abc r|Arguments
dequeue 0 0 ref 0 abc r |Arguments
dequeue 0 0 ref 0  r p|Arguments
dequeue 0 0 ref 0 abc  p|Arguments
";
    play(&rt, rt.alloc(), table)
}

#[test]
fn takes_utf8_alone(rt: HostRuntime) -> Result<(), Fail> {
    comes_to(&rt, rt.alloc(), b"\xff", "Unknown")?;
    comes_to(&rt, rt.alloc(), b"result 0 0 1 success \xff", "Arguments")?;
    comes_to(&rt, rt.alloc(), b"reset 0 0 ref 0 \xff r p", "Arguments")?;
    comes_to(&rt, rt.alloc(), b"reset 0 0 ref 0 abc \xff p", "Arguments")?;
    comes_to(&rt, rt.alloc(), b"reset 0 0 ref 0 abc r \xff", "Arguments")?;
    comes_to(&rt, rt.alloc(), b"reset 0 0 change 0 \xff", "Number")?;
    comes_to(&rt, rt.alloc(), b"reset \xff", "Number")
}
