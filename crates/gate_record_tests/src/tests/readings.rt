//! What records are read as, by their form.
use super::playing::{check, play};
use super::shown;
use gate_record::{Record, RecordReader};
use gate_test_lines::comes_to;
use std::alloc::{AllocError, Global};
use std::test::Fail;

const PATCH_SET: &str =
    r#"{"type":"patchset-created","change":{"project":"demo","branch":"master","number":7},"patchSet":{"number":1}}"#;

#[test]
fn the_front_of_a_record_is_no_json(rt: HostRuntime) -> Result<(), Fail> {
    let line = PATCH_SET.as_bytes();
    for end in 0..line.len() {
        check(rt.alloc(), &line[..end], "nothing NotJson\n")?;
    }
    Ok(())
}

#[test]
fn reads_records_by_their_form(rt: HostRuntime) -> Result<(), Fail> {
    let script = r#"
        # tells why there is no event
        read {"type"
        nothing NotJson

        read {"type":
        nothing NotJson

        read {"type":"a"} {}
        nothing NotJson

        read {"type":"a","x":1e400}
        nothing NotJson

        read {"type":"a","x":[{"y":-1e400}]}
        nothing NotJson

        read [1e400]
        nothing NotJson

        read [1]
        nothing NotObject

        read [{"type":"a"}]
        nothing NotObject

        read null
        nothing NotObject

        read "type"
        nothing NotObject

        read {}
        nothing NoType

        read {"type":3}
        nothing NoType

        read {"type":null}
        nothing NoType

        read {"Type":"a"}
        nothing NoType

        read {"type":"a","x":1e308}
        kind "a"

        read {"change":{"type":"a"},"x":{"type":"b"},"y":["type","c"]}
        nothing NoType

        # escapes are undone, in keys too
        read {"t\u0079pe":"a\u0062\n\"","change":{"br\u0061nch":"\ud83d\ude00","br\/anch":"b"}}
        kind "ab\n\""
        branch "😀"

        read {"type":"\ud83d"}
        nothing NotJson

        # every field may be missing
        read {"type":"ref-updated"}
        kind "ref-updated"

        read {"type":"ref-updated","change":{},"patchSet":{},"refUpdate":{},"submitter":{},"approvals":[]}
        kind "ref-updated"

        read {"type":"ref-updated","change":1,"patchSet":[2],"refUpdate":"a","submitter":null,"approvals":{}}
        kind "ref-updated"

        read {"type":"ref-updated","change":{"branch":1,"number":"x","project":[]},"patchSet":{"number":{}},"refUpdate":{"project":null,"refName":2,"newRev":false},"comment":["a"],"submitter":{"username":3,"email":[]},"approvals":[[],1]}
        kind "ref-updated"

        # finds the project
        read {"type":"a","change":{"project":"b"},"refUpdate":{"project":"c"}}
        kind "a"
        project "b"

        read {"type":"a","change":{"project":1},"refUpdate":{"project":"c"}}
        kind "a"
        project "c"

        read {"type":"a","change":"b","refUpdate":{"project":"c"}}
        kind "a"
        project "c"

        read {"type":"a","change":{"project":""},"refUpdate":{"project":"c"}}
        kind "a"
        project ""

        read {"type":"a","project":"b","projectName":"c"}
        kind "a"

        # the last of a repeated key stands
        read {"type":3,"change":{"project":"a","branch":"a"},"type":"b","comment":"a","comment":"b","change":{"branch":"a","branch":"b"}}
        kind "b"
        branch "b"
        comment "b"

        read {"type":"a","type":3}
        nothing NoType
    "#;
    play(rt.alloc(), script)
}

#[test]
fn reads_what_no_script_has(rt: HostRuntime) -> Result<(), Fail> {
    check(rt.alloc(), b"", "nothing NotJson\n")?;
    check(rt.alloc(), b"{\"type\":\"\xff\"}", "nothing NotJson\n")?;
    check(rt.alloc(), b" {\"type\":\"\"} ", "kind \"\"\n")?;
    is_oversize(rt.alloc())
}

fn is_oversize(alloc: Global) -> Result<(), Fail> {
    let mut found = String::new(alloc);
    let oversize = Record::Oversize.copy(alloc)?;
    shown::push_record(alloc, &mut found, &mut RecordReader::new(), &oversize)?;
    comes_to("oversize", found.as_str(), "nothing Oversize\n")
}

// An object that holds so many lists, one in the other.
fn nested(alloc: Global, lists: usize) -> Result<String, AllocError> {
    let mut line = String::from_str(alloc, r#"{"type":"a","x":"#)?;
    for _ in 0..lists {
        line.push('[')?;
    }
    for _ in 0..lists {
        line.push(']')?;
    }
    line.push('}')?;
    Ok(line)
}

#[test]
fn reads_127_levels(rt: HostRuntime) -> Result<(), Fail> {
    nests(rt.alloc(), 126, "kind \"a\"\n")?;
    nests(rt.alloc(), 127, "nothing NotJson\n")
}

fn nests(alloc: Global, lists: usize, wanted: &str) -> Result<(), Fail> {
    let line = nested(alloc, lists)?;
    check(alloc, line.as_bytes(), wanted)
}
