//! Approvals and their categories.
use super::playing::{check, play};
use gate_record::category;
use gate_test_lines::comes_to;
use std::alloc::{AllocError, Global};
use std::test::Fail;

#[test]
fn writes_categories_as_rules_do(rt: HostRuntime) -> Result<(), Fail> {
    let alloc = rt.alloc();
    is_category(alloc, "Code Review", "code-review")?;
    is_category(alloc, "Code-Review", "code-review")?;
    is_category(alloc, "ÄB c", "Äb-c")?;
    is_category(alloc, " A  b\t", "-a--b\t")?;
    is_category(alloc, "", "")
}

fn is_category(alloc: Global, label: &str, wanted: &str) -> Result<(), Fail> {
    let found = category(alloc, label)?;
    comes_to(label, found.as_str(), wanted)
}

#[test]
fn reads_approvals(rt: HostRuntime) -> Result<(), Fail> {
    let script = r#"
        read {"type":"a","approvals":[{"type":"CRVW","description":"Code Review","value":"2"}]}
        kind "a"
        approval "code-review" 2

        read {"type":"a","approvals":[{"type":"Code-Review","value":-1,"oldValue":"1"}]}
        kind "a"
        approval "code-review" -1

        read {"type":"a","approvals":[{"type":"Verified","description":3,"value":"+1"}]}
        kind "a"
        approval "verified" 1

        read {"type":"a","approvals":[{"type":"Verified","description":null,"value":0}]}
        kind "a"
        approval "verified" 0

        read {"type":"a","approvals":[{"type":"Verified","description":"","value":1}]}
        kind "a"
        approval "" 1

        read {"type":"a","approvals":[{"description":"Workflow","value":"1"}]}
        kind "a"
        approval "workflow" 1

        read {"type":"a","approvals":[{"type":"Verified","description":"Verified"}]}
        kind "a"

        read {"type":"a","approvals":[{"type":"Verified","value":"1.0"}]}
        kind "a"

        read {"type":"a","approvals":[{"type":["Verified"],"value":"1"}]}
        kind "a"

        read {"type":"a","approvals":[{"value":"1"}]}
        kind "a"

        read {"type":"a","approvals":["Verified"]}
        kind "a"
    "#;
    play(rt.alloc(), script)
}

// A record with 66 approvals, of which 65 have a vote, and as many entries without a category.
fn many(alloc: Global) -> Result<String, AllocError> {
    let mut line = String::from_str(alloc, r#"{"type":"a","approvals":[{"type":"x"}"#)?;
    for place in 0..65 {
        write!(line, r#",{{"type":"c{place}","value":1}},{{"value":1}}"#)?;
    }
    line.push_str("]}")?;
    Ok(line)
}

// What it is read as.
fn first_64(alloc: Global) -> Result<String, AllocError> {
    let mut text = String::from_str(alloc, "kind \"a\"\n")?;
    for place in 0..64 {
        write!(text, "approval \"c{place}\" 1\n")?;
    }
    Ok(text)
}

#[test]
fn keeps_the_first_64(rt: HostRuntime) -> Result<(), Fail> {
    let alloc = rt.alloc();
    check(alloc, many(alloc)?.as_bytes(), first_64(alloc)?.as_str())
}
