//! Keys, compared and copied.
use super::script::key_of;
use gate_items::Key;
use gate_test_lines::comes_to;
use std::alloc::Global;
use std::test::Fail;

// Compares a key with that of each line, `KEY: true` where they are the same and `KEY: false` where they aren't.
fn compare(alloc: Global, key: &str, lines: &str) -> Result<(), Fail> {
    let key = key_of(alloc, key)?;
    compare_lines(alloc, &key, lines)
}

fn compare_lines(alloc: Global, key: &Key, lines: &str) -> Result<(), Fail> {
    for line in lines.lines() {
        match line.split_once(": ") {
            Some((other, same)) => compare_with(alloc, key, other, same)?,
            None => return Err(Fail::from("a key and a word")),
        }
    }
    Ok(())
}

fn compare_with(alloc: Global, key: &Key, other: &str, same: &str) -> Result<(), Fail> {
    let other_key = key_of(alloc, other)?;
    comes_to(other, are_same(key, &other_key), same)
}

// Whether two keys are the same, by either; they have to agree.
fn are_same(key: &Key, other: &Key) -> &'static str {
    match (key.is_same(other), other.is_same(key)) {
        (true, true) => "true",
        (false, false) => "false",
        _ => "not agreed",
    }
}

#[test]
fn changes_are_compared_field_by_field(rt: HostRuntime) -> Result<(), Fail> {
    let others = "\
        change 0 7: true
        change 0 8: false
        change 1 7: false
        change 0 -7: false
        change 7 0: false
        ref 0 demo refs/heads/master 0123: false";
    compare(rt.alloc(), "change 0 7", others)
}

#[test]
fn refs_are_compared_field_by_field(rt: HostRuntime) -> Result<(), Fail> {
    let others = "\
        ref 0 demo refs/heads/master 0123: true
        ref 0 Demo refs/heads/master 0123: false
        ref 0 demo refs/heads/maste 0123: false
        ref 0 demo refs/heads/master 4567: false
        ref 0 demo 0123 refs/heads/master: false
        change 0 7: false";
    compare(rt.alloc(), "ref 0 demo refs/heads/master 0123", others)
}

#[test]
fn a_copy_is_the_same(rt: HostRuntime) -> Result<(), Fail> {
    is_copied(rt.alloc(), "ref 0 demo refs/heads/master 0123")?;
    is_copied(rt.alloc(), "change 3 -1")
}

fn is_copied(alloc: Global, line: &str) -> Result<(), Fail> {
    let key = key_of(alloc, line)?;
    has_copy(alloc, &key)
}

fn has_copy(alloc: Global, key: &Key) -> Result<(), Fail> {
    let copy = key.copy(alloc)?;
    comes_to("a copy", are_same(key, &copy), "true")
}
