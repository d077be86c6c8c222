//! Keys in the order of an index.
use super::script::key_of;
use gate_items::Key;
use std::alloc::Global;
use std::cmp::Ordering;
use std::process::Abort;
use std::test::Fail;

// Sees that two keys are ordered as their places.
fn compare(rt: &impl Abort, key: &Key, other: &Key, wanted: Ordering) {
    let found = (key.cmp(other), key.partial_cmp(other), *key == *other);
    assert!(rt; found == (wanted, Some(wanted), wanted == Ordering::Equal));
}

// Sees that the keys of these lines rise.
fn rise(rt: &impl Abort, alloc: Global, lines: &str) -> Result<(), Fail> {
    for (place, line) in lines.lines().enumerate() {
        stands_at(rt, alloc, line, place, lines)?;
    }
    Ok(())
}

// Sees that a key is ordered beside those of these lines as its place is.
fn stands_at(
    rt: &impl Abort,
    alloc: Global,
    line: &str,
    place: usize,
    lines: &str,
) -> Result<(), Fail> {
    let key = key_of(alloc, line)?;
    is_ordered(rt, alloc, &key, place, lines)
}

fn is_ordered(
    rt: &impl Abort,
    alloc: Global,
    key: &Key,
    place: usize,
    lines: &str,
) -> Result<(), Fail> {
    for (other_place, other) in lines.lines().enumerate() {
        is_beside(rt, alloc, key, other, place.cmp(&other_place))?;
    }
    Ok(())
}

fn is_beside(
    rt: &impl Abort,
    alloc: Global,
    key: &Key,
    other: &str,
    wanted: Ordering,
) -> Result<(), Fail> {
    let other = key_of(alloc, other)?;
    compare(rt, key, &other, wanted);
    Ok(())
}

#[test]
fn keys_are_ordered_field_by_field(rt: HostRuntime) -> Result<(), Fail> {
    let rising = "\
        change 0 -1
        change 0 7
        change 1 2
        ref 0 a refs/heads/main 1
        ref 0 a refs/heads/main 2
        ref 0 a refs/tags/1 0
        ref 0 b refs/heads/main 1
        ref 1 a refs/heads/main 1";
    rise(&rt, rt.alloc(), rising)
}
