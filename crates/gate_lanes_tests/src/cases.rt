//! Worked cases. In a mask 1 stands for all ones.
ghost use Rattle.std.specs.Prelude.{◌≡◌, ◌≤◌, ◌%◌, length};

use crate::plain::Call;
use gate_lanes::{MARKED, count, mark_any, mark_slots};
use std::process::Abort;

// More words than a case has.
const ROOM: usize = 8;

fn word_of(digit: u32) -> u32 {
    if digit == 1 { MARKED } else { digit }
}

// The words that these digits stand for, and others behind them.
fn mask_of(digits: &[u32]) -> [u32; ROOM] {
    let mut mask = [7; ROOM];
    for (word, digit) in mask.iter_mut().zip(digits) {
        *word = word_of(*digit);
    }
    mask
}

fn is_mask(rt: &impl Abort, call: &str, found: &[u32], wanted: &[u32]) {
    assert!(rt; found.len() == wanted.len(), "the length of {call}");
    for (word, digit) in found.iter().zip(wanted) {
        assert!(rt; *word == word_of(*digit), "{call}");
    }
}

fn any(rt: &impl Abort, column: &[u32], ids: &[u32], wanted: &[u32])
    requires { length column.now ≤ ROOM }
{
    let mut room = [7; ROOM];
    let out = &mut room[..column.len()];
    mark_any(column, ids, out);
    is_mask(rt, "mark_any", out, wanted);
}

fn slots(rt: &impl Abort, cells: &[u32], rows: usize, id: u32, wanted: &[u32])
    requires whole { length cells.now % rows ≡ 0 }
    requires room { rows ≤ ROOM }
{
    let mut room = [7; ROOM];
    let out = &mut room[..rows];
    mark_slots(cells, rows, id, out);
    is_mask(rt, "mark_slots", out, wanted);
}

fn joined(rt: &impl Abort, call: Call, digits: &[u32], others: &[u32], wanted: &[u32])
    requires same { length others.now ≡ length digits.now }
    requires room { length digits.now ≤ ROOM }
{
    let (mut mask, other) = (mask_of(digits), mask_of(others));
    let out = &mut mask[..digits.len()];
    call.run(out, &other[..others.len()]);
    is_mask(rt, call.name(), out, wanted);
}

fn counted(rt: &impl Abort, digits: &[u32], wanted: usize)
    requires { length digits.now ≤ ROOM }
{
    let mask = mask_of(digits);
    assert!(rt; count(&mask[..digits.len()]) == wanted, "count");
}

#[test]
fn worked_cases(rt: HostRuntime) {
    any(&rt, &[], &[1], &[]);
    any(&rt, &[0, 3], &[], &[0, 0]);
    any(&rt, &[1, 0, 2, 1], &[1], &[1, 0, 0, 1]);
    slots(&rt, &[1, 0, 2, 1], 2, 1, &[1, 1]);
    slots(&rt, &[1, 0, 2, 1], 2, 2, &[1, 0]);
    joined(&rt, Call::And, &[1, 1, 0], &[1, 0, 1], &[1, 0, 0]);
    joined(&rt, Call::Or, &[1, 0, 0], &[0, 0, 1], &[1, 0, 1]);
    joined(&rt, Call::Clear, &[1, 1, 0], &[0, 1, 1], &[1, 0, 0]);
    counted(&rt, &[1, 0, 1], 2);
}
