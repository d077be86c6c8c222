//! Each call against a plain loop, at lengths around whole groups of 16.
ghost use Rattle.std.specs.Prelude.{◌≡◌, ◌≤◌, ◌+◌, ◌*◌, length};

use crate::plain::{self, Call};
use gate_lanes::{MARKED, count, mark_any, mark_slots};
use std::process::Abort;

// The longest column, and the slots of a row.
const MOST: usize = 256;

const SLOTS: usize = 3;

const CELLS: usize = 768;

const LENGTHS: [usize; 9] = [0, 1, 15, 16, 17, 31, 32, 33, 256];

// Numbers below 5 without a pattern, which begin elsewhere for another seed.
fn numbers(words: &mut [u32], seed: u32) {
    let mut state = seed;
    for word in words {
        state = state.wrapping_mul(1_664_525).wrapping_add(1_013_904_223);
        *word = (state >> 24) % 5;
    }
}

// Masks whose words are 0, all ones or something else.
fn masks(words: &mut [u32], seed: u32) {
    numbers(words, seed);
    for word in words {
        *word = match *word {
            0 | 1 => 0,
            2 | 3 => MARKED,
            _ => 0x0f0f_1234,
        };
    }
}

// What stands behind the length is to stay too.
fn is_same(rt: &impl Abort, call: &str, length: usize, found: &[u32], wanted: &[u32]) {
    assert!(rt; found == wanted, "{call} of {length}");
}

fn any(rt: &impl Abort, length: usize, ids: &[u32])
    requires { length ≤ MOST }
{
    let (mut column, mut found, mut wanted) = ([0; MOST], [7; MOST], [7; MOST]);
    numbers(&mut column, 1);
    mark_any(&column[..length], ids, &mut found[..length]);
    plain::any(&column[..length], ids, &mut wanted[..length]);
    is_same(rt, "mark_any", length, &found, &wanted);
}

fn slots(rt: &impl Abort, rows: usize, id: u32)
    requires { rows ≤ MOST }
{
    let (mut cells, mut found, mut wanted) = ([0; CELLS], [7; MOST], [7; MOST]);
    numbers(&mut cells, 2);
    mark_slots(&cells[..SLOTS * rows], rows, id, &mut found[..rows]);
    plain::slots(&cells[..SLOTS * rows], rows, id, &mut wanted[..rows]);
    is_same(rt, "mark_slots", rows, &found, &wanted);
}

fn joined(rt: &impl Abort, length: usize, call: Call)
    requires { length ≤ MOST }
{
    let (mut found, mut wanted, mut other) = ([0; MOST], [0; MOST], [0; MOST]);
    masks(&mut found, 3);
    masks(&mut wanted, 3);
    masks(&mut other, 4);
    call.run(&mut found[..length], &other[..length]);
    call.run_plainly(&mut wanted[..length], &other[..length]);
    is_same(rt, call.name(), length, &found, &wanted);
}

fn counted(rt: &impl Abort, length: usize)
    requires { length ≤ MOST }
{
    let mut mask = [0; MOST];
    masks(&mut mask, 5);
    let mask = &mask[..length];
    assert!(rt; count(mask) == plain::count(mask), "count of {length}");
}

#[test]
fn as_a_plain_loop(rt: HostRuntime) {
    for length in LENGTHS {
        all_at(&rt, length.min(MOST));
    }
}

fn all_at(rt: &impl Abort, length: usize)
    requires { length ≤ MOST }
{
    any(rt, length, &[1, 3]);
    slots(rt, length, 4);
    joined(rt, length, Call::And);
    joined(rt, length, Call::Or);
    joined(rt, length, Call::Clear);
    counted(rt, length);
}
