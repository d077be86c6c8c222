//! Marks the rows of a column whose word is one of some ids.
ghost use Rattle.std.specs.Prelude.{◌≡◌, length, map};
ghost use Rattle.gate_lanes.specs.Masks.{is_among, mark_if, marked_any};

use crate::MARKED;
use crate::groups::{Join, join_all};
use std::simd::prelude::*;

// Marks a row if the second word is one of these ids, and ignores the first word.
#[derive(Clone, Copy)]
struct Among<'i> {
    ids: &'i [u32],
}

impl<'i> Join for Among<'i> {
    ghost join = { λ how _ word. mark_if (is_among how.ids.now word) };

    fn group(&self, _words: u32x16, column: u32x16) -> u32x16 {
        group_among(self.ids, column)
    }

    fn word(&self, _word: u32, word: u32) -> u32 {
        if self.ids.contains(&word) { MARKED } else { 0 }
    }
}

fn group_among(ids: &[u32], column: u32x16) -> u32x16
    ensures { result ≡ map (λ word. mark_if (is_among ids.now word)) column }
{
    let mut marks = u32x16::splat(0);
    for id in ids {
        marks = column
            .simd_eq(u32x16::splat(*id))
            .select(u32x16::splat(MARKED), marks);
    }
    marks
}

/// Marks in `out` the rows of a column whose word is among the ids. The marked words become all ones and the others 0, whatever
/// stood in `out` before. `out` must be as long as `column`. This takes time in their length times the number of ids.
pub fn mark_any(column: &[u32], ids: &[u32], out: &mut [u32])
    requires { length out.old ≡ length column.now }
    ensures { out.new ≡ marked_any ids.now column.now }
{
    join_all(&Among { ids }, out, column);
}
