//! Marks the rows that have an id in one of several cells.
ghost use Rattle.std.specs.Prelude.{◌≡◌, ◌%◌, length};
ghost use Rattle.gate_lanes.specs.Masks.{marked_slots};
ghost use Rattle.gate_lanes.specs.Inner.Masks.{marked_too};

use crate::MARKED;
use crate::groups::{Join, join_all};
use std::simd::prelude::*;

// Marks a row if the second word is this id, and else keeps the mark that the first word is.
#[derive(Clone, Copy)]
struct Holds {
    id: u32,
}

impl Join for Holds {
    ghost join = { λ how. marked_too how.id };

    #[inline(always)]
    fn group(&self, marks: u32x16, cells: u32x16) -> u32x16 {
        cells
            .simd_eq(u32x16::splat(self.id))
            .select(u32x16::splat(MARKED), marks)
    }

    #[inline(always)]
    fn word(&self, mark: u32, cell: u32) -> u32 {
        if cell == self.id { MARKED } else { mark }
    }
}

/// Marks in `out` the rows that have the id in one of their cells. The marked words become all ones and the others 0, whatever
/// stood in `out` before. The cells stand slot after slot, `rows` words each: the cell of row `r` in slot `s` is
/// `cells[s * rows + r]`. So the number of cells is a multiple of `rows`, and 0 where `rows` is 0 (the remainder by 0 is the
/// number itself, in a contract). `out` must have `rows` words. This takes time in the number of cells.
pub fn mark_slots(cells: &[u32], rows: usize, id: u32, out: &mut [u32])
    requires whole { length cells.now % rows ≡ 0 }
    requires len { length out.old ≡ rows }
    ensures { out.new ≡ marked_slots cells.now rows id }
{
    out.fill(0);
    if rows == 0 {
        return;
    }
    for slot in 0..cells.len() / rows {
        let start = slot * rows;
        join_all(&Holds { id }, out, &cells[start..start + rows]);
    }
}
