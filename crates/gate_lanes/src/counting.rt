//! Counts the rows that a mask marks.
ghost use Rattle.std.specs.Prelude.{◌≡◌};
ghost use Rattle.gate_lanes.specs.Masks.{count_marked};

use crate::MARKED;
use crate::groups::LANES;
use std::simd::prelude::*;

#[inline(always)]
fn count_group(words: u32x16) -> u32
    ensures { result ≡ count_marked words }
{
    words
        .simd_eq(u32x16::splat(MARKED))
        .to_bitmask()
        .count_ones()
}

fn count_rest(words: &[u32]) -> usize
    ensures { result ≡ count_marked words.now }
{
    words.iter().filter(|word| **word == MARKED).count()
}

/// Returns how many rows a mask marks. This takes time in the length of the mask.
pub fn count(mask: &[u32]) -> usize
    ensures { result ≡ count_marked mask.now }
{
    let mut total = 0;
    let mut at = 0;
    while mask.len() - at >= LANES {
        total += count_group(u32x16::from_slice(&mask[at..])) as usize;
        at += LANES;
    }
    total + count_rest(&mask[at..])
}
