//! Joins two masks in place: intersection, union and difference.
ghost use Rattle.std.specs.Prelude.{◌≡◌, length, bit_and, bit_or};
ghost use Rattle.gate_lanes.specs.Masks.{both, cleared_if, cleared_where, either};

use crate::MARKED;
use crate::groups::{Join, join_all};
use std::simd::prelude::*;

// The three ways to join two masks: to the rows that both mark, to the rows that either marks, and to the rows of the first that
// the second doesn't mark.
#[derive(Clone, Copy)]
struct And;

#[derive(Clone, Copy)]
struct Or;

#[derive(Clone, Copy)]
struct Clear;

impl Join for And {
    ghost join = { λ _. bit_and };

    #[inline(always)]
    fn group(&self, words: u32x16, others: u32x16) -> u32x16 {
        words & others
    }

    #[inline(always)]
    fn word(&self, word: u32, other: u32) -> u32 {
        word & other
    }
}

impl Join for Or {
    ghost join = { λ _. bit_or };

    #[inline(always)]
    fn group(&self, words: u32x16, others: u32x16) -> u32x16 {
        words | others
    }

    #[inline(always)]
    fn word(&self, word: u32, other: u32) -> u32 {
        word | other
    }
}

impl Join for Clear {
    ghost join = { λ _. cleared_if };

    #[inline(always)]
    fn group(&self, words: u32x16, flags: u32x16) -> u32x16 {
        flags
            .simd_eq(u32x16::splat(MARKED))
            .select(u32x16::splat(0), words)
    }

    #[inline(always)]
    fn word(&self, word: u32, flag: u32) -> u32 {
        if flag == MARKED { 0 } else { word }
    }
}

/// Replaces each word of `out` by its `&` with the word of `other` at the same place. Of two masks, this leaves the rows that
/// both mark. The slices must have the same length. This takes time in that length.
pub fn and_into(out: &mut [u32], other: &[u32])
    requires { length other.now ≡ length out.old }
    ensures { out.new ≡ both out.old other.now }
{
    join_all(&And, out, other);
}

/// Replaces each word of `out` by its `|` with the word of `other` at the same place. Of two masks, this leaves the rows that
/// either marks. The slices must have the same length. This takes time in that length.
pub fn or_into(out: &mut [u32], other: &[u32])
    requires { length other.now ≡ length out.old }
    ensures { out.new ≡ either out.old other.now }
{
    join_all(&Or, out, other);
}

/// Sets each word of `out` to 0 where `flags` marks its row, and leaves the other words as they are. The slices must have the
/// same length. This takes time in that length.
pub fn clear_where(out: &mut [u32], flags: &[u32])
    requires { length flags.now ≡ length out.old }
    ensures { out.new ≡ cleared_where out.old flags.now }
{
    join_all(&Clear, out, flags);
}
