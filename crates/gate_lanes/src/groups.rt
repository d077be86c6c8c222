//! Joins two slices of words place by place: 16 words at once in SIMD lanes, and the rest one by one.
ghost use Rattle.std.specs.Prelude.{◌≡◌, ℕ, length};
ghost use Rattle.std.specs.Simd.Lanes.{zip2};

use std::simd::prelude::*;

// The number of words that are joined at once.
pub(crate) const LANES: usize = 16;

// What two words at one place are joined to. `group` does for 16 words what `word` does for one.
pub(crate) trait Join {
    ghost join: { Self → ℕ → ℕ → ℕ };

    fn group(&self, words: u32x16, others: u32x16) -> u32x16
        ensures { result ≡ zip2 (join self.now) words others };

    fn word(&self, word: u32, other: u32) -> u32
        ensures { result ≡ join self.now word other };
}

// Replaces each word of the first slice by what it and the other slice's word at that place are joined to.
pub(crate) fn join_all<J: Join>(how: &J, words: &mut [u32], others: &[u32])
    requires { length others.now ≡ length words.old }
    ensures { words.new ≡ zip2 (J.join how.now) words.old others.now }
{
    let mut at = 0;
    while words.len() - at >= LANES {
        let front = u32x16::from_slice(&words[at..]);
        let other = u32x16::from_slice(&others[at..]);
        how.group(front, other).copy_to_slice(&mut words[at..]);
        at += LANES;
    }
    join_rest(how, &mut words[at..], &others[at..]);
}

fn join_rest<J: Join>(how: &J, words: &mut [u32], others: &[u32])
    requires { length others.now ≡ length words.old }
    ensures { words.new ≡ zip2 (J.join how.now) words.old others.now }
{
    for at in 0..words.len() {
        words[at] = how.word(words[at], others[at]);
    }
}
