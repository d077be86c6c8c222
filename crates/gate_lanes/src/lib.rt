//! Masks over columns of numbers, made and joined 16 words at a time.
//!
//! A mask has a word for each row: `MARKED`, all ones, where the row is marked, and 0 where it isn't. No call takes memory, and
//! none panics.
#![tactic(auto)]

mod counting;
mod groups;
mod ids;
mod joining;
mod laws;
mod slots;

pub use counting::count;
pub use ids::mark_any;
pub use joining::{and_into, clear_where, or_into};
pub use laws::a_marked_word_is_all_ones;
pub use slots::mark_slots;

/// The word of a marked row.
pub const MARKED: u32 = u32::MAX;
